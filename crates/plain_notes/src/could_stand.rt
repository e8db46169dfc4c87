//! What could stand at a refused token, in words.

use std::alloc::{AllocError, Global};

/// The tokens that are no words of the language and no marks, by one of their spellings.
pub const NAMES: [&str; 2] = ["name", "1"];

/// The words of the language, which are no names.
pub const WORDS: [&str; 20] = [
    "int64_t",
    "uint64_t",
    "void",
    "struct",
    "persistent",
    "root",
    "tx",
    "const",
    "if",
    "else",
    "while",
    "do",
    "for",
    "break",
    "continue",
    "return",
    "NULL",
    "pm_new",
    "pm_free",
    "abort",
];

/// The marks.
pub const MARKS: [&str; 45] = [
    "<<=", ">>=", "->", "++", "--", "+=", "-=", "*=", "/=", "%=", "&=", "^=", "|=", "<<", ">>",
    "<=", ">=", "==", "!=", "&&", "||", "+", "-", "*", "/", "%", "<", ">", "&", "^", "|", "!", "~",
    "=", "?", ":", ".", ",", ";", "(", ")", "{", "}", "[", "]",
];

/// Tokens that have one name: the token that names the group, the groups that include it,
/// and the name.
#[derive(Clone, Copy)]
struct Group {
    by: &'static str,
    unless: &'static [&'static str],
    name: &'static str,
    tokens: &'static [&'static str],
}

const STATEMENT: Group = Group {
    by: "for",
    unless: &[],
    name: "a statement",
    tokens: &[
        "name", "1", "int64_t", "uint64_t", "struct", "if", "while", "do", "for", "break",
        "continue", "return", "NULL", "pm_new", "pm_free", "abort", ";", "(", "{", "root",
    ],
};

const EXPRESSION: Group = Group {
    by: "pm_new",
    unless: &["for"],
    name: "a value",
    tokens: &["name", "1", "NULL", "pm_new", "(", "-", "!", "~", "root"],
};

const OPERATOR: Group = Group {
    by: "%",
    unless: &[],
    name: "an operator",
    tokens: &[
        "<<", ">>", "<=", ">=", "==", "!=", "&&", "||", "+", "-", "*", "/", "%", "<", ">", "&",
        "^", "|", "?",
    ],
};

const ASSIGNMENT: Group = Group {
    by: "+=",
    unless: &[],
    name: "an assignment",
    tokens: &[
        "=", "+=", "-=", "*=", "/=", "%=", "&=", "^=", "|=", "<<=", ">>=",
    ],
};

const ITEM: Group = Group {
    by: "persistent",
    unless: &[],
    name: "a struct, constants, the root or a function",
    tokens: &["persistent", "tx", "void", "int64_t", "uint64_t", "struct"],
};

const TYPE: Group = Group {
    by: "int64_t",
    unless: &["for", "persistent"],
    name: "a type",
    tokens: &["int64_t", "uint64_t", "struct"],
};

const GROUPS: [Group; 6] = [STATEMENT, ITEM, EXPRESSION, OPERATOR, ASSIGNMENT, TYPE];

/// What stands for a token or a group in the note, between two marks.
#[derive(Clone, Copy)]
struct Name<'a> {
    mark: &'static str,
    text: &'a str,
}

/// The tokens that could stand there, as one note; `None` if there are none.
pub fn expected(alloc: Global, able: &[&str]) -> Result<Option<String>, AllocError> {
    let names = names_of(alloc, &GROUPS, able)?;
    if names.is_empty() {
        return Ok(None);
    }
    Ok(Some(listed(alloc, &names)?))
}

/// The groups that could stand there, and then the other tokens.
fn names_of<'a>(
    alloc: Global,
    groups: &[Group],
    able: &[&'a str],
) -> Result<Vec<Name<'a>>, AllocError> {
    let mut names = Vec::new(alloc);
    for group in groups {
        if applies(group, able) {
            names.push(Name {
                mark: "",
                text: group.name,
            })?;
        }
    }
    push_tokens(groups, able, &mut names)?;
    Ok(names)
}

/// Adds the tokens that are in no group.
fn push_tokens<'a>(
    groups: &[Group],
    able: &[&'a str],
    names: &mut Vec<Name<'a>>,
) -> Result<(), AllocError> {
    for token in able {
        if !is_grouped(groups, able, token) {
            names.push(name_of(token))?;
        }
    }
    Ok(())
}

/// Whether a group is named.
fn applies(group: &Group, able: &[&str]) -> bool {
    !has_any(able, group.unless) && has(able, group.by)
}

/// Whether the group is named and has the token.
fn includes(group: &Group, able: &[&str], token: &str) -> bool {
    applies(group, able) && has(group.tokens, token)
}

/// Whether a group that is named has the token.
fn is_grouped(groups: &[Group], able: &[&str], token: &str) -> bool {
    for group in groups {
        if includes(group, able, token) {
            return true;
        }
    }
    false
}

/// Whether one of the others is among the tokens.
fn has_any(tokens: &[&str], others: &[&str]) -> bool {
    for other in others {
        if has(tokens, other) {
            return true;
        }
    }
    false
}

fn has(tokens: &[&str], token: &str) -> bool {
    for other in tokens {
        if *other == token {
            return true;
        }
    }
    false
}

fn name_of(token: &str) -> Name<'_> {
    if token == "name" {
        return Name {
            mark: "",
            text: "a name",
        };
    }
    if token == "1" {
        return Name {
            mark: "",
            text: "a number",
        };
    }
    Name {
        mark: "`",
        text: token,
    }
}

/// The names, with commas and an 'or' between them.
fn listed(alloc: Global, names: &[Name<'_>]) -> Result<String, AllocError> {
    let mut note = String::from_str(alloc, "here could stand ")?;
    push_names(&mut note, names)?;
    Ok(note)
}

fn push_names(note: &mut String, names: &[Name<'_>]) -> Result<(), AllocError> {
    for (at, name) in names.iter().enumerate() {
        note.push_str(between(at, names.len()))?;
        push_name(note, name)?;
    }
    Ok(())
}

fn push_name(note: &mut String, name: &Name<'_>) -> Result<(), AllocError> {
    note.push_str(name.mark)?;
    note.push_str(name.text)?;
    note.push_str(name.mark)
}

/// What stands before the name of this place.
fn between(at: usize, count: usize) -> &'static str {
    if at == 0 {
        ""
    } else if at.saturating_add(1) == count {
        " or "
    } else {
        ", "
    }
}
