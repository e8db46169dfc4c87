//! The C that isn't in the language, and what to write instead.

use crate::could_stand::WORDS;
use crate::spelled::{Spelled, Within, is, is_name, is_number, is_one};
use std::alloc::{AllocError, Global};

/// Unsigned numbers of fewer bits: once masked they have no sign, so nothing else differs.
const NARROW_NOTE: &str = "every number has 64 bits: to keep a `uint64_t` x at 32 bits, write \
    `x & 0xffffffff` after each `+`, `-`, `*`, `<<` and `~`";

/// Unsigned numbers of 64 bits.
const WIDE_NOTE: &str = "the unsigned numbers have 64 bits: write `uint64_t`";

/// Words that C reserves and the language leaves out.
const RESERVED: [(&str, &str); 25] = [
    (
        "char",
        "every number has 64 bits: write `int64_t` for `char`",
    ),
    (
        "short",
        "every number has 64 bits: write `int64_t` for `short`",
    ),
    ("int", "every number has 64 bits: write `int64_t` for `int`"),
    (
        "long",
        "every number has 64 bits: write `int64_t` for `long`",
    ),
    (
        "float",
        "numbers are whole: write an `int64_t` of smaller units for `float`",
    ),
    (
        "double",
        "numbers are whole: write an `int64_t` of smaller units for `double`",
    ),
    ("signed", "an `int64_t` has a sign: leave `signed` out"),
    ("unsigned", NARROW_NOTE),
    (
        "const",
        "leave `const` out: only `tx` takes it, and the language has no marks on types",
    ),
    (
        "volatile",
        "leave `volatile` out: the language has no marks on types",
    ),
    (
        "restrict",
        "leave `restrict` out: the language has no marks on types",
    ),
    ("static", "leave `static` out: a program is one file"),
    ("extern", "leave `extern` out: a program is one file"),
    ("inline", "leave `inline` out"),
    ("register", "leave `register` out"),
    ("auto", "leave `auto` out, and write the type"),
    (
        "typedef",
        "there is no `typedef`: write `struct NAME` each time",
    ),
    (
        "enum",
        "an `enum` defines constants between items and has no name, as `enum { SIZE = 64 };`",
    ),
    ("union", "there is no `union`: write a field for each part"),
    (
        "sizeof",
        "there is no `sizeof`: each value is one word, and `pm_new(struct NAME)` knows its size",
    ),
    (
        "switch",
        "there is no `switch`: write `if (x == 1) { .. } else if (x == 2) { .. }`",
    ),
    (
        "case",
        "there is no `switch`: write `if (x == 1) { .. } else if (x == 2) { .. }`",
    ),
    (
        "default",
        "there is no `switch`: write `if (x == 1) { .. } else { .. }`",
    ),
    (
        "goto",
        "there is no `goto`: write a function with `return`, or a flag that a loop tests",
    ),
    (
        "_Bool",
        "there is no `_Bool`: write `int64_t`, with 0 and 1",
    ),
];

/// The types of numbers.
const INTS: [&str; 2] = ["int64_t", "uint64_t"];

/// Names that stand for types of numbers with a sign in C.
const SIGNED: [&str; 9] = [
    "int64", "i64", "ssize_t", "intptr_t", "off_t", "int32", "int32_t", "int16_t", "int8_t",
];

/// Names of unsigned types of 64 bits.
const WIDE: [&str; 5] = ["uint64", "u64", "size_t", "uintptr_t", "ulong"];

/// Names of unsigned types of fewer bits.
const NARROW: [&str; 4] = ["uint32_t", "uint16_t", "uint8_t", "uint"];

/// Whether the name stands for a type of numbers in C.
fn is_number_type(name: &[u8]) -> bool {
    is(name, "bool") || is_one(name, &SIGNED) || is_one(name, &WIDE) || is_one(name, &NARROW)
}

/// Tokens after which a name stands.
const BEFORE_NAMES: [&str; 6] = ["int64_t", "uint64_t", "*", "struct", "->", "."];

/// What to write instead of what stands at a refused token, if it is C that was left out. `value`
/// says whether a value could stand there.
pub fn left_out(
    alloc: Global,
    near: &Spelled<'_>,
    value: bool,
) -> Result<Option<String>, AllocError> {
    if let Some(note) = plain_note(near, value) {
        return some(alloc, note);
    }
    if is_no_type(near) {
        return Ok(Some(no_type(alloc, near.before(1))?));
    }
    if is_name(near.here()) && near.within() == Within::Top {
        return some(alloc, ITEM_NOTE);
    }
    Ok(None)
}

fn some(alloc: Global, note: &str) -> Result<Option<String>, AllocError> {
    Ok(Some(String::from_str(alloc, note)?))
}

const ITEM_NOTE: &str =
    "an item begins with `struct`, `enum`, `persistent`, `tx`, `void`, `int64_t` or `uint64_t`";

/// The first note that says what to write instead.
fn plain_note(near: &Spelled<'_>, value: bool) -> Option<&'static str> {
    by_word(&RESERVED, near.here())
        .or(by_mark(near, value))
        .or(by_list(near))
        .or(by_place(near))
        .or(by_name(near))
}

/// A word that C reserves.
fn by_word(reserved: &[(&str, &'static str)], here: &[u8]) -> Option<&'static str> {
    for (word, note) in reserved {
        if is(here, word) {
            return Some(*note);
        }
    }
    None
}

/// A mark that has another place in C.
fn by_mark(near: &Spelled<'_>, value: bool) -> Option<&'static str> {
    let here = near.here();
    if is(near.before(1), "root") && near.within() == Within::Body {
        return Some(by_bare_root(here));
    }
    if is(here, "*") && (value || !is_number(near.before(1))) {
        return by_star(near);
    }
    if value {
        return by_sign(near);
    }
    if is(here, ",") {
        return by_comma(near);
    }
    if is(here, "[") {
        return by_bracket(near);
    }
    if is(here, "=") {
        return by_assign(near);
    }
    if is_one(here, &UPDATES) && near.within() == Within::Body {
        return Some("an assignment is a statement, to a name, a field or an element");
    }
    if is_one(here, &["++", "--"]) {
        return Some(STEP_NOTE);
    }
    if is(here, ".") {
        return by_dot(near);
    }
    if is(here, ":") && is_one(near.before(2), &[";", "{", "}"]) {
        return Some(LABEL_NOTE);
    }
    if is_one(here, &OPERATORS) && near.within() == Within::Body {
        return Some(VALUE_NOTE);
    }
    None
}

/// What stands after a `root` in a body in place of a `.`.
fn by_bare_root(here: &[u8]) -> &'static str {
    if is(here, "->") {
        "the root is no pointer: write `root.f`"
    } else {
        "the root is no value and no pointer: write `root.f`"
    }
}

const STEP_NOTE: &str =
    "`x++` and `x--` are statements of their own, with the mark after the target";

const LABEL_NOTE: &str = "there are no labels: write a function with `return`, or a flag";

const VALUE_NOTE: &str = "a value alone is no statement: assign it, return it, or leave it out";

/// A mark where a value could stand.
fn by_sign(near: &Spelled<'_>) -> Option<&'static str> {
    let here = near.here();
    if is(here, "&") {
        return Some("there are no addresses: only objects have pointers, and `pm_new` gives them");
    }
    if is(here, "+") {
        return Some("there is no unary `+`: leave it out");
    }
    if is_one(here, &["++", "--"]) {
        return Some(STEP_NOTE);
    }
    if is(here, "{") && is(near.before(1), "=") {
        return Some("there are no lists of first values: assign each field");
    }
    if is_one(here, &[";", ")", "]", ","]) {
        return Some("a value is missing here");
    }
    None
}

fn by_star(near: &Spelled<'_>) -> Option<&'static str> {
    let last = near.before(1);
    if is(near.before(3), "persistent") {
        return by_root(near.here());
    }
    if is_one(last, &INTS) || is_number_type(last) {
        return Some("there are no pointers to numbers: put the number into a struct, or return it");
    }
    if is(last, "*") {
        return Some("there are no pointers to pointers: put the pointer into a struct");
    }
    if is(last, "void") {
        return Some("there is no `void *`: a pointer leads to objects of one struct");
    }
    if is_name(last) {
        return Some("a pointer is declared with its struct: write `struct NAME *p`");
    }
    Some("there is no `*p`: write `p->field`")
}

const FOR_NOTE: &str = "each part of a `for` is one statement: keep the last, and write the others \
    before the loop, or at its end and before each `continue`";

const FOR_DECLARES: &str =
    "the first part of a `for` declares one name: declare the others before it";

fn by_comma(near: &Spelled<'_>) -> Option<&'static str> {
    let alone = near.declares_alone();
    if near.in_for() {
        return Some(if alone { FOR_DECLARES } else { FOR_NOTE });
    }
    let nameless = is_one(near.before(1), &["int64_t", "uint64_t", "*"]);
    match near.within() {
        Within::Body | Within::Fields if nameless => Some("a name is missing before the `,`"),
        Within::Body if alone => Some("put the declarations into `{ }`"),
        Within::Body => Some("there is no comma operator: write two statements"),
        Within::Fields => Some(LENGTH_NOTE),
        Within::Parameters => Some("a parameter has a type and a name, as `int64_t n`"),
        Within::Top => Some(
            "there are no global variables but the root: write a field of its struct",
        ),
    }
}

fn by_bracket(near: &Spelled<'_>) -> Option<&'static str> {
    match near.within() {
        Within::Body => Some(
            "there are no local arrays: write an array field of the root or of an object",
        ),
        Within::Fields => Some(LENGTH_NOTE),
        Within::Parameters => Some("an array is no parameter: pass a pointer to its object"),
        Within::Top => Some(
            "there are no global variables but the root: write a field of its struct",
        ),
    }
}

const LENGTH_NOTE: &str = "an array has one length: write `t[16]` and `t[4 * i + j]` for `t[4][4]`";

/// The operators that stand after a value.
const OPERATORS: [&str; 19] = [
    "*", "/", "%", "+", "-", "<<", ">>", "<", "<=", ">", ">=", "==", "!=", "&", "^", "|", "&&",
    "||", "?",
];

/// The marks of assignments that update their target.
const UPDATES: [&str; 10] = ["*=", "/=", "%=", "+=", "-=", "<<=", ">>=", "&=", "^=", "|="];

fn by_assign(near: &Spelled<'_>) -> Option<&'static str> {
    if is_one(near.before(1), &["int64_t", "uint64_t", "*"]) {
        return Some("a name is missing before the `=`");
    }
    match near.within() {
        Within::Top => Some("there are no global variables but the root, whose words begin with 0"),
        Within::Fields => Some("a field has no first value: it begins with 0"),
        Within::Parameters => Some("a parameter has no first value: each call gives one"),
        Within::Body => Some(
            "an assignment is a statement, to a name, a field or an element; `==` compares",
        ),
    }
}

fn by_dot(near: &Spelled<'_>) -> Option<&'static str> {
    let last = near.before(1);
    if is_number(last) {
        return Some("numbers are whole: write a number of smaller units");
    }
    if is(last, "]") {
        return Some(ELEMENT_NOTE);
    }
    if near.within() == Within::Parameters {
        return Some("a function has a fixed number of parameters");
    }
    Some("an object is reached by a pointer: write `p->f`; only the root has `root.f`")
}

const ELEMENT_NOTE: &str =
    "`p[0].f` is written `p->f`; of an element that is a pointer, write `t[i]->f`";

/// What the place of the token tells.
fn by_place(near: &Spelled<'_>) -> Option<&'static str> {
    let here = near.here();
    if is_one(near.before(1), &["if", "while"]) {
        return Some("a condition stands in brackets, as in `if (x)`");
    }
    if here.is_empty() {
        return Some("the text ends here: a `}` or a `;` is missing above");
    }
    if is_one(here, &["break", "continue"]) {
        return Some("`break` and `continue` stand in loops alone");
    }
    if is(here, "else") {
        return Some("an `else` follows one statement after its `if`: put several into `{ }`");
    }
    match near.within() {
        Within::Top => at_top(near),
        Within::Parameters => in_parameters(near),
        Within::Fields => in_fields(near),
        Within::Body => in_body(near),
    }
}

fn at_top(near: &Spelled<'_>) -> Option<&'static str> {
    let here = near.here();
    let last = near.before(1);
    if is(last, "tx") && !is_number_type(here) {
        return by_tx(near);
    }
    if is(last, "abort") && is_name(here) && is(near.after(1), "(") {
        return Some("the type is missing: write `tx abort int64_t f() { .. }`");
    }
    if is(here, "tx") && is_one(last, &["int64_t", "uint64_t", "void"]) {
        return Some("`tx` stands before the type: write `tx int64_t f() { .. }`");
    }
    if is(here, "abort") && is(last, "abort") {
        return Some("one `abort` is enough");
    }
    if is_one(here, &["abort", "const"]) && is_one(last, &["abort", "const"]) {
        return Some("a transaction has one mark: `abort` or `const`");
    }
    if is(here, "const") && !is(last, "tx") {
        return Some("`const` follows `tx`: write `tx const int64_t f() { .. }`");
    }
    if is(here, "abort") {
        return Some("`abort` follows `tx`: write `tx abort int64_t f() { .. }`");
    }
    if is(near.before(3), "persistent") && is(near.before(2), "struct") {
        return by_root(here);
    }
    if is(last, "persistent") {
        return Some(ROOT_NOTE);
    }
    if is(here, "root") && is(near.before(2), "struct") {
        return Some(ROOT_NOTE);
    }
    if is(last, "}") && is_name(here) && is(near.after(1), ";") {
        return Some("write `struct NAME { .. };`, and then `persistent struct NAME root;`");
    }
    if is_one(here, &["if", "while", "do", "for", "return", "}"]) {
        return Some("this stands outside of every function: a `}` above it is one too many");
    }
    if is(here, ";") && is(last, ")") {
        return Some(
            "there are no prototypes, and none is needed: functions are known in the whole file",
        );
    }
    if is(here, ";") && is(near.before(2), "struct") {
        return Some("there are no forward declarations: structs are known in the whole file");
    }
    if is(here, ";") {
        return Some("there are no global variables but the root: write a field of its struct");
    }
    None
}

/// What is wrong after a `tx`.
fn by_tx(near: &Spelled<'_>) -> Option<&'static str> {
    if is_name(near.here()) && is(near.after(1), "(") {
        return Some("the type is missing: write `tx int64_t f() { .. }`");
    }
    Some(MARK_NOTE)
}

const MARK_NOTE: &str =
    "`tx` takes the mark `abort`, by which a trap restores the pool, or `const`, which only looks";

const ROOT_NOTE: &str = "the root is declared once: write `persistent struct NAME root;`";

fn by_root(here: &[u8]) -> Option<&'static str> {
    if is(here, "*") {
        return Some("the root is a struct and no pointer: write `persistent struct NAME root;`");
    }
    Some("the one persistent variable is named `root`: write `persistent struct NAME root;`")
}

fn in_parameters(near: &Spelled<'_>) -> Option<&'static str> {
    let here = near.here();
    if is_one(here, &[",", ")"]) && is_one(near.before(1), &["int64_t", "uint64_t", "*"]) {
        return Some("a parameter has a name too, as `int64_t n`");
    }
    if is_name(here) && is(near.before(2), "struct") {
        return Some("a struct is no value: pass a pointer, as `struct NAME *p`");
    }
    if is(here, "(") {
        return Some("there are no pointers to functions");
    }
    if is_name(here) && is_one(near.before(1), &["(", ","]) && !is_number_type(here) {
        return Some("a parameter has a type and a name, as `int64_t n`");
    }
    None
}

fn in_fields(near: &Spelled<'_>) -> Option<&'static str> {
    let here = near.here();
    if is(here, "{") {
        return Some("a struct holds no struct: write its fields, or a pointer to an object");
    }
    if is_name(here) && is(near.before(2), "struct") {
        return Some("a struct holds no struct: write its fields, or a pointer to an object");
    }
    if is(here, "}") && is(near.before(1), "{") {
        return Some("a struct has a field at least");
    }
    if is_name(here) && is(near.before(1), "[") {
        return Some("the length of an array is a numeral");
    }
    None
}

fn in_body(near: &Spelled<'_>) -> Option<&'static str> {
    let here = near.here();
    let last = near.before(1);
    if is(here, "void") && is(near.after(1), "*") {
        return Some("there is no `void *`: a pointer leads to objects of one struct");
    }
    if is_one(here, &["tx", "persistent", "void"]) && !is_one(last, &BEFORE_NAMES) {
        return Some("this stands in the body of a function: a `}` above it is missing");
    }
    if is_one(here, &["int64_t", "uint64_t", "struct"]) && is(last, "(") {
        return Some(
            "a cast is to a number, and a declaration stands in no brackets but those of `for`",
        );
    }
    if is(last, "(") && is(near.before(2), "pm_new") {
        return Some("write `pm_new(struct NAME)`");
    }
    if is_name(here) && is(near.before(2), "struct") {
        return Some("a struct is no value: declare a pointer, as `struct NAME *p`");
    }
    if is(here, ";") {
        return Some(VALUE_NOTE);
    }
    None
}

/// What stands after a comma in place of another name of a declaration.
fn by_list(near: &Spelled<'_>) -> Option<&'static str> {
    if !is_listed(near) {
        return None;
    }
    if is(near.here(), ";") {
        return Some("a name is missing after the `,`");
    }
    if is_one(near.here(), &["int64_t", "uint64_t", "struct"]) {
        return Some("a declaration has its type once: leave it out after the `,`");
    }
    None
}

/// Whether the token stands after a comma of a declaration, and so after its type, put there again.
fn is_listed(near: &Spelled<'_>) -> bool {
    let number = is_one(near.before(1), &INTS) && is(near.before(2), ",");
    let pointer = is(near.before(2), "struct") && is(near.before(3), ",");
    (number || pointer) && (near.within() == Within::Body || near.within() == Within::Fields)
}

/// A name of a type of numbers in C.
fn by_type(name: &[u8]) -> Option<&'static str> {
    if is_one(name, &WIDE) {
        return Some(WIDE_NOTE);
    }
    if is_one(name, &NARROW) {
        return Some(NARROW_NOTE);
    }
    if is(name, "bool") {
        return Some("there is no `bool`: write `int64_t`, with 0 and 1");
    }
    if is_one(name, &SIGNED) {
        return Some("every number has 64 bits: write `int64_t`");
    }
    None
}

/// A name where none can stand.
fn by_name(near: &Spelled<'_>) -> Option<&'static str> {
    let here = near.here();
    let last = near.before(1);
    if let Some(note) = by_type(here).or(by_type(last)) {
        return Some(note);
    }
    if is_one(here, &WORDS) && is_one(last, &BEFORE_NAMES) {
        return Some("this is a word of the language: choose another name");
    }
    None
}

/// Whether a name stands after another that begins a declaration.
fn is_no_type(near: &Spelled<'_>) -> bool {
    let last = near.before(1);
    if !is_name(near.here()) || !is_name(last) || is_one(last, &WORDS) {
        return false;
    }
    near.first() == last
}

fn no_type(alloc: Global, name: &[u8]) -> Result<String, AllocError> {
    let name = String::from_utf8_lossy(alloc, name)?;
    let name = name.as_str();
    format!(in alloc; "`{name}` is no type: there are `int64_t`, `uint64_t` and `struct {name} *`")
}
