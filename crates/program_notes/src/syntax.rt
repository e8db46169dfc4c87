//! Messages of tokens that continue no program.

use crate::program::start_of;
use c_constants::{ConstFault, constants};
use c_lexer::{Token, TokenList, Word, tokens};
use c_parser::{ParseFault, parse};
use nvm_base::Bytes;
use plain_notes::{MARKS, NAMES, Spelled, Told, WORDS, expected, is_one, left_out};
use std::alloc::{AllocError, Global};

/// The message of a refused token: what it is, what to write instead, and what could stand there.
pub(crate) fn syntax(
    alloc: Global,
    text: &[u8],
    list: &TokenList,
    near: &Spelled<'_>,
) -> Result<Told, AllocError> {
    let able = able_there(alloc, text, list, near)?;
    let told = Told::new(alloc, what(alloc, near.here())?.as_str())?;
    let told = told.with_some(alloc, missing(alloc, list, near, &able)?)?;
    told.with_some(alloc, expected(alloc, &able)?)
}

/// The tokens that could stand there.
fn able_there(
    alloc: Global,
    text: &[u8],
    list: &TokenList,
    near: &Spelled<'_>,
) -> Result<Vec<&'static str>, AllocError> {
    let before = text_before(alloc, text, list, near)?;
    let mut able = Vec::new(alloc);
    for token in NAMES {
        if goes_on(alloc, before, token)? {
            able.push(token)?;
        }
    }
    for token in WORDS {
        if goes_on(alloc, before, token)? {
            able.push(token)?;
        }
    }
    for token in MARKS {
        if goes_on(alloc, before, token)? {
            able.push(token)?;
        }
    }
    Ok(able)
}

/// The text up to the token, from the item on in which that stands; of a text with constants, which
/// may be used there, from its begin on.
fn text_before<'a>(
    alloc: Global,
    text: &'a [u8],
    list: &TokenList,
    near: &Spelled<'_>,
) -> Result<&'a [u8], AllocError> {
    let place = near.place.min(list.len());
    let first = if has_constants(alloc, text)? {
        0
    } else {
        start_of(list, near.item_start().min(place))
    };
    Ok(between(text, first, start_of(list, place)))
}

/// Whether the text has a word `enum`.
fn has_constants(alloc: Global, text: &[u8]) -> Result<bool, AllocError> {
    let Ok(all) = tokens(alloc, text) else {
        return Err(AllocError);
    };
    for place in 0..all.len() {
        if let Some(placed) = all.get(place) {
            if let Token::Word(Word::Enum) = placed.token {
                return Ok(true);
            }
        }
    }
    Ok(false)
}

/// What to write instead, by what could stand there.
fn missing(
    alloc: Global,
    list: &TokenList,
    near: &Spelled<'_>,
    able: &[&str],
) -> Result<Option<String>, AllocError> {
    if lacks_semicolon(list, near, able) {
        return semicolon(alloc, near);
    }
    if able.contains(&")") && is_one(near.here(), &[";", "{"]) {
        return some_text(alloc, "a `)` is missing here");
    }
    if able.contains(&"while") && !able.contains(&"for") {
        return some_text(
            alloc,
            "the body of a `do` ends here: `while (x);` follows it",
        );
    }
    if able.contains(&":") && is_one(near.here(), &[";", ")", ",", "]", "}"]) {
        return some_text(alloc, "a `:` is missing here, and the value after it");
    }
    let in_expression = able.contains(&"pm_new") && !able.contains(&"for");
    match left_out(alloc, near, in_expression)? {
        Some(note) => Ok(Some(note)),
        None => comma(alloc, able),
    }
}

/// The note of a comma that is missing between arguments or parameters.
fn comma(alloc: Global, able: &[&str]) -> Result<Option<String>, AllocError> {
    if able.contains(&",") && able.contains(&")") {
        return some_text(alloc, "a `,` is missing here");
    }
    Ok(None)
}

fn some_text(alloc: Global, text: &str) -> Result<Option<String>, AllocError> {
    Ok(Some(String::from_str(alloc, text)?))
}

fn lacks_semicolon(list: &TokenList, near: &Spelled<'_>, able: &[&str]) -> bool {
    if !able.contains(&";") || able.contains(&"for") {
        return false;
    }
    near.here() == b"}".as_slice() || on_another_line(list, near.place.min(list.len()))
}

/// The text from a byte to another.
fn between(text: &[u8], from: u64, to: u64) -> &[u8] {
    let first = text.split_at(text.len().min(to as usize)).0;
    first.split_at(first.len().min(from as usize)).1
}

/// What is told of a refused token.
pub(crate) fn what(alloc: Global, here: &[u8]) -> Result<String, AllocError> {
    if here.is_empty() {
        return String::from_str(alloc, "syntax at the end of the text");
    }
    let token = String::from_utf8_lossy(alloc, here)?;
    let token = token.as_str();
    format!(in alloc; "syntax at `{token}`")
}

/// Whether the token stands on another line than the one before it.
#[tactic(auto, using(crate::proofs::Refusals::min_within))]
fn on_another_line(list: &TokenList, place: u64) -> bool {
    match place.checked_sub(1) {
        Some(last) => list.line(last.min(list.len())) < list.line(place.min(list.len())),
        None => false,
    }
}

fn semicolon(alloc: Global, near: &Spelled<'_>) -> Result<Option<String>, AllocError> {
    let last = String::from_utf8_lossy(alloc, near.before(1))?;
    let last = last.as_str();
    Ok(Some(format!(in alloc; "a `;` is missing after `{last}`")?))
}

/// Whether some program goes on with this token after this text. What comes before an item makes no
/// difference, but for constants.
fn goes_on(alloc: Global, before: &[u8], token: &str) -> Result<bool, AllocError> {
    let mut text = Bytes::new(alloc);
    text.extend(before)?;
    text.extend(b"\n")?;
    text.extend(token.as_bytes())?;
    let Ok(all) = tokens(alloc, text.as_slice()) else {
        return Ok(false);
    };
    match constants(alloc, &all) {
        Ok(list) => begins_program(alloc, &list),
        Err(ConstFault::NoMemory) => Err(AllocError),
        Err(_) => Ok(false),
    }
}

/// Whether some program begins with these tokens.
fn begins_program(alloc: Global, list: &TokenList) -> Result<bool, AllocError> {
    match parse(alloc, list) {
        Err(ParseFault::Syntax(place)) => Ok(place >= list.len()),
        Err(ParseFault::NoMemory) => Err(AllocError),
        Err(ParseFault::TooDeep(_)) => Ok(false),
        Ok(_) => Ok(true),
    }
}
