//! The errors of typing after the first one. Each is the first of the text without the bodies of
//! the functions in which those before it stand.

use crate::names::item_end;
use crate::program::{rule_place, rule_told, spelled, start_of};
use c_constants::constants;
use c_lexer::{TokenList, tokens};
use c_parser::parse;
use c_types::{TypeFault, check};
use plain_notes::{Spelled, Told, message_at};
use std::alloc::{AllocError, Global};

/// The most errors that are told, the first among them.
const MOST_TOLD: u64 = 10;

/// An error of typing: what is told at this byte, and the bytes of the body in which it stands.
#[derive(Drop)]
struct Found {
    start: u64,
    told: Told,
    body: Option<(u64, u64)>,
}

/// The messages of the errors after the first one.
pub(crate) fn other_notes(alloc: Global, path: &str, text: &[u8]) -> Result<String, AllocError> {
    let mut messages = String::new(alloc);
    let mut left = Vec::new(alloc);
    left.extend_from_slice(text)?;
    for number in 0..MOST_TOLD {
        let Some(found) = found_in(alloc, left.as_slice())? else {
            return Ok(messages);
        };
        if number > 0 {
            let message = message_at(alloc, path, text, found.start, &found.told)?;
            messages.push_str(message.as_str())?;
        }
        let Some((from, to)) = found.body else {
            return Ok(messages);
        };
        left = without(alloc, left.as_slice(), from, to)?;
    }
    Ok(messages)
}

/// The first error of typing of a text.
fn found_in(alloc: Global, text: &[u8]) -> Result<Option<Found>, AllocError> {
    let Ok(all) = tokens(alloc, text) else {
        return Ok(None);
    };
    let Ok(list) = constants(alloc, &all) else {
        return Ok(None);
    };
    let Ok(ast) = parse(alloc, &list) else {
        return Ok(None);
    };
    match check(alloc, ast) {
        Ok(_) => Ok(None),
        Err(fault) => broken_rule(alloc, text, &list, fault),
    }
}

fn broken_rule(
    alloc: Global,
    text: &[u8],
    list: &TokenList,
    fault: TypeFault,
) -> Result<Option<Found>, AllocError> {
    let Some(place) = rule_place(fault) else {
        return Ok(None);
    };
    let words = spelled(alloc, text, list)?;
    let near = Spelled {
        words: &words,
        place,
    };
    let told = rule_told(alloc, list, near, fault)?;
    Ok(Some(Found {
        start: start_of(list, place),
        told,
        body: body_around(list, &near),
    }))
}

/// The bytes between the braces of the function's body in which the token stands.
fn body_around(list: &TokenList, near: &Spelled<'_>) -> Option<(u64, u64)> {
    for place in near.item_start()..near.place {
        let one = Spelled {
            words: near.words,
            place,
        };
        if one.here() == b"{".as_slice() {
            if one.before(1) != b")".as_slice() {
                return None;
            }
            let from = start_of(list, place.saturating_add(1));
            return Some((from, start_of(list, item_end(near))));
        }
    }
    None
}

/// The text with blanks in place of these bytes; its lines stay.
fn without(alloc: Global, text: &[u8], from: u64, to: u64) -> Result<Vec<u8>, AllocError> {
    let mut left = Vec::new(alloc);
    for (at, byte) in text.iter().enumerate() {
        let inside = from <= at as u64 && (at as u64) < to && *byte != b'\n';
        left.push(if inside { b' ' } else { *byte })?;
    }
    Ok(left)
}
