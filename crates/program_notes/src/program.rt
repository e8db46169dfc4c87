//! The message of a program that is refused.

ghost use Rattle.std.specs.Prelude.{◌≡◌, ◌≢◌, ◌⊎◌, ℕ, ◌+◌, List, [], Ok, Err, Some, IfOk, IfErr};
ghost use Rattle.std.specs.Prelude.{IfSome};
ghost use Rattle.std.specs.Prelude.{option_map, string_bytes};
ghost use Rattle.c_lexer.specs.Cuts.{answer};
ghost use Rattle.c_lexer.specs.TokenList.{start_at};
ghost use Rattle.c_constants.specs.Left.{LeavesTokens};
ghost use Rattle.c_constants.specs.Passes as passes;
ghost use Rattle.program_notes.specs.RefusedAt.{ReadsAs, RefusedAt, RefusesConstantsAt, Tells};
ghost use Rattle.program_notes.specs.RefusedAt.{constant_start, rule_place};
ghost use Rattle.c_types.specs.Fault.{breaks, refusal};

use crate::declared::declared;
use crate::others::other_notes;
use crate::syntax::{syntax, what};
use crate::typing::typing;
use c_constants::{ConstFault, constants};
use c_lexer::{LexFault, MOST_BYTES, TokenList, tokens};
use c_parser::{ParseFault, parse};
use c_tree::Ast;
use c_types::{TypeFault, check};
use plain_notes::{Spelled, Told, bad_byte, bad_number, first_token, message_at, message_of_file};
use std::alloc::{AllocError, Global};

/// The message of a program's text, if it is refused. It begins with the path, the line and the
/// column of the refused byte or token, but for a text that is too long.
pub fn program_note(alloc: Global, path: &str, text: &[u8]) -> Result<Option<String>, AllocError>
    ensures tells { IfOk result (λ note. Tells path.now text.now (option_map string_bytes note)) }
{
    match list_of(alloc, text) {
        Err(fault) => by_lexer(alloc, path, text, fault),
        Ok(all) => of_constants(alloc, path, text, &all),
    }
}

fn list_of(alloc: Global, text: &[u8]) -> Result<TokenList, LexFault>
    ensures ok { IfOk result (λ all. answer text.now ≡ Ok all) }
    ensures err { IfErr result (λ fault. (fault ≡ LexFault.NoMemory)
        ⊎ (answer text.now ≡ Err fault)) }
{
    tokens(alloc, text)
}

/// The text from a byte on.
fn after(text: &[u8], start: u64) -> &[u8] {
    text.split_at(text.len().min(start as usize)).1
}

#[tactic(auto, using(crate::proofs::Refusals::long_refused))]
fn by_lexer(
    alloc: Global,
    path: &str,
    text: &[u8],
    fault: LexFault,
) -> Result<Option<String>, AllocError>
    requires { (fault ≡ LexFault.NoMemory) ⊎ (answer text.now ≡ Err fault) }
    ensures tells { IfOk result (λ note. Tells path.now text.now (option_map string_bytes note)) }
{
    match fault {
        LexFault::BadByte { start, .. } => {
            let told = byte_told(alloc, after(text, start))?;
            at(alloc, path, text, start, &told)
        }
        LexFault::BadNumber { start, .. } => {
            let told = number_told(alloc, after(text, start))?;
            at(alloc, path, text, start, &told)
        }
        LexFault::OpenComment { start, .. } => {
            let told = Told::new(alloc, "this comment is never closed")?.with(
                alloc,
                "close it with `*/`",
            )?;
            at(alloc, path, text, start, &told)
        }
        LexFault::TooLong => too_long(alloc, path, text),
        LexFault::NoMemory => Err(AllocError),
    }
}

/// What is told of a byte that begins no token; `left` is the text from it on.
fn byte_told(alloc: Global, left: &[u8]) -> Result<Told, AllocError> {
    Told::new(alloc, "no token begins with this byte")?.with(alloc, bad_byte(left))
}

/// What is told of a run that is no number; `left` is the text from it on.
fn number_told(alloc: Global, left: &[u8]) -> Result<Told, AllocError> {
    let run = first_token(left);
    let shown = String::from_utf8_lossy(alloc, run)?;
    let shown = shown.as_str();
    let what = format!(in alloc; "`{shown}` is no number")?;
    let note = bad_number(alloc, run)?;
    Told::new(alloc, what.as_str())?.with(alloc, note.as_str())
}

#[tactic(auto, using(crate::proofs::Refusals::long))]
fn too_long(alloc: Global, path: &str, text: &[u8]) -> Result<Option<String>, AllocError>
    requires { answer text.now ≡ Err LexFault.TooLong }
    ensures tells { IfOk result (λ note. Tells path.now text.now (option_map string_bytes note)) }
{
    let message = message_of_file(alloc, path, too_much(text.len()))?;
    Ok(Some(message))
}

/// What a text of this size has too many of.
fn too_much(size: usize) -> &'static str {
    if size > MOST_BYTES {
        "the program has more than 262144 bytes"
    } else {
        "the program has more than 16384 tokens"
    }
}

/// The message of a text with these tokens, if it is refused.
#[tactic(auto, using(crate::proofs::Refusals::of_constants))]
fn of_constants(
    alloc: Global,
    path: &str,
    text: &[u8],
    all: &TokenList,
) -> Result<Option<String>, AllocError>
    requires { answer text.now ≡ Ok all.now }
    ensures tells { IfOk result (λ note. Tells path.now text.now (option_map string_bytes note)) }
{
    match left_of(alloc, all) {
        Ok(list) => of_tokens(alloc, path, text, &list),
        Err(fault) => by_constants(alloc, path, text, fault),
    }
}

fn left_of(alloc: Global, all: &TokenList) -> Result<TokenList, ConstFault>
    ensures ok { IfOk result (λ list. passes.tokens_left all.now ≡ Ok list) }
    ensures err { IfErr result (λ fault. (fault ≡ ConstFault.NoMemory)
        ⊎ (passes.tokens_left all.now ≡ Err fault)) }
{
    constants(alloc, all)
}

#[tactic(auto, using(crate::proofs::Refusals::long_left_refused))]
fn by_constants(
    alloc: Global,
    path: &str,
    text: &[u8],
    fault: ConstFault,
) -> Result<Option<String>, AllocError>
    requires { (fault ≡ ConstFault.NoMemory) ⊎ RefusesConstantsAt text.now fault }
    ensures tells { IfOk result (λ note. Tells path.now text.now (option_map string_bytes note)) }
{
    match fault {
        ConstFault::TooLong => long_left(alloc, path, text, MANY_LEFT),
        _ => at_constant(alloc, path, text, fault),
    }
}

const MANY_LEFT: &str =
    "with constants and lists of names written out the program has more than 16384 tokens";

/// The message of a text whose constants and declarations leave too many tokens.
#[tactic(auto, using(crate::proofs::Refusals::long_left))]
fn long_left(
    alloc: Global,
    path: &str,
    text: &[u8],
    what: &str,
) -> Result<Option<String>, AllocError>
    requires { RefusesConstantsAt text.now ConstFault.TooLong }
    ensures tells { IfOk result (λ note. Tells path.now text.now (option_map string_bytes note)) }
{
    let message = message_of_file(alloc, path, what)?;
    Ok(Some(message))
}

/// The message of a refused token of a definition.
fn at_constant(
    alloc: Global,
    path: &str,
    text: &[u8],
    fault: ConstFault,
) -> Result<Option<String>, AllocError>
    requires { (fault ≡ ConstFault.NoMemory) ⊎ RefusesConstantsAt text.now fault }
    ensures tells { IfOk result (λ note. Tells path.now text.now (option_map string_bytes note)) }
{
    let Some(start) = constant_start(fault) else {
        return Err(AllocError);
    };
    let told = constant_told(alloc, first_token(after(text, start)), fault)?;
    at(alloc, path, text, start, &told)
}

/// The number of bytes before the refused token. Want of memory and of room have none.
fn constant_start(fault: ConstFault) -> Option<u64>
    ensures { result ≡ constant_start fault }
{
    match fault {
        ConstFault::Syntax { start, .. } => Some(start),
        ConstFault::TooDeep { start, .. } => Some(start),
        ConstFault::Twice { start, .. } => Some(start),
        ConstFault::UnknownName { start, .. } => Some(start),
        ConstFault::BadNumber { start, .. } => Some(start),
        ConstFault::TooLong | ConstFault::NoMemory => None,
    }
}

/// What is told of a token of a definition; `here` is the token.
fn constant_told(alloc: Global, here: &[u8], fault: ConstFault) -> Result<Told, AllocError> {
    match fault {
        ConstFault::Syntax { .. } => Told::new(alloc, what(alloc, here)?.as_str())?.with(
            alloc,
            "constants are defined so: `enum { SIZE = 64, LAST = SIZE - 1 };`",
        ),
        ConstFault::Twice { .. } => told_of(
            alloc,
            here,
            "is a constant already",
            "choose another name",
        ),
        ConstFault::UnknownName { .. } => told_of(
            alloc,
            here,
            "is no constant that is defined before this",
            "the value of a constant is made of numbers and of the constants before it",
        ),
        ConstFault::BadNumber { .. } => bad_number_told(alloc, here),
        _ => Told::new(alloc, "this stands too deep: a token weighs at most 64")?.with(
            alloc,
            "define a constant for a part of the expression",
        ),
    }
}

/// What is told of a number that is too large for a constant, or of a divisor that is 0.
fn bad_number_told(alloc: Global, here: &[u8]) -> Result<Told, AllocError> {
    match here.first() {
        Some(byte) if byte.is_ascii_digit() => told_of(
            alloc,
            here,
            "is over 9223372036854775807",
            "a constant is an `int64_t`",
        ),
        _ => told_of(
            alloc,
            here,
            "has 0 on its right side",
            "a constant has a value without a trap",
        ),
    }
}

/// What is told of a token, with a note.
fn told_of(alloc: Global, here: &[u8], what: &str, note: &str) -> Result<Told, AllocError> {
    let token = String::from_utf8_lossy(alloc, here)?;
    let token = token.as_str();
    let told = format!(in alloc; "`{token}` {what}")?;
    Told::new(alloc, told.as_str())?.with(alloc, note)
}

/// The message of a text that is refused at this byte.
#[tactic(auto, using(crate::proofs::Refusals::placed))]
fn at(
    alloc: Global,
    path: &str,
    text: &[u8],
    start: u64,
    told: &Told,
) -> Result<Option<String>, AllocError>
    requires { RefusedAt text.now start }
    ensures tells { IfOk result (λ note. Tells path.now text.now (option_map string_bytes note)) }
{
    let message = message_at(alloc, path, text, start, told)?;
    Ok(Some(message))
}

/// The message of a text that is refused at this token.
fn at_token(
    alloc: Global,
    path: &str,
    text: &[u8],
    list: &TokenList,
    place: u64,
    told: &Told,
) -> Result<Option<String>, AllocError>
    requires { RefusedAt text.now (start_at list.now place) }
    ensures tells { IfOk result (λ note. Tells path.now text.now (option_map string_bytes note)) }
{
    at(alloc, path, text, start_of(list, place), told)
}

/// The number of bytes before the token at a place; from the list's length on, the text's size.
#[tactic(auto, using(crate::proofs::Refusals::start))]
pub(crate) fn start_of(list: &TokenList, place: u64) -> u64
    ensures { result ≡ start_at list.now place }
{
    list.start(place.min(list.len()))
}

/// The line of the token at a place; from the list's length on, that of the text's end.
#[tactic(auto, using(crate::proofs::Refusals::min_within))]
pub(crate) fn line_of(list: &TokenList, place: u64) -> u64 {
    list.line(place.min(list.len()))
}

/// The tokens of a text as they are spelled.
pub(crate) fn spelled<'a>(
    alloc: Global,
    text: &'a [u8],
    list: &TokenList,
) -> Result<Vec<&'a [u8]>, AllocError> {
    let mut words = Vec::new(alloc);
    for place in 0..list.len() {
        words.push(first_token(after(text, start_of(list, place))))?;
    }
    Ok(words)
}

#[tactic(auto, using(crate::proofs::Refusals::of_tokens))]
fn of_tokens(
    alloc: Global,
    path: &str,
    text: &[u8],
    list: &TokenList,
) -> Result<Option<String>, AllocError>
    requires { LeavesTokens text.now list.now }
    ensures tells { IfOk result (λ note. Tells path.now text.now (option_map string_bytes note)) }
{
    let words = spelled(alloc, text, list)?;
    match parse(alloc, list) {
        Ok(ast) => of_tree(alloc, path, text, list, &words, ast),
        Err(ParseFault::Syntax(place)) => {
            let near = Spelled {
                words: &words,
                place,
            };
            let told = syntax(alloc, text, list, &near)?;
            at_token(alloc, path, text, list, place, &told)
        }
        Err(ParseFault::TooDeep(place)) => {
            let told = deep_told(alloc)?;
            at_token(alloc, path, text, list, place, &told)
        }
        Err(ParseFault::NoMemory) => Err(AllocError),
    }
}

fn deep_told(alloc: Global) -> Result<Told, AllocError> {
    Told::new(alloc, "this stands too deep: a token weighs at most 64")?.with(
        alloc,
        "write a local for a part of the expression, or a function for a part of the nesting",
    )
}

/// The message of a tree, if it breaks a rule.
fn of_tree(
    alloc: Global,
    path: &str,
    text: &[u8],
    list: &TokenList,
    words: &[&[u8]],
    ast: Ast,
) -> Result<Option<String>, AllocError>
    requires { ReadsAs text.now list.now ast }
    ensures tells { IfOk result (λ note. Tells path.now text.now (option_map string_bytes note)) }
{
    let fault = match check(alloc, ast) {
        Ok(_) => return Ok(None),
        Err(fault) => fault,
    };
    of_rule(alloc, path, text, list, words, fault)
}

/// The message of a broken rule. The tree went with the refusal, so it is made once more.
#[tactic(auto, using(crate::proofs::Refusals::refused_there))]
fn of_rule(
    alloc: Global,
    path: &str,
    text: &[u8],
    list: &TokenList,
    words: &[&[u8]],
    fault: TypeFault,
) -> Result<Option<String>, AllocError>
    requires { (fault ≡ TypeFault.NoMemory)
        ⊎ RefusedAt text.now (start_at list.now (rule_place fault)) }
    ensures tells { IfOk result (λ note. Tells path.now text.now (option_map string_bytes note)) }
{
    let Some(place) = rule_place(fault) else {
        return Err(AllocError);
    };
    let told = rule_told(alloc, list, Spelled { words, place }, fault)?;
    at_rule(alloc, path, text, start_of(list, place), &told)
}

/// The message of a text that breaks a rule at this byte, and those of the errors after it.
#[tactic(auto, using(crate::proofs::Refusals::placed_first))]
fn at_rule(
    alloc: Global,
    path: &str,
    text: &[u8],
    start: u64,
    told: &Told,
) -> Result<Option<String>, AllocError>
    requires { RefusedAt text.now start }
    ensures tells { IfOk result (λ note. Tells path.now text.now (option_map string_bytes note)) }
{
    let mut message = message_at(alloc, path, text, start, told)?;
    let others = other_notes(alloc, path, text)?;
    message.push_str(others.as_str())?;
    Ok(Some(message))
}

/// What is told of a broken rule, and where the program declares what is meant.
pub(crate) fn rule_told(
    alloc: Global,
    list: &TokenList,
    near: Spelled<'_>,
    fault: TypeFault,
) -> Result<Told, AllocError> {
    match parse(alloc, list) {
        Ok(ast) => {
            let told = typing(alloc, &ast, &near, fault)?;
            told.with_some(alloc, declared(alloc, list, &ast, &near, fault)?)
        }
        Err(_) => Err(AllocError),
    }
}

/// The place of the token at which a rule is broken. Want of memory has none.
pub(crate) fn rule_place(fault: TypeFault) -> Option<u64>
    ensures place { IfSome result (λ place. place ≡ rule_place fault) }
    ensures rule { IfSome result (λ place. fault ≢ TypeFault.NoMemory) }
{
    match fault {
        TypeFault::UnknownName { place, .. } => Some(place),
        TypeFault::Twice { place, .. } => Some(place),
        TypeFault::Mismatch { place, .. } => Some(place),
        TypeFault::NotAssignable { place, .. } => Some(place),
        TypeFault::Arity { place, .. } => Some(place),
        TypeFault::TooBig { place, .. } => Some(place),
        TypeFault::NoRoot { place, .. } => Some(place),
        TypeFault::BadTx { place, .. } => Some(place),
        TypeFault::NoMemory => None,
    }
}
