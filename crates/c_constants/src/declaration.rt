//! Declarations of several names, made one for each.

ghost use Rattle.std.specs.Prelude.{◌≡◌, ◌⊎◌, ◌<◌, ◌^◌, ◌-◌, slice_get};
ghost use Rattle.c_constants.specs.Declarations as declarations;
ghost use Rattle.c_constants.specs.StandIns as stand_ins;
ghost use Rattle.c_constants.specs.inside.Declarations as inside;

use crate::fault::ConstFault;
use crate::seen::{Seen, seen_of};
use crate::stand_in::{copied, put_one};
use c_lexer::{Mark, Placed, Token, TokenList};
use std::alloc::Global;

/// The places of the tokens of a declaration's type, without a star.
#[derive(Clone, Copy)]
enum Base {
    /// The word `int64_t` or `uint64_t`.
    Ints(u64),
    /// The word `struct`, and the name.
    Struct(u64, u64),
}

/// What a token stands in.
#[derive(Clone, Copy)]
enum Stand {
    /// No declaration.
    Elsewhere,
    /// A place where a declaration may begin.
    Fresh,
    /// The place after the word `struct` with which one begins; that word's place.
    Struct(u64),
    /// One with this type, inside so many brackets.
    Declaration(Base, u64),
}

/// What comes after the token at a place, where a declaration may begin with it.
fn begun(place: u64, seen: Seen) -> Stand
    ensures { result ≡ declarations.begun place seen }
{
    match seen {
        Seen::Ints => Stand::Declaration(Base::Ints(place), 0),
        Seen::Struct => Stand::Struct(place),
        _ => Stand::Elsewhere,
    }
}

/// The same after the word `struct`.
fn named(word: u64, place: u64, seen: Seen) -> Stand
    ensures { result ≡ declarations.named word place seen }
{
    match seen {
        Seen::Name => Stand::Declaration(Base::Struct(word, place), 0),
        _ => Stand::Elsewhere,
    }
}

/// How many brackets are open after this token.
fn depth_after(depth: u64, seen: Seen) -> u64
    requires { depth < 2 ^ 64 - 1 }
    ensures { result ≡ declarations.depth_after depth seen }
{
    match seen {
        Seen::Open => depth + 1,
        Seen::Close => depth.saturating_sub(1),
        _ => depth,
    }
}

/// What comes after a token that isn't `;`, `{` or `}`.
fn stand_within(stand: Stand, place: u64, seen: Seen) -> Stand
    requires { declarations.depth stand < 2 ^ 64 - 1 }
    ensures { result ≡ declarations.stand_within stand place seen }
{
    match stand {
        Stand::Elsewhere => Stand::Elsewhere,
        Stand::Fresh => begun(place, seen),
        Stand::Struct(word) => named(word, place, seen),
        Stand::Declaration(base, depth) => Stand::Declaration(base, depth_after(depth, seen)),
    }
}

/// What comes after the token at a place.
fn stand_after(stand: Stand, place: u64, seen: Seen) -> Stand
    requires { declarations.depth stand < 2 ^ 64 - 1 }
    ensures { result ≡ declarations.stand_after stand place seen }
{
    match seen {
        Seen::Border => Stand::Fresh,
        _ => stand_within(stand, place, seen),
    }
}

/// Puts a token like this one.
fn put_copy(alloc: Global, out: TokenList, placed: &Placed) -> Result<TokenList, ConstFault>
    ensures { (result ≡ Err ConstFault.NoMemory) ⊎ (result ≡ stand_ins.put_one out placed.now) }
{
    let token = copied(alloc, &placed.token)?;
    put_one(out, token, placed.line, placed.start)
}

/// Puts a token like the one at a place.
fn put_again(
    alloc: Global,
    tokens: &TokenList,
    out: TokenList,
    place: u64,
) -> Result<TokenList, ConstFault>
    ensures { (result ≡ Err ConstFault.NoMemory) ⊎ (result ≡ stand_ins.put_all out
        (declarations.these (slice_get tokens.now.tokens place))) }
{
    match tokens.get(place) {
        Some(placed) => put_copy(alloc, out, placed),
        None => Ok(out),
    }
}

/// Puts the tokens of a type.
fn put_base(
    alloc: Global,
    tokens: &TokenList,
    out: TokenList,
    base: Base,
) -> Result<TokenList, ConstFault>
    ensures { (result ≡ Err ConstFault.NoMemory)
        ⊎ (result ≡ stand_ins.put_all out (declarations.base_tokens tokens.now base)) }
{
    match base {
        Base::Ints(word) => put_again(alloc, tokens, out, word),
        Base::Struct(word, name) => {
            let out = put_again(alloc, tokens, out, word)?;
            put_again(alloc, tokens, out, name)
        }
    }
}

/// Puts what stands for a comma: a `;` in its place, and a type.
fn put_next(
    alloc: Global,
    tokens: &TokenList,
    out: TokenList,
    base: Base,
    comma: &Placed,
) -> Result<TokenList, ConstFault>
    ensures { (result ≡ Err ConstFault.NoMemory)
        ⊎ (result ≡ stand_ins.put_all out (declarations.next_begun tokens.now base comma.now)) }
{
    let out = put_one(out, Token::Mark(Mark::Semicolon), comma.line, comma.start)?;
    put_base(alloc, tokens, out, base)
}

/// The type of a declaration in which a comma ends a name.
fn base_ended(stand: Stand, seen: Seen) -> Option<Base>
    ensures { result ≡ declarations.base_ended stand seen }
{
    match (stand, seen) {
        (Stand::Declaration(base, 0), Seen::Comma) => Some(base),
        _ => None,
    }
}

/// Puts a token, or those that stand for it.
fn put_declared(
    alloc: Global,
    tokens: &TokenList,
    out: TokenList,
    stand: Stand,
    placed: &Placed,
) -> Result<TokenList, ConstFault>
    ensures { (result ≡ Err ConstFault.NoMemory)
        ⊎ (result ≡ stand_ins.put_all out (declarations.left_of tokens.now stand placed.now)) }
{
    match base_ended(stand, seen_of(&placed.token)) {
        Some(base) => put_next(alloc, tokens, out, base, placed),
        None => put_copy(alloc, out, placed),
    }
}

/// Puts what the token at a place leaves.
fn put_at(
    alloc: Global,
    tokens: &TokenList,
    out: TokenList,
    stand: Stand,
    place: u64,
) -> Result<TokenList, ConstFault>
    ensures { (result ≡ Err ConstFault.NoMemory)
        ⊎ (result ≡ stand_ins.put_all out (inside.left_at tokens.now stand place)) }
{
    match tokens.get(place) {
        Some(placed) => put_declared(alloc, tokens, out, stand, placed),
        None => Ok(out),
    }
}

/// What comes after the token at a place of the list.
fn stand_past(tokens: &TokenList, stand: Stand, place: u64) -> Stand
    requires { declarations.depth stand < 2 ^ 64 - 1 }
    ensures { result ≡ inside.stand_past tokens.now stand place }
{
    match tokens.get(place) {
        Some(placed) => stand_after(stand, place, seen_of(&placed.token)),
        None => stand,
    }
}

/// The tokens with one name in each declaration.
#[tactic(auto, using(crate::proofs::OneEach::leading))]
pub(crate) fn one_name_each(alloc: Global, tokens: &TokenList) -> Result<TokenList, ConstFault>
    ensures { (result ≡ Err ConstFault.NoMemory)
        ⊎ (result ≡ declarations.one_name_each tokens.now) }
{
    let end = tokens.len();
    let mut out = TokenList::new(alloc, tokens.line(end), tokens.start(end));
    let mut stand = Stand::Elsewhere;
    for place in 0..end {
        out = put_at(alloc, tokens, out, stand, place)?;
        stand = stand_past(tokens, stand, place);
    }
    Ok(out)
}
