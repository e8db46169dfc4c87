//! The text as tokens.

ghost use Rattle.std.specs.Prelude.{◌≡◌, ◌⊎◌, ℕ, ◌-◌, ◌<◌, ◌≤◌, [], ◌∷◌, ◌++◌, length, IfOk, IfErr};
ghost use Rattle.std.specs.Prelude.{OnOk};
ghost use Rattle.c_lexer.specs.Cuts.{Cut, Cuts, IsWithinLimits, begin_piece, cut, limited, answer};
ghost use Rattle.c_lexer.specs.Cuts.{placed_at};
ghost use Rattle.c_lexer.specs.inside.Cuts.{after_tokens};
ghost use Rattle.c_lexer.specs.TokenList.{Tokens};
ghost use Rattle.c_lexer.specs.inside.Next.{PieceFits};

use crate::fault::LexFault;
use crate::list::TokenList;
use crate::piece::{Piece, next};
use crate::spot::Spot;
use crate::token::{Placed, Token};
use std::alloc::Global;

/// The most bytes that a text may have.
pub const MOST_BYTES: usize = 262_144;

/// The most tokens that a text may have.
pub const MOST_TOKENS: usize = 16_384;

/// Appends one more token, if there is room.
fn keep(all: &mut Vec<Placed>, token: Token, spot: Spot) -> Result<(), LexFault>
    ensures ok { OnOk result (all.new.items ≡ all.old.items ++ placed_at spot token ∷ []) }
    ensures room { OnOk result (length all.old.items < MOST_TOKENS) }
    ensures err { IfErr result (λ fault. (fault ≡ LexFault.NoMemory)
        ⊎ ((fault ≡ LexFault.TooLong) × (MOST_TOKENS ≤ length all.old.items))) }
{
    if all.len() >= MOST_TOKENS {
        return Err(LexFault::TooLong);
    }
    all.push(Placed {
        token,
        line: spot.line,
        start: spot.at,
    })?;
    Ok(())
}

/// Keeps a piece's token, and returns the piece's length. This doesn't change the cut as a whole,
/// whatever follows.
#[tactic(auto, using(crate::proofs::Limits::take_steps))]
fn take(all: &mut Vec<Placed>, piece: Piece, spot: Spot) -> Result<usize, LexFault>
    requires { length all.old.items ≤ 16384 }
    ensures leads { IfOk result (λ width. (go : ℕ → Cut) →
        after_tokens all.old.items (begin_piece piece spot go) ≡ after_tokens all.new.items
        (go (width - 1))) }
    ensures room { OnOk result (length all.new.items ≤ 16384) }
    ensures inside { IfOk result (λ width. (most : ℕ) → PieceFits piece most
        → (0 < width) × (width ≤ most)) }
    ensures err { IfErr result (λ fault. (fault ≡ LexFault.NoMemory)
        ⊎ ((go : ℕ → Cut) → limited (after_tokens all.old.items (begin_piece piece spot go))
        ≡ Err fault)) }
{
    match piece {
        Piece::Skips(width) => Ok(width),
        Piece::Spells(width, token) => {
            keep(all, token, spot)?;
            Ok(width)
        }
        Piece::Refuses(fault) => Err(fault),
    }
}

/// The tokens of a text that isn't longer than the limit.
fn scan(alloc: Global, text: &[u8]) -> Result<TokenList, LexFault>
    requires { length text.now ≤ MOST_BYTES }
    ensures exact { (result ≡ Err LexFault.NoMemory) ⊎ (result ≡ limited (cut text.now)) }
{
    let mut all = Vec::new(alloc);
    let mut spot = Spot {
        line: 1,
        at: 0,
        fresh: true,
    };
    let mut left = text;
    while !left.is_empty() {
        let piece = next(alloc, left, spot)?;
        let width = take(&mut all, piece, spot)?;
        let (passed, afterwards) = left.split_at(width);
        spot.pass(passed);
        left = afterwards;
    }
    Ok(TokenList::of(all, spot.line, spot.at))
}

/// The tokens that a text spells, with their places, or the first refusal in the order of its
/// bytes. Want of memory may be answered for any text.
pub fn tokens(alloc: Global, text: &[u8]) -> Result<TokenList, LexFault>
    ensures exact { (result ≡ Err LexFault.NoMemory) ⊎ (result ≡ answer text.now) }
    ensures cuts { IfOk result (λ list. Cuts text.now list × IsWithinLimits text.now list) }
    ensures ok { (list : Tokens) → Cuts text.now list → IsWithinLimits text.now list →
        (result ≡ Err LexFault.NoMemory) ⊎ (result ≡ Ok list) }
{
    if text.len() > MOST_BYTES {
        return Err(LexFault::TooLong);
    }
    scan(alloc, text)
}
