//! The piece at a place of the text.

ghost use Rattle.std.specs.Prelude.{◌≡◌, ◌<◌, ◌≤◌, length, slice_index, true, IfOk};
ghost use Rattle.c_lexer.specs.Bytes.{is_word_byte, run_len};
ghost use Rattle.c_lexer.specs.Comments.{comment_len};
ghost use Rattle.c_lexer.specs.Marks.{mark_at};
ghost use Rattle.c_lexer.specs.Next.{next_piece, number_piece, comment_piece, mark_piece, run_of};
ghost use Rattle.c_lexer.specs.inside.Next.{PieceFits};
ghost use Rattle.c_lexer.specs.Numbers.{number_of};
ghost use Rattle.c_lexer.specs.Words.{word_token};

use crate::byte::{begins_name, is_blank, line_len, run_len};
use crate::comment::{begins_include, comment_len};
use crate::fault::LexFault;
use crate::mark::longest_mark;
use crate::number::number_of;
use crate::spot::Spot;
use crate::token::Token;
use crate::word::word_or_name;
use std::alloc::{AllocError, Global};

/// A piece of the text, with its length in bytes, or the refusal at its place.
#[derive(Drop)]
pub(crate) enum Piece {
    /// A blank, a comment or a skipped line.
    Skips(usize),
    Spells(usize, Token),
    Refuses(LexFault),
}

/// The number that these bytes begin with.
fn number_piece(left: &[u8], spot: Spot) -> Piece
    requires { is_word_byte (slice_index left.now 0) ≡ true }
    ensures piece { result ≡ number_piece spot (run_len left.now) (number_of (run_of left.now)) }
    ensures inside { PieceFits result (length left.now) }
{
    let (line, start) = (spot.line, spot.at);
    let width = run_len(left);
    match number_of(&left[..width]) {
        Some(value) => Piece::Spells(width, Token::Number(value)),
        None => Piece::Refuses(LexFault::BadNumber { line, start }),
    }
}

/// The comment that these bytes begin with.
fn comment_piece(left: &[u8], spot: Spot) -> Piece
    requires { 2 ≤ length left.now }
    ensures piece { result ≡ comment_piece spot (comment_len left.now) }
    ensures inside { PieceFits result (length left.now) }
{
    let (line, start) = (spot.line, spot.at);
    match comment_len(left) {
        Some(width) => Piece::Skips(width),
        None => Piece::Refuses(LexFault::OpenComment { line, start }),
    }
}

/// The longest mark that these bytes begin with.
fn mark_piece(left: &[u8], spot: Spot) -> Piece
    ensures piece { result ≡ mark_piece spot (mark_at left.now) }
    ensures inside { PieceFits result (length left.now) }
{
    let (line, start) = (spot.line, spot.at);
    match longest_mark(left) {
        Some((width, mark)) => Piece::Spells(width, Token::Mark(mark)),
        None => Piece::Refuses(LexFault::BadByte { line, start }),
    }
}

/// The name or the reserved word that these bytes begin with.
fn word_piece(alloc: Global, left: &[u8]) -> Result<Piece, AllocError>
    requires { is_word_byte (slice_index left.now 0) ≡ true }
    ensures piece { IfOk result (λ piece.
        piece ≡ Piece.Spells (run_len left.now) (word_token (run_of left.now))) }
    ensures inside { IfOk result (λ piece. PieceFits piece (length left.now)) }
{
    let width = run_len(left);
    let token = word_or_name(alloc, &left[..width])?;
    Ok(Piece::Spells(width, token))
}

/// The piece that these bytes begin with.
#[tactic(auto, using(crate::proofs::Runs::next_steps), unfolding(crate::specs::Next::next_piece))]
pub(crate) fn next(alloc: Global, left: &[u8], spot: Spot) -> Result<Piece, AllocError>
    requires { 0 < length left.now }
    ensures piece { IfOk result (λ piece. piece ≡ next_piece spot left.now) }
    ensures inside { IfOk result (λ piece. PieceFits piece (length left.now)) }
{
    let first = left[0];
    if is_blank(first) {
        Ok(Piece::Skips(1))
    } else if left.starts_with(b"//") || (spot.fresh && begins_include(left)) {
        Ok(Piece::Skips(line_len(left)))
    } else if left.starts_with(b"/*") {
        Ok(comment_piece(left, spot))
    } else if first.is_ascii_digit() {
        Ok(number_piece(left, spot))
    } else if begins_name(first) {
        word_piece(alloc, left)
    } else {
        Ok(mark_piece(left, spot))
    }
}
