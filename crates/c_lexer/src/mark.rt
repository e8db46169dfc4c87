//! The marks and their spellings.

ghost use Rattle.std.specs.Prelude.{◌≡◌, ◌<◌, ◌≤◌, ℕ, List, length, map, IfSome};
ghost use Rattle.std.specs.Borrow.{Bor};
ghost use Rattle.c_lexer.specs.declared.token.Mark.{Mark};
ghost use Rattle.c_lexer.specs.Marks.{first_fit, mark_at};

use crate::token::Mark;

/// Longer marks come first, so that the first one that fits is the longest.
const MARKS: [(&str, Mark); 45] = [
    ("<<=", Mark::ShiftLeftAssign),
    (">>=", Mark::ShiftRightAssign),
    ("->", Mark::Arrow),
    ("++", Mark::Increment),
    ("--", Mark::Decrement),
    ("+=", Mark::AddAssign),
    ("-=", Mark::SubAssign),
    ("*=", Mark::MulAssign),
    ("/=", Mark::DivAssign),
    ("%=", Mark::RemAssign),
    ("&=", Mark::AndAssign),
    ("^=", Mark::XorAssign),
    ("|=", Mark::OrAssign),
    ("<<", Mark::ShiftLeft),
    (">>", Mark::ShiftRight),
    ("<=", Mark::LessEqual),
    (">=", Mark::GreaterEqual),
    ("==", Mark::Equal),
    ("!=", Mark::NotEqual),
    ("&&", Mark::AndAnd),
    ("||", Mark::OrOr),
    ("+", Mark::Plus),
    ("-", Mark::Minus),
    ("*", Mark::Star),
    ("/", Mark::Slash),
    ("%", Mark::Percent),
    ("<", Mark::Less),
    (">", Mark::Greater),
    ("&", Mark::And),
    ("^", Mark::Xor),
    ("|", Mark::Or),
    ("!", Mark::Not),
    ("~", Mark::Tilde),
    ("=", Mark::Assign),
    ("?", Mark::Question),
    (":", Mark::Colon),
    (".", Mark::Dot),
    (",", Mark::Comma),
    (";", Mark::Semicolon),
    ("(", Mark::OpenRound),
    (")", Mark::CloseRound),
    ("{", Mark::OpenBrace),
    ("}", Mark::CloseBrace),
    ("[", Mark::OpenSquare),
    ("]", Mark::CloseSquare),
];

/// The mark of the first row of a table whose spelling these bytes begin with, and its length.
fn first_fit(left: &[u8], table: &[(&str, Mark)]) -> Option<(usize, Mark)>
    ensures inside { IfSome result (λ found. found.0 ≤ length left.now) }
    ensures fit { result ≡ first_fit left.now
        (map (λ (row : Bor (List ℕ) × Mark). (row.0.now, row.1)) table.now) }
{
    for (spelling, mark) in table {
        if left.starts_with(spelling.as_bytes()) {
            return Some((spelling.len(), *mark));
        }
    }
    None
}

/// The longest mark that these bytes begin with, and its length.
#[tactic(auto, unfolding(crate::specs::Marks::mark_at))]
pub(crate) fn longest_mark(left: &[u8]) -> Option<(usize, Mark)>
    ensures some { IfSome result (λ found. 0 < found.0) }
    ensures inside { IfSome result (λ found. found.0 ≤ length left.now) }
    ensures mark { result ≡ mark_at left.now }
{
    let table: [(&str, Mark); 45] = MARKS;
    first_fit(left, table.as_slice())
}
