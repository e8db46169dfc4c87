//! The classes of bytes, and the lengths of runs of them.

ghost use Rattle.std.specs.Prelude.{◌≡◌, ◌<◌, ◌≤◌, length, slice_index, true};
ghost use Rattle.std.specs.List.{prefix_len};
ghost use Rattle.c_lexer.specs.Bytes.{is_indent, is_blank, begins_name, is_word_byte, run_len};
ghost use Rattle.c_lexer.specs.Bytes.{line_len};

/// A space or a tab.
pub(crate) fn is_indent(byte: u8) -> bool
    ensures { result ≡ is_indent byte }
{
    byte == b' ' || byte == b'\t'
}

/// Space, tab, CR or LF.
pub(crate) fn is_blank(byte: u8) -> bool
    ensures { result ≡ is_blank byte }
{
    is_indent(byte) || byte == b'\r' || byte == b'\n'
}

pub(crate) fn begins_name(byte: u8) -> bool
    ensures { result ≡ begins_name byte }
{
    byte.is_ascii_alphabetic() || byte == b'_'
}

/// A letter, a digit or `_`.
fn is_word_byte(byte: u8) -> bool
    ensures { result ≡ is_word_byte byte }
{
    byte.is_ascii_alphanumeric() || byte == b'_'
}

/// The length of the longest run of letters, digits and `_` at the front.
#[tactic(auto, using(crate::proofs::Runs::run_some))]
pub(crate) fn run_len(left: &[u8]) -> usize
    ensures width { result ≡ run_len left.now }
    ensures inside { result ≤ length left.now }
    ensures some { is_word_byte (slice_index left.now 0) ≡ true → 0 < result }
{
    left.iter().take_while(|byte| is_word_byte(**byte)).count()
}

/// The number of bytes before the line's end.
pub(crate) fn line_len(left: &[u8]) -> usize
    ensures width { result ≡ line_len left.now }
    ensures inside { result ≤ length left.now }
{
    left.iter().take_while(|byte| **byte != b'\n').count()
}

/// The number of spaces and tabs at the front.
pub(crate) fn indent_len(left: &[u8]) -> usize
    ensures width { result ≡ prefix_len is_indent left.now }
    ensures inside { result ≤ length left.now }
{
    left.iter().take_while(|byte| is_indent(**byte)).count()
}
