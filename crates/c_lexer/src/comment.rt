//! Comments and skipped lines.

ghost use Rattle.std.specs.Prelude.{◌≡◌, ◌<◌, ◌≤◌, length, IfSome};
ghost use Rattle.c_lexer.specs.Comments.{comment_len, begins_include};

use crate::byte::indent_len;

/// The length of the `/*` comment that these bytes begin with; `None` if it is never closed.
#[tactic(auto, using(crate::proofs::Comments::after_step))]
pub(crate) fn comment_len(left: &[u8]) -> Option<usize>
    requires { 2 ≤ length left.now }
    ensures width { result ≡ comment_len left.now }
    ensures inside { IfSome result (λ width. (0 < width) × (width ≤ length left.now)) }
{
    for at in 2..left.len() {
        if left[at..].starts_with(b"*/") {
            return Some(at + 2);
        }
    }
    None
}

/// Whether these bytes begin with `#`, then spaces and tabs, then `include`.
#[tactic(auto, unfolding(crate::specs::Comments::begins_include))]
pub(crate) fn begins_include(left: &[u8]) -> bool
    ensures { result ≡ begins_include left.now }
{
    if !left.starts_with(b"#") {
        return false;
    }
    let afterwards = &left[1..];
    afterwards[indent_len(afterwards)..].starts_with(b"include")
}
