//! The name of a transaction in C.

ghost use Rattle.std.specs.Prelude.{◌≡◌, IfOk};
ghost use Rattle.std.specs.List.{list_all};
ghost use Rattle.cnvm_emit.specs.Name.{is_underscore, extends, is_making, is_using, c_name};

use nvm_base::Text;
use std::alloc::{AllocError, Global};

fn are_underscores(bytes: &[u8]) -> bool
    ensures { result ≡ list_all is_underscore bytes.now }
{
    for byte in bytes {
        if *byte != b'_' {
            return false;
        }
    }
    true
}

/// Whether the name is this one, perhaps with `_` after it.
fn extends(own: &str, name: &[u8]) -> bool
    ensures { result ≡ extends own.now name.now }
{
    match name.strip_prefix(own.as_bytes()) {
        Some(rest) => are_underscores(rest),
        None => false,
    }
}

/// Whether the name is that of a function that makes a pool.
fn is_making(name: &[u8]) -> bool
    ensures { result ≡ is_making name.now }
{
    extends("pool_create", name) || extends("pool_open", name)
}

/// Whether the name is that of a function that uses a pool.
fn is_using(name: &[u8]) -> bool
    ensures { result ≡ is_using name.now }
{
    extends("pool_close", name)
        || extends("pool_done", name)
        || extends("pool_last", name)
        || extends("pool_events", name)
}

/// The name of a transaction's function after the prefix and a `_`.
pub(crate) fn c_name(alloc: Global, name: &str) -> Result<Text, AllocError>
    ensures { IfOk result (λ text. text ≡ c_name name.now) }
{
    let mut text = Text::new(alloc);
    text.push(name)?;
    if is_making(name.as_bytes()) || is_using(name.as_bytes()) {
        text.push("_")?;
    }
    Ok(text)
}
