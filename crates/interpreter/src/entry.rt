//! A local.

use c_types::ValueType;

/// A local: its name, the type that it was declared with, and its word.
#[derive(Drop)]
pub struct Entry<'a> {
    pub name: &'a str,
    pub ty: ValueType,
    pub value: i64,
}
