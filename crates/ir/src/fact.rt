//! The facts of the static analysis: what may hold at a place of the code, over all walks that
//! reach it.

/// One fact: some walk reaches this place; a field isn't surely written through a register; a root
/// field isn't surely written; a class was read before; a `pm_free` was passed.
#[derive(Clone, Copy, PartialEq, Eq)]
pub enum Fact {
    Here,
    Unwritten {
        register: u32,
        kind: u32,
        field: u32,
    },
    RootUnwritten {
        field: u32,
    },
    ReadRoot {
        field: u32,
    },
    ReadField {
        kind: u32,
        field: u32,
    },
    Freed,
}

/// The facts before an instruction, any of which gives the fact after it.
#[derive(Clone, Copy)]
pub enum Origins {
    Nowhere,
    One(Fact),
    Two(Fact, Fact),
}

/// The origin of a fact after a call: the callee's return, or the place of the call.
#[derive(Clone, Copy)]
pub enum Back {
    FromReturn(Fact),
    Stays,
}
