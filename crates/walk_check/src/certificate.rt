//! The parts of a certificate.

use ir::Site;
use nvm_base::List;

/// A field of the root by its number, or a field of a struct by the struct's number, counted from
/// 1, and the field's.
#[derive(Clone, Copy, PartialEq, Eq)]
pub enum Class {
    Root(u32),
    Field(u32, u32),
}

/// A fact about one walk: nothing but its being here; a struct's field not surely written through a
/// register of the open function (the register, the struct's number, the field); a root field not
/// surely written; a class read before; a free passed.
#[derive(Clone, Copy, PartialEq, Eq)]
pub enum Fact {
    Start,
    Unwritten(u32, u32, u32),
    UnwrittenRoot(u32),
    Read(Class),
    Freed,
}

/// A fact at a place. If there is a call at the place and it is passed, `through` is the number of
/// the piece that passes it.
#[derive(Clone, Copy, PartialEq, Eq)]
pub struct Step {
    pub place: u32,
    pub fact: Fact,
    pub through: Option<u64>,
}

/// The steps of a walk.
pub type StepList = List<Step>;

/// The path of one walk through one open function, from its entry to the last step's place.
#[derive(Drop)]
pub struct Piece {
    pub function: u32,
    pub steps: StepList,
}

/// Pieces of walks.
pub type Pieces = List<Piece>;

/// A walk: the first piece begins at a transaction's entry, and each other one at the call where
/// the one before it ends.
#[derive(Drop)]
pub struct Walk {
    pub pieces: Pieces,
}

/// Why a site is logged: it is a header; some walk reaches the fill after a free; or one walk
/// reaches the store with its target unwritten, and one with its class read.
#[derive(Drop)]
pub enum Reason {
    Always,
    PastFree(Walk),
    Clobber(Walk, Walk),
}

/// Sites with their reasons.
pub type Reasons = List<(Site, Reason)>;

/// The pieces that pass calls, and the logged sites with their reasons.
#[derive(Drop)]
pub struct Certificate {
    pub passed: Pieces,
    pub reasons: Reasons,
}
