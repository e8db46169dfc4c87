//! The laws of images that speak of words alone.

ghost use Rattle.pool_layout.specs.Restored.{OldestDecides, OthersStay};
ghost use Rattle.pool_layout.specs.Opens.{KeptOpens};
ghost use Rattle.pool_layout.specs.Opened.{OpenedRests};
ghost use Rattle.pool_layout.specs.Moved.{MovedKeeps, MovedUnsealed};

/// The oldest valid record of a heap word decides its restored value; a heap word without a record
/// stays.
pub fn restored_law()
    ensures oldest { OldestDecides }
    ensures others { OthersStay }
{}

/// An image that passes the checks of reading holds what a recovery needs, and if there is nothing
/// to recover, it is at rest.
pub fn opens_law()
    ensures kept { KeptOpens }
    ensures rests { OpenedRests }
{}

/// A pool of the first version, moved to the second, keeps its heap, last, done and mark, isn't
/// sealed, and has an empty log.
pub fn moved_law()
    ensures keeps { MovedKeeps }
    ensures unsealed { MovedUnsealed }
{}
