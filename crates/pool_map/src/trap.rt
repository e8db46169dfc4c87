//! The ways in which a transaction may end without a value.

ghost use Rattle.std.specs.Prelude.{◌≡◌, Option, None, Some};
ghost use Rattle.pool_map.specs.Trap.{trap_number, trap_name, trap_of};

/// Why a transaction trapped. `LogFull` comes from the runtime, and the others from the source.
#[derive(Clone, Copy, Debug, PartialEq, Eq)]
pub enum TrapKind {
    /// A pointer that is 0 was followed or freed.
    Null,
    /// A pointer to a slot that has no object of its struct.
    Stale,
    /// An index that isn't within its array.
    Index,
    /// A division by 0.
    Divide,
    /// A transaction needs more ticks than it has.
    Steps,
    /// `abort()` was reached.
    Abort,
    /// The log has no room for another record.
    LogFull,
    /// Too many functions are open.
    Depth,
}

impl TrapKind {
    /// The trap's number, from 1 to 8.
    pub fn number(self) -> u32
        ensures { result ≡ trap_number self }
    {
        match self {
            TrapKind::Null => 1,
            TrapKind::Stale => 2,
            TrapKind::Index => 3,
            TrapKind::Divide => 4,
            TrapKind::Steps => 5,
            TrapKind::Abort => 6,
            TrapKind::LogFull => 7,
            TrapKind::Depth => 8,
        }
    }

    /// The trap that has this number, if there is one.
    pub fn of_number(number: u32) -> Option<TrapKind>
        ensures { result ≡ trap_of number }
    {
        match number {
            1 => Some(TrapKind::Null),
            2 => Some(TrapKind::Stale),
            3 => Some(TrapKind::Index),
            4 => Some(TrapKind::Divide),
            5 => Some(TrapKind::Steps),
            6 => Some(TrapKind::Abort),
            7 => Some(TrapKind::LogFull),
            8 => Some(TrapKind::Depth),
            _ => None,
        }
    }

    /// The trap's name, as answers print it.
    pub fn name(self) -> &'static str
        ensures { result.now ≡ trap_name self }
    {
        match self {
            TrapKind::Null => "null",
            TrapKind::Stale => "stale",
            TrapKind::Index => "index",
            TrapKind::Divide => "divide",
            TrapKind::Steps => "steps",
            TrapKind::Abort => "abort",
            TrapKind::LogFull => "logfull",
            TrapKind::Depth => "depth",
        }
    }
}
