//! How a run ends.

ghost use Rattle.std.specs.Prelude.{◌≡◌};
ghost use Rattle.session_run.specs.StatusNumber.{status_number};
ghost use Rattle.session_run.specs.Strict.{answered_status};

/// How a run ended. Its number is the program's exit status.
#[derive(Clone, Copy, PartialEq, Eq)]
pub enum Status {
    /// Every line of the script was answered, and the image was saved if asked; of a listing or a
    /// storm everything was written.
    Done,
    NoMemory,
    /// The words ask for nothing that exists.
    Usage,
    /// The program's text was refused.
    Program,
    /// The script was refused.
    Script,
    /// A source failed.
    ReadFault,
    /// A sink failed.
    WriteFault,
    /// The device failed while the pool's lines were written at the start, or the pool's file was
    /// given up.
    DeviceFault,
    /// The image was refused.
    Image,
    /// Another process holds the pool's file.
    PoolBusy,
    /// As `Done`, but an answer isn't as it should be: of a run a trap or a refusal, of a storm a
    /// `check` that isn't 1.
    Unmet,
}

impl Status {
    /// The status of commands that are all answered, by whether one of the answers is unmet.
    pub(crate) fn answered(unmet: bool) -> Status
        ensures { result ≡ answered_status unmet }
    {
        if unmet { Status::Unmet } else { Status::Done }
    }

    /// The exit status.
    pub fn number(self) -> u8
        ensures { result ≡ status_number self }
    {
        match self {
            Status::Done => 0,
            Status::NoMemory => 1,
            Status::Usage => 2,
            Status::Program => 3,
            Status::Script => 4,
            Status::ReadFault => 5,
            Status::WriteFault => 6,
            Status::DeviceFault => 7,
            Status::Image => 8,
            Status::PoolBusy => 9,
            Status::Unmet => 10,
        }
    }
}
