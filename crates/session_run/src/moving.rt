//! Moves the pool of a file to another program.

ghost use Rattle.std.specs.Prelude.{◌≡◌, ◌≤◌, OnOk, IfErr, IsErrOf};
ghost use Rattle.pmem.specs.Played.{PlaysAll};
ghost use Rattle.file_pmem.specs.Mirror.{file_device};
ghost use Rattle.file_pmem.specs.declared.link.MirrorState.TheVariants.{Awake};
ghost use Rattle.cnvm_session.specs.Moving.{moving_events};
ghost use Rattle.session_run.specs.Moved.{IsUnmoved};

use crate::status::Status;
use cnvm_session::{Program, move_pool};
use file_pmem::{FilePmem, LineFile};
use pmem::{Lines, Refusal};

/// Moves the pool on the device to this program. A file that refuses something is given up.
pub fn move_held<N: Lines + Drop, F: LineFile + Drop>(
    program: &Program,
    dev: &mut FilePmem<N, F>,
) -> Result<(), Status>
    requires { 6 ≤ (file_device N.memory dev.old).lines }
    ensures moved { OnOk result (PlaysAll (file_device N.memory dev.old)
        (moving_events program.now.digest) (file_device N.memory dev.new)) }
    ensures kept { OnOk result (dev.new.link.state ≡ Awake) }
    ensures refused { IfErr result (λ status. IsUnmoved program.now status dev.new.link.state
        (file_device N.memory dev.old) (file_device N.memory dev.new)) }
    ensures lines { (file_device N.memory dev.new).lines ≡ (file_device N.memory dev.old).lines }
{
    match move_pool(&program.digest, dev) {
        Ok(()) if dev.keeps() => Ok(()),
        Ok(()) => Err(Status::DeviceFault),
        Err(Refusal::NoMemory) => Err(Status::NoMemory),
        Err(Refusal::Off | Refusal::Failed) => Err(Status::DeviceFault),
    }
}
