//! A machine that is kept from call to call.

ghost use Rattle.std.specs.Prelude.{◌≡◌, ◌≤◌, ◌-◌, true, length, IfSome, IsSome, option_map};
ghost use Rattle.pm_machine.specs.Machine.{start};
ghost use Rattle.pm_machine.specs.Stops.{stop_of};

use crate::image::Image;
use crate::machine::Machine;
use crate::stop::Stop;
use std::alloc::Global;

/// A place for a machine between two calls. It is empty until the first call, and its machine may
/// stand anywhere in a run.
#[derive(Drop)]
pub struct Spare {
    kept: Option<Machine>,
}

impl Spare {
    /// An empty place.
    pub fn new() -> Spare {
        Spare { kept: None }
    }

    /// The machine that is kept, at the first place of a transaction, or a new one if none is kept
    /// or its frames have another size. `None` only if there was no memory for a new one.
    pub fn start(
        &mut self,
        alloc: Global,
        image: &Image,
        tx: u64,
        args: &[i64],
    ) -> Option<&mut Machine>
        requires first { 1 ≤ tx }
        requires last { tx ≤ length image.now.parts.txs }
        ensures { IfSome result (λ m. m.now.processor ≡ start image.now tx args.now) }
    {
        if !self.restart(image, tx, args) {
            match Machine::new(alloc, image, tx, args) {
                Ok(machine) => self.kept = Some(machine),
                Err(_) => return None,
            }
        }
        self.kept.as_mut()
    }

    /// Where the machine that is kept stands: after a run, where that ended.
    pub fn stop(&self) -> Option<Stop>
        ensures { result ≡ option_map stop_of self.now.kept }
    {
        match &self.kept {
            Some(machine) => Some(machine.stop()),
            None => None,
        }
    }

    /// Takes the machine that is kept to the first place of a transaction, if its frames have the
    /// image's size.
    fn restart(&mut self, image: &Image, tx: u64, args: &[i64]) -> bool
        requires first { 1 ≤ tx }
        requires last { tx ≤ length image.now.parts.txs }
        ensures { result ≡ true → IfSome self.new.kept
            (λ m. m.processor ≡ start image.now tx args.now) }
    {
        match &mut self.kept {
            Some(machine) => machine.restart(image, tx, args),
            None => false,
        }
    }
}
