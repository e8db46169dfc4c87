//! A device in memory without its lines: the switch, the numbers of events until the power goes or
//! a fault comes, and the count of faults.

ghost use Rattle.std.specs.Prelude.{◌≡◌, true, false, Some, None};
ghost use Rattle.pmem.specs.Device.{less_one};
ghost use Rattle.pmem.specs.Switch.{fresh_switch, Gate, Fails, spent_switch};

use crate::answer::Event;

#[derive(Clone, Copy, Drop)]
pub struct Switch {
    pub on: bool,
    pub left: Option<u64>,
    pub armed: Option<u64>,
    pub faults: u64,
}

/// One less, if there is a number.
fn less_of(number: Option<u64>) -> Option<u64>
    ensures { result ≡ less_one number }
{
    match number {
        Some(k) => Some(k.saturating_sub(1)),
        None => None,
    }
}

impl Switch {
    /// A switch that is on, with nothing armed and this count of faults.
    pub fn fresh(faults: u64) -> Self
        ensures { result ≡ fresh_switch faults }
    {
        Switch {
            on: true,
            left: None,
            armed: None,
            faults,
        }
    }

    /// Answers whether the next event goes on, and if not, changes the switch accordingly. A fault
    /// comes if one is armed for now, or if it is due for another cause.
    pub fn gate(&mut self, due: bool) -> Event
        ensures { Gate due result self.old self.new }
    {
        if !self.on || self.left == Some(0) {
            self.on = false;
            self.left = None;
            return Event::Off;
        }
        if due || self.armed == Some(0) {
            self.fail();
            return Event::Failed;
        }
        Event::Done
    }

    /// Counts a fault.
    fn fail(&mut self)
        ensures { Fails self.old self.new }
    {
        self.faults = self.faults.saturating_add(1);
        if self.armed == Some(0) {
            self.armed = None;
        }
    }

    /// Counts an event that is done.
    pub fn spend(&mut self)
        ensures { self.new ≡ spent_switch self.old }
    {
        self.left = less_of(self.left);
        self.armed = less_of(self.armed);
    }
}
