// The calls of a device in memory: each has a number, and those on a list fail.
ghost use Rattle.std.specs.Prelude.{◌≡◌, ◌≤◌, ◌↔◌, IsTrue, IsErr, OnOk, OnErr, Contains};
ghost use Rattle.hm_types.specs.Calls.{Counts, IsNextListed, no_calls, called, faulted};
ghost use Rattle.hm_types.specs.Faults.{HasCause};

use crate::fault::Failed;
use std::marker::Model;

/// The calls of a device in memory so far, by their numbers from 1 on, and which of them fail.
#[derive(Drop)]
pub struct Calls {
    fails: Vec<u64>,
    made: u64,
    faults: u64,
}

impl Model for Calls {
    ghost Value = { Counts };

    ghost view = { λ c. record { fails = c.fails.items; made = c.made; faults = c.faults } };
}

impl Calls {
    /// No calls yet. Of those to come the numbers on the list fail, from 1 on.
    pub fn new(fails: Vec<u64>) -> Calls
        ensures { result ≡ no_calls fails.items }
    {
        Calls {
            fails,
            made: 0,
            faults: 0,
        }
    }

    /// Counts one more call, which fails where its number is on the list.
    pub fn begin(&mut self) -> Result<(), Failed>
        ensures fails { IsErr result ↔ IsNextListed self.old }
        ensures ok { OnOk result (self.new ≡ called self.old) }
        ensures err { OnErr result (self.new ≡ faulted (called self.old)) }
        ensures cause { HasCause self.old.faults self.new.faults result }
    {
        self.made = self.made.saturating_add(1);
        if is_listed(&self.fails, self.made) {
            return Err(self.fail());
        }
        Ok(())
    }

    /// Counts a fault of the call that was begun last.
    pub fn fail(&mut self) -> Failed
        ensures counted { self.new ≡ faulted self.old }
        ensures never_falls { self.old.faults ≤ self.new.faults }
    {
        self.faults = self.faults.saturating_add(1);
        Failed
    }

    /// How many faults there were.
    pub fn faults(&self) -> u64
        ensures { result ≡ self.now.faults }
    {
        self.faults
    }
}

fn is_listed(numbers: &[u64], number: u64) -> bool
    ensures { IsTrue result ↔ Contains numbers.now number }
{
    numbers.contains(&number)
}
