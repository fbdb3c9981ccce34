//! Calls that fail by their number.

ghost use Rattle.std.specs.Prelude.{◌≡◌, ◌≤◌};

use crate::Failed;
use gq_base::List;
use std::marker::Model;

/// Counts calls from 0, and fails those with the given numbers.
#[derive(Drop)]
pub(crate) struct Failing {
    numbers: List<u64>,
    calls: u64,
    faults: u64,
}

impl Model for Failing {
    ghost use Rattle.gq_io.specs.InMemory.{Calls};

    ghost Value = { Calls };

    ghost view = { λ f. record { failing = f.numbers; made = f.calls; faults = f.faults } };
}

impl Failing {
    ghost use Rattle.gq_io.specs.Causes.{HasCause, Rose};
    ghost use Rattle.gq_io.specs.InMemory.{IsCall, no_calls};

    pub(crate) fn new(numbers: List<u64>) -> Failing
        ensures { result ≡ no_calls numbers }
    {
        Failing {
            numbers,
            calls: 0,
            faults: 0,
        }
    }

    /// Counts a call, and fails it where its number is one of those.
    pub(crate) fn call(&mut self) -> Result<(), Failed>
        ensures cause { HasCause self.old.faults self.new.faults result }
        ensures call { IsCall self.old self.new result }
    {
        let fails = self.numbers.as_slice().contains(&self.calls);
        self.calls = self.calls.saturating_add(1);
        if fails {
            return Err(self.fault());
        }
        Ok(())
    }

    /// Counts a fault.
    pub(crate) fn fault(&mut self) -> Failed
        ensures rose { Rose self.old.faults self.new.faults }
        ensures later { self.old.faults ≤ self.new.faults }
        ensures rest { self.new ≡ record self.old { faults = self.new.faults } }
    {
        self.faults = self.faults.saturating_add(1);
        Failed
    }
}
