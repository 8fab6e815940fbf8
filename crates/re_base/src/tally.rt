//! The calls of an object in memory: which of them are to fail, how many were made, and how many of
//! them failed.
//!
//! Calls are numbered from 0. Both counts stop at the last value of a u64.
ghost use Rattle.std.specs.Prelude.{◌≡◌, ◌≤◌};
ghost use Rattle.re_base.specs.Counts.{is_next_failing, no_calls, after_call, after_fault};

use std::marker::Model;

#[derive(Drop)]
pub struct Tally {
    failing: Vec<u32>,
    calls: u64,
    faults: u64,
}

impl Model for Tally {
    ghost use Rattle.re_base.specs.Counts.{Counts};

    ghost Value = { Counts };

    ghost view = { λ tally. record {
      failing = tally.failing.items;
      calls = tally.calls;
      faults = tally.faults;
    } };
}

impl Tally {
    /// No call so far. `failing` has the numbers of those that are to fail.
    pub fn new(failing: Vec<u32>) -> Tally
        ensures { result ≡ no_calls failing.items }
    {
        Tally {
            failing,
            calls: 0,
            faults: 0,
        }
    }

    /// Counts a call, and says whether it is to fail.
    pub fn is_call_failing(&mut self) -> bool
        ensures failing { result ≡ is_next_failing self.old }
        ensures after { self.new ≡ after_call self.old }
    {
        let number = self.calls;
        self.calls = number.saturating_add(1);
        self.failing.iter().any(|call| u64::from(*call) == number)
    }

    /// Counts a fault.
    pub fn count_fault(&mut self)
        ensures after { self.new ≡ after_fault self.old }
        ensures later { self.old.faults ≤ self.new.faults }
    {
        self.faults = self.faults.saturating_add(1);
    }
}
