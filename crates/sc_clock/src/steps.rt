//! A clock that goes on by steps.
#![tactic(auto)]

ghost use Rattle.sc_clock.specs.Clocks.{after_step};
ghost use Rattle.std.specs.Prelude.{◌≡◌};

use crate::clock::Clock;

/// A clock that adds the same number at each call, and gives the sum. It stands still at its type's
/// last value.
#[derive(Clone, Copy, Debug, PartialEq, Eq)]
pub struct StepClock {
    /// What it gave last.
    pub time: u64,
    /// What it adds at each call.
    pub step: u64,
}

impl Clock for StepClock {
    ghost use Rattle.sc_clock.specs.Clocks.{after_step};

    fn now(&mut self) -> u64
        ensures clock { self.new ≡ after_step self.old }
        ensures time { result ≡ self.new.time }
    {
        self.time = self.time.saturating_add(self.step);
        self.time
    }
}
