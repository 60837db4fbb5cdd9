//! A clock that gives numbers from a list.
#![tactic(auto)]

ghost use Rattle.std.specs.Prelude.{◌≡◌};
ghost use Rattle.sc_clock.specs.Clocks.{list_clock};

use crate::clock::Clock;
use std::marker::Model;

/// A clock that gives the numbers of a list in order, and then its last one again and again; of an
/// empty list it gives 0.
#[derive(Debug, Drop)]
pub struct ListClock {
    times: Vec<u64>,
    calls: usize,
}

impl Model for ListClock {
    ghost use Rattle.sc_clock.specs.Clocks.{ListClockData, list_clock};

    ghost Value = { ListClockData };

    ghost view = { λ c. list_clock c.times.items c.calls };
}

impl ListClock {
    /// A clock that will give these numbers.
    pub fn new(times: Vec<u64>) -> ListClock
        ensures { result ≡ list_clock times.items 0 }
    {
        ListClock { times, calls: 0 }
    }
}

impl Clock for ListClock {
    ghost use Rattle.sc_clock.specs.Clocks.{after_call, time_of};

    fn now(&mut self) -> u64
        ensures clock { self.new ≡ after_call self.old }
        ensures time { result ≡ time_of self.old }
    {
        let place = self.calls.min(self.times.len().saturating_sub(1));
        self.calls = self.calls.saturating_add(1);
        self.times.get(place).copied().unwrap_or(0)
    }
}
