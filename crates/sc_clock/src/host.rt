//! The system's clock.
#![tactic(auto)]

use crate::clock::Clock;
use std::time;

/// The system's monotone clock, which counts from an arbitrary start. Where it can't be read, it
/// gives what it gave last.
#[derive(Drop)]
pub struct HostClock<R: time::Clock + Drop> {
    rt: R,
    last: u64,
}

impl<R: time::Clock + Drop> HostClock<R> {
    /// The clock that this handle reaches.
    pub fn new(rt: R) -> Self {
        HostClock { rt, last: 0 }
    }
}

impl<R: time::Clock + Drop> Clock for HostClock<R> {
    fn now(&mut self) -> u64 {
        if let Ok(time) = self.rt.monotonic() {
            self.last = u64::try_from(time.as_millis()).unwrap_or(u64::MAX);
        }
        self.last
    }
}
