//! How fast the tasks of a set are done.
#![tactic(auto)]

ghost use Rattle.std.specs.Prelude.{◌≡◌};
ghost use Rattle.std.specs.Option.{option_to_list};
ghost use Rattle.std.specs.List.{list_any};
ghost use Rattle.sc_taskset.specs.Paces.{slow_at};

use crate::tasks::RunningCopy;
use sc_spec::is_speculatable;

/// What tells whether a running attempt of a set is slow.
#[derive(Clone, Copy)]
pub struct Pace<'a> {
    /// How long the first successes of the set took, rising, in milliseconds.
    pub durations: &'a [u64],
    /// How many tasks the set has.
    pub tasks: usize,
    /// The time, in milliseconds.
    pub now: u64,
}

impl<'a> Pace<'a> {
    /// Whether an attempt runs that is slow.
    pub fn is_slow(self, copy: Option<RunningCopy>) -> bool
        ensures { result ≡ list_any (slow_at self.entry) (option_to_list copy) }
    {
        match copy {
            Some(copy) => is_speculatable(self.durations, self.tasks, copy.started, self.now),
            None => false,
        }
    }
}
