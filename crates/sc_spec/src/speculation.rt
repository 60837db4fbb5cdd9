//! The test for a second attempt.
#![tactic(auto)]

ghost use Rattle.std.specs.Prelude.{◌≡◌};
ghost use Rattle.sc_spec.specs.Speculation.{has_run_long, is_speculatable, median, successes_wanted};

/// Whether an attempt is worth a second one: three quarters of the tasks of its set, and at least
/// one, have succeeded, and it has run for more than one and a half times their median and more
/// than 100 milliseconds. `durations` are those of the successes, sorted; `started` and `now` are
/// times; all are in milliseconds. It looks at one duration, and takes no memory.
pub fn is_speculatable(durations: &[u64], tasks: usize, started: u64, now: u64) -> bool
    ensures { result ≡ is_speculatable durations.now tasks started now }
{
    durations.len() as u128 >= successes_wanted(tasks)
        && has_run_long(durations, now.saturating_sub(started))
}

/// How many tasks of a set have to have succeeded.
fn successes_wanted(tasks: usize) -> u128
    ensures { result ≡ successes_wanted tasks }
{
    (3 * tasks as u128 / 4).max(1)
}

/// Whether an attempt that has run so long is slow.
fn has_run_long(durations: &[u64], run: u64) -> bool
    ensures { result ≡ has_run_long durations.now run }
{
    let slow = (3 * u128::from(median(durations))).max(200);
    2 * u128::from(run) > slow
}

/// The median of sorted durations, and 0 of none.
fn median(durations: &[u64]) -> u64
    ensures { result ≡ median durations.now }
{
    durations.get(durations.len() / 2).copied().unwrap_or(0)
}
