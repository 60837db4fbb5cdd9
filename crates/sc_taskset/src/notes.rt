//! What a set notes down: failures that count, and how long its tasks took.
#![tactic(auto)]

ghost use Rattle.std.specs.Prelude.{◌≡◌, ◌↔◌, ◌<◌, ◌≤◌, ◌+◌, ◌*◌, ◌&&◌, IfSome, OnOk, List, length, true, if◌then◌else◌, nat_le, vec_capacity, vec_len};
ghost use Rattle.std.specs.List.{filter};
ghost use Rattle.std.specs.List.Sorted.{IsNonDecreasing};
ghost use Rattle.std.specs.Option.{option_to_list};
ghost use Rattle.sc_taskset.specs.Reports.{with_duration};
ghost use Rattle.sc_taskset.specs.Rows.{is_failure_of, noted};

use crate::rows::Failure;
use crate::scans::failure_count;
use crate::tasks::Verdict;
use std::alloc::AllocError;

/// Takes room for what may come of two attempts of each of so many tasks, where there isn't any. It
/// is kept for them from the first hand-out on, so later ones move nothing.
pub fn reserve_for<T>(items: &mut Vec<T>, tasks: usize) -> Result<(), AllocError>
    ensures items { items.new.items ≡ items.old.items }
    ensures kept { vec_capacity items.old ≤ vec_capacity items.new }
    ensures len { vec_len items.new ≡ vec_len items.old }
    ensures room { OnOk result (vec_len items.old + 2 * tasks ≤ vec_capacity items.new) }
{
    match tasks.checked_mul(2) {
        Some(attempts) => items.reserve(attempts),
        None => Err(AllocError),
    }
}

/// Notes a failure, if it counts. There is room for it.
pub fn note_failure(failures: &mut Vec<Failure>, partition: u32, nth: u32, counts: bool)
    requires { counts ≡ true → vec_len failures.old < vec_capacity failures.old }
    ensures items { failures.new.items ≡ noted counts partition nth failures.old.items }
    ensures kept { vec_capacity failures.new ≡ vec_capacity failures.old }
    ensures len { vec_len failures.new
        ≡ (if counts then vec_len failures.old + 1 else vec_len failures.old) }
{
    if counts {
        failures.push_reserved(Failure { partition, nth });
    }
}

/// What a failure means, once it is noted.
pub fn verdict(failures: &[Failure], partition: u32, counts: bool, limit: u32) -> Verdict
    ensures { (result ≡ Verdict.Limit) ↔ ((counts
        && nat_le limit (length (filter (is_failure_of partition) failures.now))) ≡ true) }
{
    if counts && limit as usize <= failure_count(failures, partition) {
        Verdict::Limit
    } else {
        Verdict::Again
    }
}

/// Notes a duration among those that rise. There is room for it.
pub fn note_duration(durations: &mut Vec<u64>, duration: Option<u64>)
    requires rising { IsNonDecreasing durations.old.items }
    requires room { IfSome duration (λ d. vec_len durations.old < vec_capacity durations.old) }
    ensures items { durations.new.items ≡ with_duration duration durations.old.items }
    ensures kept { vec_capacity durations.old ≤ vec_capacity durations.new }
    ensures len { vec_len durations.new
        ≡ vec_len durations.old + length (option_to_list duration) }
{
    match duration {
        Some(new) => {
            let place = durations.partition_point(|one| *one <= new);
            // With room it isn't refused.
            match durations.insert(place, new) {
                Ok(()) => {}
                Err(_) => unreachable!(),
            }
        }
        None => {}
    }
}
