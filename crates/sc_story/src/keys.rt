//! Tasks and attempts as numbers.
#![tactic(auto)]

use sc_ids::{AttemptId, StageId};

/// The key of a task.
pub(crate) fn task_key(attempt: AttemptId) -> u64 {
    u64::from(attempt.stage)
        .wrapping_mul(4_294_967_296)
        .wrapping_add(u64::from(attempt.partition))
}

/// The key of an attempt, whichever attempt of its stage it is in.
pub(crate) fn place_key(stage: StageId, partition: u32, nth: u32) -> u128 {
    u128::from(stage)
        .wrapping_mul(18_446_744_073_709_551_616)
        .wrapping_add(u128::from(partition).wrapping_mul(4_294_967_296))
        .wrapping_add(u128::from(nth))
}
