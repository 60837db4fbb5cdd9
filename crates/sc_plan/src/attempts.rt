//! What a plan says of an attempt.
#![tactic(auto)]

use crate::lines::AttemptPlace;
use crate::lookups::key_of_place;
use crate::plans::Plan;
use sc_ids::AttemptId;

impl Plan {
    ghost use Rattle.std.specs.Prelude.{◌≡◌};
    ghost use Rattle.sc_plan.specs.Attempts.{delay_of, is_doubled, is_failed};
    ghost use Rattle.sc_plan.specs.PlanLines.{place_of};

    /// Whether an attempt reports a failure in place of what it computes.
    pub fn fails(&self, attempt: &AttemptId) -> bool
        ensures { result ≡ is_failed self.now (place_of attempt.now) }
    {
        self.fails
            .at(key_of_place(AttemptPlace::of(attempt)))
            .is_some()
    }

    /// Whether a second copy of an attempt's report comes.
    pub fn twice(&self, attempt: &AttemptId) -> bool
        ensures { result ≡ is_doubled self.now (place_of attempt.now) }
    {
        self.twices
            .at(key_of_place(AttemptPlace::of(attempt)))
            .is_some()
    }

    /// How many more reports are told before that of an attempt, and None where it isn't late.
    pub fn late(&self, attempt: &AttemptId) -> Option<u64>
        ensures { result ≡ delay_of self.now (place_of attempt.now) }
    {
        match self.delay(attempt) {
            Some(count) => Some(u64::from(count)),
            None => None,
        }
    }

    /// The same, in 32 bits.
    fn delay(&self, attempt: &AttemptId) -> Option<u32>
        ensures { result ≡ delay_of self.now (place_of attempt.now) }
    {
        self.lates.at(key_of_place(AttemptPlace::of(attempt)))
    }
}
