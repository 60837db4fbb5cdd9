//! The core that the last job left.
#![tactic(auto)]

ghost use Rattle.std.specs.Prelude.{◌≡◌};
ghost use Rattle.std.specs.Option.{option_map};
ghost use Rattle.sc_context.specs.Histories.{last_end};

use sc_core::{Core, JobHistory};

/// The core that the last of some jobs left, where there is one.
pub(crate) fn last_end(histories: &[JobHistory]) -> Option<&Core>
    ensures { option_map (λ c. c.now) result ≡ last_end histories.now }
{
    match histories.last() {
        Some(history) => Some(&history.end),
        None => None,
    }
}
