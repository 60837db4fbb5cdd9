//! Attempts that run, by their numbers and by their executors.
#![tactic(auto)]

ghost use Rattle.std.specs.Prelude.{◌≡◌};
ghost use Rattle.std.specs.List.{find, position};
ghost use Rattle.std.specs.Option.{option_map};
ghost use Rattle.sc_core.specs.CoreData.{is_of, is_out_on};

use crate::running::Running;
use sc_ids::{AttemptId, ExecId};

/// The place of the running attempt of these numbers.
pub(crate) fn place_of(running: &[Running], attempt: AttemptId) -> Option<usize>
    ensures { result ≡ position (is_of attempt) running.now }
{
    running.iter().position(|r| is_of(r, attempt))
}

/// The attempt that an executor has out.
pub(crate) fn held_by(running: &[Running], exec: ExecId) -> Option<AttemptId>
    ensures { result
        ≡ option_map (λ r. r.hand_out.attempt) (find (is_out_on exec) running.now) }
{
    running
        .iter()
        .find(|r| is_out_on(r, exec))
        .map(|r| r.hand_out.attempt())
}

/// The attempt that is out longest.
pub(crate) fn first_out(running: &[Running]) -> Option<AttemptId>
    ensures { result
        ≡ option_map (λ r. r.hand_out.attempt) (find (λ r. r.is_out) running.now) }
{
    running
        .iter()
        .find(|r| r.is_out)
        .map(|r| r.hand_out.attempt())
}

/// Whether a running attempt has these numbers.
pub(crate) fn is_of(running: &Running, attempt: AttemptId) -> bool
    ensures { result ≡ is_of attempt running.now }
{
    running.hand_out.attempt() == attempt
}

/// Whether a running attempt is out on an executor.
fn is_out_on(running: &Running, exec: ExecId) -> bool
    ensures { result ≡ is_out_on exec running.now }
{
    running.is_out && running.exec == exec
}
