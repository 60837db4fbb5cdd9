//! How an attempt of a save goes on.
#![tactic(auto)]

ghost use Rattle.std.specs.Prelude.{◌≡◌, Some};
ghost use Rattle.std.specs.Option.{option_map};
ghost use Rattle.sc_desk.specs.Saving.{IsEvidentAnswer};
ghost use Rattle.sc_task.specs.Attempts.{attempt_data_of};
ghost use Rattle.sc_task.specs.States.{IsOfPart};
ghost use Rattle.sc_world.specs.Places.{IsAside, IsAtRest};
ghost use Rattle.sc_world.specs.Steps.{after_ask, after_move, after_side, after_stage};

use sc_core::SideAnswer;
use sc_ids::AttemptId;
use sc_task::{Attempt, Computed, Granted, Staged};
use sc_work::Naming;

/// What an attempt is to write.
#[derive(Drop)]
pub(crate) struct Part {
    /// The attempt's numbers.
    pub(crate) attempt: AttemptId,
    /// The text of its part.
    pub(crate) text: Vec<u8>,
}

/// What becomes of an attempt of a save that did something beside the reports, which is answered
/// so: one that was over is let go.
pub(crate) fn settled<W: Naming>(attempt: Attempt<W>, answer: SideAnswer) -> Option<Attempt<W>>
    requires rests { IsAtRest W.work (Some (attempt_data_of attempt)) }
    requires aside { IsAside (Some (attempt_data_of attempt)) }
    requires evident { IsEvidentAnswer answer }
    ensures settled { option_map attempt_data_of result
        ≡ after_side (attempt_data_of attempt) answer }
    ensures rests { IsAtRest W.work (option_map attempt_data_of result) }
{
    match attempt {
        Attempt::Computed(state) => staged(state, answer),
        Attempt::Staged(state) => asked(state, answer),
        Attempt::Granted(state) => moved(state, answer),
        Attempt::Assigned(_) | Attempt::Stored(_) | Attempt::Reported(_) => None,
    }
}

/// What becomes of one that was to write its part.
fn staged<W: Naming>(state: Computed<W>, answer: SideAnswer) -> Option<Attempt<W>>
    requires part { IsOfPart W.work state.task }
    requires evident { IsEvidentAnswer answer }
    ensures { option_map attempt_data_of result ≡ after_stage state.task answer }
{
    match answer {
        SideAnswer::Staged => Some(Attempt::Staged(state.staged())),
        SideAnswer::Fault(fault) => Some(Attempt::Reported(state.device(fault))),
        SideAnswer::Ignored | SideAnswer::Left | SideAnswer::Ticked | SideAnswer::Over => None,
        SideAnswer::Granted | SideAnswer::Denied { .. } | SideAnswer::Moved => None,
    }
}

/// What becomes of one that was to ask.
fn asked<W: Naming>(state: Staged<W>, answer: SideAnswer) -> Option<Attempt<W>>
    ensures { option_map attempt_data_of result ≡ after_ask state.task answer }
{
    match answer {
        SideAnswer::Granted => Some(Attempt::Granted(state.granted())),
        SideAnswer::Denied { .. } => Some(Attempt::Reported(state.denied())),
        SideAnswer::Ignored | SideAnswer::Left | SideAnswer::Ticked | SideAnswer::Over => None,
        SideAnswer::Staged | SideAnswer::Moved | SideAnswer::Fault(_) => None,
    }
}

/// What becomes of one that was to move its part.
fn moved<W: Naming>(state: Granted<W>, answer: SideAnswer) -> Option<Attempt<W>>
    requires evident { IsEvidentAnswer answer }
    ensures { option_map attempt_data_of result ≡ after_move state.task answer }
{
    match answer {
        SideAnswer::Moved => Some(Attempt::Reported(state.moved().report())),
        SideAnswer::Fault(fault) => Some(Attempt::Reported(state.device(fault))),
        SideAnswer::Ignored | SideAnswer::Left | SideAnswer::Ticked | SideAnswer::Over => None,
        SideAnswer::Staged | SideAnswer::Granted | SideAnswer::Denied { .. } => None,
    }
}
