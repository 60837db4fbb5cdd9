//! How entries of a journal are written: one line each.
#![tactic(auto)]

use crate::answers::{Abort, Answer, SideAnswer};
use crate::entries::Entry;
use crate::events::{Event, Outcome, SideEvent};
use crate::inputs::Inputs;
use crate::running::HandOut;
use crate::words::{By, Failed, Often, Places, Store, Why};
use std::fmt;

impl fmt::Display for Inputs {
    ghost use Rattle.std.specs.Prelude.{Some};
    ghost use Rattle.sc_core.specs.Texts.{inputs_text};

    ghost output = { λ inputs. Some (inputs_text inputs) };

    fn fmt<W: fmt::Write>(&self, f: &mut fmt::Formatter<W>) -> fmt::Result {
        let places = Places {
            inputs: self.as_slice(),
        };
        if places.inputs.is_empty() {
            return Ok(());
        }
        write!(f, ", from{places}")
    }
}

impl fmt::Display for HandOut {
    ghost use Rattle.std.specs.Prelude.{Some};
    ghost use Rattle.sc_core.specs.Texts.{task_text};

    ghost output = { λ h. Some (task_text h) };

    fn fmt<W: fmt::Write>(&self, f: &mut fmt::Formatter<W>) -> fmt::Result {
        let attempt = self.attempt();
        let epoch = self.epoch();
        let inputs = self.listed();
        write!(f, "task {attempt}, epoch {epoch}{inputs}")
    }
}

impl fmt::Display for Outcome {
    ghost use Rattle.std.specs.Prelude.{Some};
    ghost use Rattle.sc_core.specs.Texts.{outcome_text};

    ghost output = { λ outcome. Some (outcome_text outcome) };

    fn fmt<W: fmt::Write>(&self, f: &mut fmt::Formatter<W>) -> fmt::Result {
        match *self {
            Outcome::Map(loc) => {
                let store = Store { loc };
                write!(f, "map at {store}")
            }
            Outcome::Result => write!(f, "result"),
            Outcome::Failed(cause) => {
                let why = Why { cause };
                write!(f, "failed: {why}")
            }
        }
    }
}

impl fmt::Display for Event {
    ghost use Rattle.std.specs.Prelude.{Some};
    ghost use Rattle.sc_core.specs.Texts.{event_text};

    ghost output = { λ event. Some (event_text event) };

    fn fmt<W: fmt::Write>(&self, f: &mut fmt::Formatter<W>) -> fmt::Result {
        match *self {
            Event::Take { .. } => write!(f, "take"),
            Event::Post { attempt, outcome } => write!(f, "post {attempt} {outcome}"),
            Event::Release { key } => write!(f, "release {key}"),
            Event::TellLost { exec } => write!(f, "lost {exec}"),
            Event::Side(event) => write!(f, "{event}"),
        }
    }
}

impl fmt::Display for SideEvent {
    ghost use Rattle.std.specs.Prelude.{Some};
    ghost use Rattle.sc_core.specs.Texts.{side_event_text};

    ghost output = { λ event. Some (side_event_text event) };

    fn fmt<W: fmt::Write>(&self, f: &mut fmt::Formatter<W>) -> fmt::Result {
        match *self {
            SideEvent::Leave { exec } => write!(f, "leave {exec}"),
            SideEvent::Tick { now } => write!(f, "tick {now}"),
            SideEvent::Stage { attempt, .. } => write!(f, "stage {attempt}"),
            SideEvent::Ask { attempt } => write!(f, "ask {attempt}"),
            SideEvent::Move { attempt, .. } => write!(f, "move {attempt}"),
        }
    }
}

impl fmt::Display for SideAnswer {
    ghost use Rattle.std.specs.Prelude.{Some};
    ghost use Rattle.sc_core.specs.Texts.{side_answer_text};

    ghost output = { λ said. Some (side_answer_text said) };

    fn fmt<W: fmt::Write>(&self, f: &mut fmt::Formatter<W>) -> fmt::Result {
        match *self {
            SideAnswer::Ignored => write!(f, "ignored"),
            SideAnswer::Left => write!(f, "left"),
            SideAnswer::Ticked => write!(f, "ticked"),
            SideAnswer::Over => write!(f, "over"),
            SideAnswer::Staged => write!(f, "staged"),
            SideAnswer::Granted => write!(f, "granted"),
            SideAnswer::Denied { by } => write!(f, "denied by {by}"),
            SideAnswer::Moved => write!(f, "moved"),
            SideAnswer::Fault(fault) => {
                let failed = Failed { fault };
                write!(f, "{failed}")
            }
        }
    }
}

impl fmt::Display for Abort {
    ghost use Rattle.std.specs.Prelude.{Some};
    ghost use Rattle.sc_core.specs.Texts.{abort_text};

    ghost output = { λ abort. Some (abort_text abort) };

    fn fmt<W: fmt::Write>(&self, f: &mut fmt::Formatter<W>) -> fmt::Result {
        match *self {
            Abort::TaskLimit {
                stage,
                stage_attempt,
                partition,
            } => {
                let often = Often {
                    stage,
                    number: stage_attempt,
                    partition,
                };
                write!(f, "{often}")
            }
            Abort::StageLimit { stage } => write!(f, "stage limit of {stage}"),
            Abort::NoExecutor => write!(f, "no executor"),
            Abort::Budget => write!(f, "budget"),
        }
    }
}

impl fmt::Display for Answer {
    ghost use Rattle.std.specs.Prelude.{Some};
    ghost use Rattle.sc_core.specs.Texts.{answer_text};

    ghost output = { λ answer. Some (answer_text answer) };

    fn fmt<W: fmt::Write>(&self, f: &mut fmt::Formatter<W>) -> fmt::Result {
        match self {
            Answer::Task(hand_out) => write!(f, "{hand_out}"),
            Answer::Wait { out } => write!(f, "wait for {out}"),
            Answer::Busy { held } => write!(f, "busy with {held}"),
            Answer::Lost => write!(f, "lost"),
            Answer::Stopped { exec } => write!(f, "stopped by {exec}"),
            Answer::Ended => write!(f, "ended"),
            Answer::Aborted(why) => write!(f, "aborted: {why}"),
            Answer::Ignored => write!(f, "ignored"),
            Answer::Told => write!(f, "told"),
            Answer::Shelved => write!(f, "shelved"),
            Answer::Repeated => write!(f, "repeated"),
            Answer::Registered => write!(f, "registered"),
            Answer::Bogus => write!(f, "bogus"),
            Answer::Finished => write!(f, "finished"),
            Answer::Again => write!(f, "again"),
            Answer::Resubmitted => write!(f, "resubmitted"),
            Answer::Side(said) => write!(f, "{said}"),
        }
    }
}

impl fmt::Display for Entry {
    ghost use Rattle.std.specs.Prelude.{Some};
    ghost use Rattle.sc_core.specs.Texts.{entry_text};

    ghost output = { λ entry. Some (entry_text entry) };

    fn fmt<W: fmt::Write>(&self, f: &mut fmt::Formatter<W>) -> fmt::Result {
        let by = By { mark: self.by };
        let event = self.event;
        let answer = &self.answer;
        write!(f, "{by} {event}: {answer}")
    }
}
