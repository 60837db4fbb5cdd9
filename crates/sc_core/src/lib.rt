//! The scheduler's core: a machine that answers events, and whose whole state is plain data.
//!
//! [`Core::step`] is the only way in. An [`Event`] is one of five: an executor asks for a task
//! ([`Event::Take`]) or reports on one ([`Event::Post`]); a report that the fault plan delayed
//! reaches the driver ([`Event::Release`]); the driver learns that an executor is lost
//! ([`Event::TellLost`]); or something happens beside the reports ([`Event::Side`]): an executor
//! leaves, the clock is read, or an attempt of a save stages its output, asks whether it may
//! commit, or moves the output to where it counts. What an event is answered and what it leaves is
//! one relation, `Steps` of `specs/Steps.antt`, with a file for each event. A [`Journal`] keeps the
//! events with their answers, so that its state is the replay of its entries.
//!
//! Contracts see a [`Core`] as the record `CoreData` of `specs/CoreData.antt`; what holds of every
//! core stands in `specs/Sound.antt`, and what follows for every list of events in
//! `specs/Laws.antt`. The core holds no row, no block and no work: results are known by their
//! partitions alone. Below it lie `sc_dag`, `sc_commit` and `sc_plan`.
//!
//! After the event loop of Spark's DAGScheduler, and its TaskSchedulerImpl.
#![tactic(auto)]

mod answers;
mod attempts;
mod cores;
mod entries;
mod events;
mod fits;
mod inputs;
mod journals;
mod kept;
mod laws;
mod losses;
mod openings;
mod posts;
mod readers;
mod releases;
mod running;
mod saving;
mod shelves;
mod sides;
mod stages;
mod states;
mod stories;
mod takes;
mod tells;
mod texts;
mod words;

pub use answers::{Abort, Answer, JobState, NotEnabled, SideAnswer, Stepped};
pub use cores::Core;
pub use entries::Entry;
pub use events::{Event, FileOutcome, Outcome, SideEvent};
pub use inputs::Inputs;
pub use journals::{Entered, JobHistory, Journal};
pub use laws::{cores_are_sound, cores_leave_well};
pub use running::{HandOut, Phase, Running, Shelved};
pub use stories::story;
