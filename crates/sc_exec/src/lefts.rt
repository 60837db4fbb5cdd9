//! Why executors take no more tasks.
#![tactic(auto)]

use crate::calls::{Refused, TooEarly};
use crate::drains::Strange;
use crate::places::Misplaced;
use crate::visits::Absence;
use sc_ids::{AttemptId, ExecId};

/// Why an executor takes no more tasks. What it says of something that can't be, only the call that
/// met it makes.
#[derive(Clone, Copy, Debug, PartialEq, Eq)]
pub enum Left {
    /// The job has ended.
    JobEnded,
    /// An executor left early.
    Stopped {
        /// The first that did.
        exec: ExecId,
    },
    /// It was told lost.
    Lost,
    /// It has a task out, though it reported: it was told so that asked for one, or the desk had no
    /// receipt of what it had pushed.
    Busy {
        /// Its attempt.
        held: AttemptId,
    },
    /// It met something that isn't of its job.
    Stranger(Stranger),
    /// The desk refused what it reported as not possible yet.
    Early(TooEarly),
    /// It drained the queue of reports, and the desk refused one, its own or another one's.
    Drained(Strange),
    /// A block that it was sent to isn't there.
    Absent(Absence),
    /// Memory ran out.
    NoMemory,
}

impl From<Misplaced> for Left {
    ghost use Rattle.std.specs.Prelude.{◌≡◌};
    ghost use Rattle.sc_exec.specs.declared.lefts.Left.TheVariants as lefts;
    ghost use Rattle.sc_exec.specs.declared.lefts.Stranger.TheVariants as strangers;

    ghost from_gives = { λ misplaced left. left ≡ lefts.Stranger (strangers.Store misplaced) };

    fn from(misplaced: Misplaced) -> Self {
        Left::Stranger(Stranger::Store(misplaced))
    }
}

/// What an executor met that isn't of its job. Works are told apart by types, so what is of another
/// one is never met.
#[derive(Clone, Copy, Debug, PartialEq, Eq)]
pub enum Stranger {
    /// The desk refused what it reported as not of the task that was given.
    Report(Refused),
    /// A store isn't that of the executor at its place.
    Store(Misplaced),
}
