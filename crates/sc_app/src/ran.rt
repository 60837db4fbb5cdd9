//! How a run ended.
#![tactic(auto)]

ghost use Rattle.std.specs.Prelude.{◌≡◌};
ghost use Rattle.sc_app.specs.Statuses.{number_of, number_of_abort};

use sc_context::GaveUp;
use sc_core::{Abort, JobHistory};
use sc_files::Files;
use sc_lineage::DriverFault;
use sc_logs::ExecLog;
use sc_plan::PlanFault;
use sc_read::Read;
use sc_script::ScriptFault;
use sc_value::Name;

/// How a run ended.
#[derive(Drop)]
pub enum Status {
    /// Every action was done.
    Done,
    /// The words are no command: `clap` refuses them.
    Usage,
    /// The script has a fault.
    Script(ScriptFault),
    /// The fault plan has a fault.
    Plan(PlanFault),
    /// A file is missing or couldn't be read.
    Input {
        /// Its name.
        name: Name,
        /// Whether it isn't there.
        missing: bool,
    },
    /// A job was aborted.
    Aborted(Abort),
    /// The results of an action have no value together.
    DriverFault {
        /// The number of the action, from 0.
        action: u32,
        /// Why they have none.
        kind: DriverFault,
    },
    /// An action saves to a directory that is there already.
    OutputExists {
        /// The directory, or its staging area.
        dir: Name,
    },
    /// A call on the files of an action that saves failed.
    Device {
        /// The path that it was to make, or the directory that it was to remove.
        path: Name,
    },
    /// The sink failed.
    WriteFault,
    /// Memory ran out.
    OutOfMemory,
    /// An input isn't UTF-8.
    NotText {
        /// Its name.
        name: Name,
    },
}

impl Status {
    /// The exit status of the program.
    pub fn number(&self) -> u8
        ensures { result ≡ number_of self.now }
    {
        match self {
            Status::Done => 0,
            Status::Usage => 2,
            Status::Script(_) => 3,
            Status::Plan(_) => 4,
            Status::Input { .. } => 5,
            Status::Aborted(abort) => number_of_abort(*abort),
            Status::DriverFault { .. } => 9,
            Status::OutputExists { .. } => 10,
            Status::Device { .. } => 11,
            Status::WriteFault => 12,
            Status::OutOfMemory => 13,
            Status::NotText { .. } => 15,
        }
    }
}

/// The exit status where a job was aborted.
fn number_of_abort(abort: Abort) -> u8
    ensures { result ≡ number_of_abort abort }
{
    match abort {
        Abort::TaskLimit { .. } => 6,
        Abort::StageLimit { .. } => 7,
        Abort::NoExecutor => 8,
        Abort::Budget => 14,
    }
}

/// What a run did: how it ended, what it read, and how its jobs went, in order.
#[derive(Drop)]
pub struct Ran<F: Files, C> {
    /// How it ended.
    pub status: Status,
    /// The script, the plan where one is named, and then the inputs, as far as they were read.
    pub read: Vec<Read>,
    /// How the jobs went: for each action that was begun those that found bounds, and its own. All
    /// but the last are done.
    pub history: Vec<JobHistory>,
    /// What the executors of each of these jobs wrote down; nothing where the job was run by the
    /// calling thread alone.
    pub logs: Vec<Vec<ExecLog>>,
    /// The jobs that their executors gave up.
    pub gave_up: Vec<GaveUp>,
    /// The files that it was given to save to.
    pub files: F,
    /// The clock that it was given.
    pub clock: C,
}
