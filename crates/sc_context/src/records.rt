//! How the jobs of a run went.
#![tactic(auto)]

ghost use Rattle.std.specs.Prelude.{◌≡◌, [], ◌∷◌, ◌++◌, OnErr, OnOk};
ghost use Rattle.sc_context.specs.Records.{AreKept, HasRoom, HasRoomToKeep, IsGivenUp, IsLogged, IsSame};
ghost use Rattle.sc_lineage.specs.ScriptData.{WorkData};

use sc_core::JobHistory;
use sc_exec::Left;
use sc_logs::ExecLog;
use std::alloc::{AllocError, Global};

/// A job that its executors gave up, and that the driver ran again alone: one of them met what
/// can't be, or what they wrote down isn't what the driver's desk says.
#[derive(Drop)]
pub struct GaveUp {
    /// How it went until then.
    pub history: JobHistory,
    /// What each executor wrote down.
    pub logs: Vec<ExecLog>,
    /// Why each executor took no more tasks.
    pub lefts: Vec<Left>,
}

/// How the jobs of a run went, in order.
#[derive(Drop)]
pub struct Records {
    /// How each went.
    pub histories: Vec<JobHistory>,
    /// What the executors of each wrote down; nothing where the driver ran it alone.
    pub logs: Vec<Vec<ExecLog>>,
    /// The jobs that were given up, each of which was run again, unless that couldn't be.
    pub gave_up: Vec<GaveUp>,
}

impl Records {
    /// No job has run.
    pub fn new(alloc: Global) -> Records
        ensures kept { (work : WorkData) → AreKept work result }
        ensures none { result.histories.items ≡ [] }
        ensures none_logged { result.logs.items ≡ [] }
        ensures none_given { result.gave_up.items ≡ [] }
    {
        Records {
            histories: Vec::new(alloc),
            logs: Vec::new(alloc),
            gave_up: Vec::new(alloc),
        }
    }

    /// Makes room for one job more. A refused call changes nothing.
    pub(crate) fn reserve(&mut self) -> Result<(), AllocError>
        ensures room { OnOk result (HasRoom self.new) }
        ensures same { IsSame self.old self.new }
    {
        self.histories.reserve(1)?;
        self.logs.reserve(1)?;
        self.gave_up.reserve(1)
    }

    /// One job more, of which this is what its executors wrote down. It takes no memory.
    pub(crate) fn keep(&mut self, history: JobHistory, logs: Vec<ExecLog>)
        requires room { HasRoomToKeep self.old }
        requires logged { IsLogged history logs.items }
        ensures kept { (work : WorkData) → AreKept work self.old → AreKept work self.new }
        ensures histories { self.new.histories.items ≡ self.old.histories.items ++ history ∷ [] }
        ensures given { self.new.gave_up.items ≡ self.old.gave_up.items }
    {
        self.histories.push_reserved(history);
        self.logs.push_reserved(logs);
    }

    /// A job that was given up. It takes no memory, and leaves room for how it goes again.
    pub(crate) fn give_up(&mut self, gave_up: GaveUp)
        requires room { HasRoom self.old }
        ensures kept { (work : WorkData) → AreKept work self.old → IsGivenUp work gave_up
            → AreKept work self.new }
        ensures room { HasRoomToKeep self.new }
        ensures histories { self.new.histories.items ≡ self.old.histories.items }
        ensures given { self.new.gave_up.items ≡ self.old.gave_up.items ++ gave_up ∷ [] }
    {
        self.gave_up.push_reserved(gave_up);
    }
}
