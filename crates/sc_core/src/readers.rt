//! What a core tells of what comes next.
#![tactic(auto)]

ghost use Rattle.std.specs.Prelude.{◌≡◌};
ghost use Rattle.sc_core.specs.Losses.{may_be_lost};
ghost use Rattle.sc_core.specs.Saving.{is_given, is_granted, saver_phase};
ghost use Rattle.sc_core.specs.Takes.{is_lost};
ghost use Rattle.sc_dag.specs.Offers.{IsNextTask};
ghost use Rattle.sc_tracker.specs.TrackerData.{trust_of};

use crate::cores::Core;
use crate::saving::{is_given, is_granted};
use sc_ids::{AttemptId, ExecId, Generation};

impl Core {
    /// The task that there is for an executor, whatever else may keep it from getting one.
    pub fn next_task(&self, exec: ExecId) -> Option<AttemptId>
        ensures { IsNextTask self.now.dag exec self.now.now result }
    {
        self.state.stages.dag().next_task(exec, self.state.tick)
    }

    /// Whether an executor gets nothing more: it was told lost, or is none of the run.
    pub fn is_lost(&self, exec: ExecId) -> bool
        ensures { result ≡ is_lost self.now exec }
    {
        !self.state.stages.dag().tracker().is_live(exec)
    }

    /// Whether an attempt of a save comes next to stage: it was handed out, is out, and did no
    /// more.
    pub fn may_stage(&self, attempt: AttemptId) -> bool
        ensures { result ≡ is_given (saver_phase self.now attempt) }
    {
        is_given(self.state.saver_phase(attempt))
    }

    /// Whether an attempt of a save comes next to move: it was granted, is out, and did no more.
    pub fn may_move(&self, attempt: AttemptId) -> bool
        ensures { result ≡ is_granted (saver_phase self.now attempt) }
    {
        is_granted(self.state.saver_phase(attempt))
    }

    /// Whether an executor may be told lost.
    pub fn may_be_lost(&self, exec: ExecId) -> bool
        ensures { result ≡ may_be_lost self.now exec }
    {
        self.state.may_be_lost(exec)
    }

    /// The greatest generation of an executor's store that was seen.
    pub fn seen(&self, exec: ExecId) -> Generation
        ensures { result ≡ (trust_of self.now.dag.tracker exec).seen }
    {
        self.state.stages.dag().tracker().seen(exec)
    }
}
