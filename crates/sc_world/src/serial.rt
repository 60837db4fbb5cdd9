//! The serial run of a job.
#![tactic(auto)]

ghost use Rattle.std.specs.Prelude.{◌≡◌, ◌+◌, ◌<◌, ◌^◌, IfOk, IfSome, OnErr, OnOk, false, true};
ghost use Rattle.sc_core.specs.CoreData.{job_runs};
ghost use Rattle.sc_world.specs.Files.{OutputGoesOn, OutputStands};
ghost use Rattle.sc_world.specs.Runs.{Reaches};
ghost use Rattle.sc_world.specs.Serial.{GoesOn, IsLive, IsResting, IsSameJob, Turns};
ghost use Rattle.sc_world.specs.Turns.{FindsLive, IsNextLive, LeavesTurn, RunsByTurns, RunsShort, TakesTurn};
ghost use Rattle.sc_world.specs.WorldData.{core_in};

use crate::worlds::World;
use sc_files::Files;
use sc_ids::ExecId;
use sc_staging::Output;
use sc_work::Naming;
use std::alloc::{AllocError, Global};

impl<W: Naming> World<W> {
    /// Runs the job to its end on one thread. The executors that weren't told lost take turns, in
    /// the order of their numbers; each asks for a task, and its attempt goes on until it has
    /// reported. In a save it writes its part before, asks, and moves it, in the files of the job.
    /// Before an executor asks the driver does what is due: it tells a loss, or a report that was
    /// to be told later, or has an order of the fault plan carried out. Where memory is wanting the
    /// world stays where it was reached.
    pub fn serial<F: Files>(
        &mut self,
        alloc: Global,
        output: &mut Output<F>,
    ) -> Result<(), AllocError>
        requires rests { IsResting self.old }
        requires stand { OutputStands W.work self.old F.state output.old }
        ensures ended { OnOk result (job_runs (core_in self.new) ≡ false) }
        ensures turns { OnOk result (RunsByTurns W.work 0 self.old self.new) }
        ensures short { OnErr result (RunsShort W.work 0 self.old self.new) }
        ensures reaches { Reaches W.work self.old self.new }
        ensures same { IsSameJob self.old self.new }
        ensures files { OutputGoesOn W.work self.old self.new F.state
            output.old output.new }
    {
        let mut exec = 0;
        while self.runs() {
            exec = self.turn(alloc, output, exec)?;
        }
        Ok(())
    }

    /// One turn, of the next executor from one on that isn't lost. It answers whose turn is next.
    fn turn<F: Files>(
        &mut self,
        alloc: Global,
        output: &mut Output<F>,
        from: ExecId,
    ) -> Result<ExecId, AllocError>
        requires runs { job_runs (core_in self.old) ≡ true }
        requires rests { IsResting self.old }
        requires stand { OutputStands W.work self.old F.state output.old }
        ensures turns { OnOk result (Turns W.work self.old self.new) }
        ensures on { GoesOn W.work self.old self.new }
        ensures takes { IfOk result (λ next. TakesTurn W.work from next self.old self.new) }
        ensures leaves { OnErr result (LeavesTurn W.work from self.old self.new) }
        ensures files { OutputGoesOn W.work self.old self.new F.state
            output.old output.new }
    {
        let exec = self.next_live(from);
        if self.drive(exec)? {
            return Ok(exec);
        }
        self.run_task(alloc, output, exec)?;
        Ok(exec + 1)
    }

    /// The next executor that wasn't told lost, from one on and round again. There is one while the
    /// job runs.
    fn next_live(&self, from: ExecId) -> ExecId
        requires runs { job_runs (core_in self.now) ≡ true }
        ensures live { IsLive self.now result }
        ensures next { IsNextLive W.work.limits.executors (core_in self.now) from result }
        ensures fits { result + 1 < 2 ^ 32 }
    {
        self.is_world();
        self.desk.work().is_named();
        let executors = self.desk.work().get().limits().executors;
        if let Some(exec) = self.live_between(from, executors) {
            return exec;
        }
        match self.live_between(0, executors) {
            Some(exec) => exec,
            None => unreachable!(),
        }
    }

    /// The first executor within a range of numbers that wasn't told lost.
    fn live_between(&self, from: ExecId, end: ExecId) -> Option<ExecId>
        ensures { FindsLive (core_in self.now) from end result }
    {
        for exec in from..end {
            if !self.desk.core().is_lost(exec) {
                return Some(exec);
            }
        }
        None
    }
}
