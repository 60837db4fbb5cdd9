//! The next action.
#![tactic(auto)]

ghost use Rattle.std.specs.Prelude.{◌≡◌, ◌<◌, IfErr, IfOk, length};
ghost use Rattle.sc_context.specs.Contexts.{Evaluates, GivesNext, Stops};
ghost use Rattle.sc_context.specs.Jobs.{AreResultsFor};
ghost use Rattle.sc_context.specs.Progress.{next_node};
ghost use Rattle.sc_context.specs.Records.{AreKept, histories_of};
ghost use Rattle.sc_jobs.specs.JobData.{goal_action};
ghost use Rattle.sc_jobs.specs.declared.goals.Goal.TheVariants as goals;
ghost use Rattle.sc_stagecut.specs.Carrying.{HasBounds};

use crate::context::Context;
use crate::endings::Ended;
use crate::stops::Stopped;
use sc_clock::Clock;
use sc_compute::{Evaluated, TaskResult, settle};
use sc_exec::Gate;
use sc_files::Files;
use sc_jobs::Goal;
use sc_laws::outcome_law;
use sc_work::{Naming, SharedWork};
use std::alloc::{AllocError, Global};
use std::sync::{Mutex, Wait};
use std::thread::Threads;
use std::time;

/// What an action gave, and the context behind its jobs.
#[derive(Drop)]
pub struct Given<W: Naming, F: Files> {
    /// The context.
    pub context: Context<W, F>,
    /// What the action gave: its text, a saved directory, or the fault of the driver.
    pub value: Evaluated,
}

impl<W: Naming + Send + Sync, F: Files + Send> Context<W, F> {
    /// Runs the next action: first the jobs that find the bounds which it needs and that weren't
    /// found yet, and then its own.
    ///
    /// Where it saves, its directory is made before its own job begins, and the parts of the
    /// winners are moved there once that is done.
    ///
    /// # Errors
    ///
    /// The abort of one of these jobs, which its history shows; a directory that is there already;
    /// a call on the files of a save that failed at its beginning or end; or want of memory. The
    /// files are handed back.
    pub fn run_action<G: Gate + Sync, C: Clock + Send, R: Threads + Wait + time::Clock + Sync>(
        self,
        rt: &R,
        alloc: Global,
        gate: &G,
        clock: &Mutex<C>,
    ) -> Result<Given<W, F>, Stopped<F>>
        requires within { self.progress.actions < length W.work.script.actions }
        ensures given { IfOk result (λ g. GivesNext W.work self g.value g.context) }
        ensures stops { IfErr result (λ s. Stops W.work self s.why s.records.histories.items
            (histories_of s.records.gave_up.items) (F.state s.files)) }
        ensures kept { IfErr result (λ s. AreKept W.work s.records) }
    {
        let context = self.find_all_bounds(rt, alloc, gate, clock)?;
        context.run_own_job(rt, alloc, gate, clock)
    }

    /// Runs the own job of the next action, whose bounds were all found.
    fn run_own_job<G: Gate + Sync, C: Clock + Send, R: Threads + Wait + time::Clock + Sync>(
        self,
        rt: &R,
        alloc: Global,
        gate: &G,
        clock: &Mutex<C>,
    ) -> Result<Given<W, F>, Stopped<F>>
        requires within { self.progress.actions < length W.work.script.actions }
        requires found { HasBounds W.work.script.nodes self.progress.carried
            (next_node W.work self.progress) }
        ensures given { IfOk result (λ g. GivesNext W.work self g.value g.context) }
        ensures stops { IfErr result (λ s. Stops W.work self s.why s.records.histories.items
            (histories_of s.records.gave_up.items) (F.state s.files)) }
        ensures kept { IfErr result (λ s. AreKept W.work s.records) }
    {
        self.is_sound();
        let number = self.actions;
        let Some(behind) = number.checked_add(1) else {
            return Err(self.without_memory());
        };
        let ended = self.run_job(rt, alloc, gate, clock, Goal::Action { number })?;
        let Ended {
            work,
            passed,
            stores,
            records,
            results,
            files,
            ..
        } = ended;
        let Ok(value) = value_of(alloc, &work, number, results) else {
            return Err(Stopped::without_memory(records, files));
        };
        let context = Context {
            work,
            passed,
            stores,
            records,
            actions: behind,
            files,
        };
        Ok(Given { context, value })
    }
}

/// What an action gives, whose results these are.
fn value_of<W: Naming>(
    alloc: Global,
    work: &SharedWork<W>,
    number: u32,
    results: Vec<TaskResult>,
) -> Result<Evaluated, AllocError>
    requires within { number < length W.work.script.actions }
    requires results { AreResultsFor W.work (goals.Action number) results.items }
    ensures { IfOk result (Evaluates W.work (goal_action W.work (goals.Action number))) }
{
    work.is_named();
    let work = work.get();
    work.is_sound();
    outcome_law();
    settle(alloc, &work.script().actions()[number as usize], results)
}
