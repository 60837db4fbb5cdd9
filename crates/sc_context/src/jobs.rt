//! One job of a context.
#![tactic(auto)]

ghost use Rattle.std.specs.Prelude.{◌≡◌, ◌<◌, IfErr, IfOk, OnOk, length};
ghost use Rattle.std.specs.Option.{option_map};
ghost use Rattle.sc_bound.specs.Suffice.{StageAttemptsSuffice};
ghost use Rattle.sc_causes.specs.Losses.{PlannedLossesAlone};
ghost use Rattle.sc_causes.specs.Raises.{RaisesLeaveNoValue};
ghost use Rattle.sc_context.specs.Contexts.{IsEnded, IsReady, Stops};
ghost use Rattle.sc_context.specs.Progress.{IsNext};
ghost use Rattle.sc_context.specs.Crews.{IsCrew};
ghost use Rattle.sc_context.specs.Records.{AreKept, HasRoom, IsSame, histories_of};
ghost use Rattle.sc_core.specs.Openings.{tracker_behind};
ghost use Rattle.sc_core.specs.Sound.{HasLive};
ghost use Rattle.sc_desk.specs.Begins.{Begins};
ghost use Rattle.sc_desk.specs.Files.{FilesGoOn};
ghost use Rattle.sc_jobs.specs.JobData.{IsGoal, goal_node};
ghost use Rattle.sc_laws.specs.Skips.{OutcomeLaw};
ghost use Rattle.sc_stagecut.specs.Carrying.{HasBounds};
ghost use Rattle.sc_staging.specs.Laws.{WaysGoOn};

use crate::context::Context;
use crate::crews::Crew;
use crate::endings::{Ended, end_job};
use crate::lasts::last_end;
use crate::outputs::{Refused, open_output};
use crate::records::Records;
use crate::running::{Begun, run_begun};
use crate::stops::Stopped;
use sc_bound::limits_suffice;
use sc_causes::{planned_losses_alone, raises_leave_no_value};
use sc_clock::Clock;
use sc_core::Core;
use sc_desk::{Desk, Passed, files_go_on};
use sc_exec::{Gate, Stores};
use sc_files::Files;
use sc_jobs::Goal;
use sc_laws::outcome_law;
use sc_staging::laws_of_ways;
use sc_store::Store;
use sc_work::{Naming, SharedWork};
use std::alloc::{AllocError, Global};
use std::sync::{Mutex, Wait};
use std::thread::Threads;
use std::time;

impl<W: Naming + Send + Sync, F: Files + Send> Context<W, F> {
    /// Runs the job that comes next to its end, on executor threads. Room for its history is made
    /// before it begins, and where it saves, its directory and staging area too.
    pub(crate) fn run_job<G: Gate + Sync, C: Clock + Send, R: Threads + Wait + time::Clock + Sync>(
        self,
        rt: &R,
        alloc: Global,
        gate: &G,
        clock: &Mutex<C>,
        goal: Goal,
    ) -> Result<Ended<W, F>, Stopped<F>>
        requires next { IsNext W.work self.progress goal }
        requires within { self.progress.actions < length W.work.script.actions }
        ensures ended { IfOk result (λ e. IsEnded W.work self goal e.passed
            e.records.histories.items (histories_of e.records.gave_up.items) e.results.items
            (F.state e.files)) }
        ensures actions { IfOk result (λ e. e.actions ≡ self.progress.actions) }
        ensures recorded { IfOk result (λ e. AreKept W.work e.records) }
        ensures stops { IfErr result (λ s. Stops W.work self s.why s.records.histories.items
            (histories_of s.records.gave_up.items) (F.state s.files)) }
        ensures kept { IfErr result (λ s. AreKept W.work s.records) }
    {
        laws_of_ends();
        self.is_sound();
        self.work.is_named();
        self.work.get().is_sound();
        let Context {
            work,
            passed,
            stores,
            mut records,
            actions,
            files,
        } = self;
        let Ok(crew) = make_room(alloc, &work, &mut records) else {
            let_go(work, passed, stores);
            return Err(Stopped::without_memory(records, files));
        };
        let output = match open_output(alloc, &work, goal, files) {
            Ok(output) => output,
            Err(Refused { why, files }) => {
                drop(crew);
                let_go(work, passed, stores);
                return Err(Stopped {
                    why,
                    records,
                    files,
                });
            }
        };
        let last = last_end(records.histories.as_slice());
        let Ok(begun) = begin(alloc, &work, passed, last, goal) else {
            drop(crew);
            drop(stores);
            drop(work);
            return Err(Stopped::without_memory(records, output.close()));
        };
        let run = run_begun(rt, alloc, gate, clock, last, begun, output, stores, crew);
        end_job(work, actions, records, run)
    }
}

/// Lets go of what a job would have begun with. It is a call so that the proof opens what these
/// hold once, and not at each exit.
fn let_go<W: Naming>(_work: SharedWork<W>, _passed: Passed, _stores: Stores<W>) {}

/// Room in the records for one job more, and its executors. A refused call changes nothing.
fn make_room<W: Naming>(
    alloc: Global,
    work: &SharedWork<W>,
    records: &mut Records,
) -> Result<Crew, AllocError>
    requires kept { AreKept W.work records.old }
    ensures kept { AreKept W.work records.new }
    ensures room { OnOk result (HasRoom records.new) }
    ensures crew { IfOk result (IsCrew W.work.limits.executors) }
    ensures same { IsSame records.old records.new }
{
    records.reserve()?;
    work.is_named();
    Crew::new(alloc, work.get().limits().executors)
}

/// What holds of the ends of all jobs. A call does nothing.
fn laws_of_ends()
    ensures raises { RaisesLeaveNoValue }
    ensures losses { PlannedLossesAlone }
    ensures stages { StageAttemptsSuffice }
    ensures outcome { OutcomeLaw }
    ensures files { FilesGoOn }
    ensures ways { WaysGoOn }
{
    raises_leave_no_value();
    planned_losses_alone();
    limits_suffice();
    outcome_law();
    files_go_on();
    laws_of_ways();
}

/// A job begins behind the core of the last one or none, with a copy of which orders of the fault
/// plan were handed out before it.
fn begin<W: Naming>(
    alloc: Global,
    work: &SharedWork<W>,
    passed: Passed,
    last: Option<&Core>,
    goal: Goal,
) -> Result<Begun<W>, AllocError>
    requires goal { IsGoal W.work goal }
    requires bounds { HasBounds W.work.script.nodes passed.carried (goal_node W.work goal) }
    requires ready { IsReady W.work passed (option_map (λ l. l.now) last) }
    requires live { HasLive (tracker_behind (option_map (λ l. l.now) last) W.work.limits) }
    ensures begun { IfOk result
        (λ b. Begins W.work passed (option_map (λ l. l.now) last.entry) goal b.desk) }
    ensures ordered { IfOk result (λ b. b.ordered ≡ b.desk.ordered) }
{
    let ordered = passed.ordered.copied(alloc)?;
    match Desk::begin(alloc, work.share()?, passed, last, goal) {
        Ok(desk) => Ok(Begun { desk, ordered }),
        Err(_) => Err(AllocError),
    }
}
