//! How a desk begins.
#![tactic(auto)]

ghost use Rattle.std.specs.Prelude.{◌≡◌, [], IfErr, IfOk, IfSome, None, OnErr, replicate};
ghost use Rattle.std.specs.Option.{option_map};
ghost use Rattle.sc_stagecut.specs.Carrying.{HasBounds};
ghost use Rattle.sc_core.specs.Sound.{HasLive, IsSoundCore};
ghost use Rattle.sc_core.specs.Openings.{IsOpening, tracker_behind};
ghost use Rattle.sc_jobs.specs.JobData.{IsGoal, goal_node, saves};
ghost use Rattle.sc_desk.specs.Begins.{Begins, FitsLast, IsFresh, IsHandedBack, IsPassedFor, begun_desk, left_for};
ghost use Rattle.sc_desk.specs.Sound.{IsSoundDesk, result_count};

use crate::desks::Desk;
use crate::journals::DeskJournal;
use crate::passes::Passed;
use sc_compute::TaskResult;
use sc_core::{Core, Journal};
use sc_jobs::{Goal, Job};
use sc_work::{Naming, SharedWork};
use std::alloc::{AllocError, AllocFailed, Global};

impl<W: Naming> Desk<W> {
    /// The desk of a job that begins, behind what goes on from the jobs before and behind the core
    /// of the last of them or none, where somebody is live. Its core is opened under the fault plan
    /// of the work. Where memory is wanting, what goes on is handed back, with the new stages of
    /// the job or without them.
    pub fn begin(
        alloc: Global,
        work: SharedWork<W>,
        mut passed: Passed,
        last: Option<&Core>,
        goal: Goal,
    ) -> Result<Desk<W>, AllocFailed<Passed>>
        requires goal { IsGoal W.work goal }
        requires passed { IsPassedFor W.work passed }
        requires bounds { HasBounds W.work.script.nodes passed.carried (goal_node W.work goal) }
        requires fits { FitsLast W.work (option_map (λ l. l.now) last) }
        requires live { HasLive (tracker_behind (option_map (λ l. l.now) last) W.work.limits) }
        ensures begun { IfOk result
            (λ d. Begins W.work passed (option_map (λ l. l.now) last.entry) goal d) }
        ensures back { IfErr result (λ failed. IsHandedBack W.work passed goal failed.value) }
    {
        match open_job(alloc, &work, &mut passed, last, goal) {
            Ok(
                Opened {
                    job,
                    journal,
                    results,
                },
            ) => {
                let Passed { carried, ordered } = passed;
                Ok(Desk {
                    work,
                    job,
                    carried,
                    journal,
                    results,
                    shelf: Vec::new(alloc),
                    ordered,
                })
            }
            Err(_) => Err(AllocFailed { value: passed }),
        }
    }
}

/// What a desk begins with, beside the work and what goes on from the jobs before.
#[derive(Drop)]
struct Opened<W: Naming> {
    job: Job<W>,
    journal: DeskJournal,
    results: Vec<Option<TaskResult>>,
}

/// Plans the job of a goal, and opens it. Its new stages are carried on.
fn open_job<W: Naming>(
    alloc: Global,
    work: &SharedWork<W>,
    passed: &mut Passed,
    last: Option<&Core>,
    goal: Goal,
) -> Result<Opened<W>, AllocError>
    requires goal { IsGoal W.work goal }
    requires passed { IsPassedFor W.work passed.old }
    requires bounds { HasBounds W.work.script.nodes passed.old.carried (goal_node W.work goal) }
    requires fits { FitsLast W.work (option_map (λ l. l.now) last) }
    requires live { HasLive (tracker_behind (option_map (λ l. l.now) last) W.work.limits) }
    ensures begun { IfOk result (λ o. Begins W.work passed.old
        (option_map (λ l. l.now) last.entry) goal
        (begun_desk o.job o.journal.0 o.results.items passed.new)) }
    ensures sound { IfOk result (λ o. IsSoundDesk W.work
        (begun_desk o.job o.journal.0 o.results.items passed.new)) }
    ensures back { OnErr result (IsHandedBack W.work passed.old goal passed.new) }
{
    let job = Job::plan(alloc, work, &mut passed.carried, goal)?;
    job.is_job();
    let begun = begin_journal(alloc, work, &job, last, false)?;
    Ok(Opened {
        job,
        journal: begun.journal,
        results: begun.results,
    })
}

/// A journal that begins, with places for the results of its job.
#[derive(Drop)]
pub(crate) struct Begun {
    pub journal: DeskJournal,
    pub results: Vec<Option<TaskResult>>,
}

/// The journal of a job that begins, or begins again, and places for its results, of which none is
/// there.
pub(crate) fn begin_journal<W: Naming>(
    alloc: Global,
    work: &SharedWork<W>,
    job: &Job<W>,
    last: Option<&Core>,
    again: bool,
) -> Result<Begun, AllocError>
    requires fits { FitsLast W.work (option_map (λ l. l.now) last) }
    requires live { HasLive (tracker_behind (option_map (λ l. l.now) last) W.work.limits) }
    ensures fresh { IfOk result (λ b. IsFresh job.now.graph W.work.limits
        (saves W.work job.now.goal) W.work.plan
        (left_for again (option_map (λ l. l.now) last.entry)) b.journal.0) }
    ensures sound { IfOk result (λ b. IsSoundCore b.journal.0.core) }
    ensures results { IfOk result (λ b. b.results.items
        ≡ replicate (result_count b.journal.0.core.dag) None) }
{
    let journal = journal_of(alloc, work, job, last, again)?;
    let results = no_results(alloc, &journal)?;
    Ok(Begun { journal, results })
}

/// The journal of a job that begins, or begins again. Its core is opened twice, since none is
/// copied.
fn journal_of<W: Naming>(
    alloc: Global,
    work: &SharedWork<W>,
    job: &Job<W>,
    last: Option<&Core>,
    again: bool,
) -> Result<DeskJournal, AllocError>
    requires fits { FitsLast W.work (option_map (λ l. l.now) last) }
    requires live { HasLive (tracker_behind (option_map (λ l. l.now) last) W.work.limits) }
    ensures fresh { IfOk result (λ j. IsFresh job.now.graph W.work.limits
        (saves W.work job.now.goal) W.work.plan
        (left_for again (option_map (λ l. l.now) last.entry)) j.0) }
    ensures sound { IfOk result (λ j. IsSoundCore j.0.core) }
{
    job.is_job();
    are_sound(last);
    let opening = core_behind(alloc, work, job, last, again)?;
    let core = core_behind(alloc, work, job, last, again)?;
    core.is_sound();
    DeskJournal::of(alloc, Journal::begin(alloc, opening, core))
}

/// The core of a job that begins behind another one or none, or that begins again there.
fn core_behind<W: Naming>(
    alloc: Global,
    work: &SharedWork<W>,
    job: &Job<W>,
    last: Option<&Core>,
    again: bool,
) -> Result<Core, AllocError>
    requires fits { FitsLast W.work (option_map (λ l. l.now) last) }
    requires live { HasLive (tracker_behind (option_map (λ l. l.now) last) W.work.limits) }
    ensures { IfOk result (λ c. IsOpening job.now.graph W.work.limits (saves W.work job.now.goal)
        W.work.plan (left_for again (option_map (λ l. l.now) last.entry)) c) }
{
    work.is_named();
    job.is_job();
    let limits = work.get().limits();
    let plan = work.get().plan();
    let saving = job.saves(work);
    match last {
        Some(core) if again => Core::open_again(alloc, job.graph(), limits, saving, plan, core),
        _ => Core::open(alloc, job.graph(), limits, saving, plan, last),
    }
}

/// What the core before keeps, where there is one.
fn are_sound(last: Option<&Core>)
    ensures { IfSome (option_map (λ l. l.now) last.entry) IsSoundCore }
{
    if let Some(core) = last {
        core.is_sound();
    }
}

/// Places for the results of a job, of which none is there.
fn no_results(alloc: Global, journal: &DeskJournal) -> Result<Vec<Option<TaskResult>>, AllocError>
    ensures { IfOk result (λ v. v.items ≡ replicate (result_count journal.now.0.core.dag) None) }
{
    let core = journal.core();
    places(alloc, core.tasks(core.result_stage()))
}

/// So many places, of which each is empty.
fn places(alloc: Global, count: u32) -> Result<Vec<Option<TaskResult>>, AllocError>
    ensures { IfOk result (λ v. v.items ≡ replicate count None) }
{
    let mut places = Vec::with_capacity(alloc, count as usize)?;
    for _ in 0..count {
        places.push(None)?;
    }
    Ok(places)
}
