//! A job whose executors have stopped: what is left of it.
#![tactic(auto)]

ghost use Rattle.std.specs.Prelude.{◌≡◌, IfErr, IfOk, Ok, Some, map};
ghost use Rattle.sc_context.specs.Goings.{ComesFrom, GoesFrom};
ghost use Rattle.sc_context.specs.Outputs.{CountsIn, LacksBy, LacksResults};
ghost use Rattle.sc_context.specs.Results.{AreThere};
ghost use Rattle.sc_base.specs.Outside.{FilesState};
ghost use Rattle.sc_core.specs.declared.answers.JobState.TheVariants.{Done};
ghost use Rattle.sc_desk.specs.Files.{AreCounted, FilesStand, faults_of};
ghost use Rattle.sc_exec.specs.JobDesks.{job_desk_data};
ghost use Rattle.sc_exec.specs.Openings.{OpeningData};
ghost use Rattle.sc_staging.specs.Outputs.{output_dir, output_files};

use crate::outputs::end_output;
use crate::results::all_results;
use crate::stops::JobFault;
use sc_base::OrMemory;
use sc_compute::TaskResult;
use sc_core::{Core, JobHistory, JobState};
use sc_desk::{Closed, Desk, Passed, files_go_on};
use sc_files::Files;
use sc_jobs::laws_of_jobs;
use sc_staging::{Ended, Output, laws_of_files, laws_of_saves};
use sc_value::Name;
use sc_work::Naming;
use std::alloc::Global;

/// How a job went, and what is left of it.
#[derive(Drop)]
pub(crate) struct Went<F: Files> {
    pub(crate) history: JobHistory,
    pub(crate) passed: Passed,
    /// Its results, or why there are none.
    pub(crate) results: Result<Vec<TaskResult>, OrMemory<JobFault>>,
    pub(crate) files: F,
}

/// Closes the desk of a job whose executors have stopped, and ends its files. A job that runs on
/// has none, since memory ran out.
pub(crate) fn finish<W: Naming, F: Files>(
    alloc: Global,
    desk: Desk<W>,
    output: Output<F>,
) -> Went<F>
    requires stand { FilesStand W.work desk (output_dir output) (output_files F.state output) }
    ensures entries { result.history.entries.items ≡ desk.journal.entries }
    ensures went { (o : OpeningData) → ComesFrom W.work o
        (job_desk_data desk (output_dir output) (output_files F.state output))
        → GoesFrom W.work o result.history result.passed result.results
        (F.state result.files) }
    ensures counted { (opened : FilesState)
        → AreCounted opened (faults_of desk.journal.entries) (output_files F.state output)
        → CountsIn (faults_of result.history.entries.items) opened (F.state result.files)
        result.results }
{
    laws_of_jobs();
    files_go_on();
    laws_of_files();
    laws_of_saves();
    desk.is_sound();
    desk.is_replay();
    desk.saves_by_goal();
    desk.job().is_job();
    let Closed {
        history,
        results: kept,
        passed,
        job,
    } = desk.close();
    drop(job);
    let Ended { files, ended } = end_output(alloc, output, &history.end);
    let results = results_by(alloc, ended, &history.end, kept.as_slice());
    drop(kept);
    Went {
        history,
        passed,
        results,
        files,
    }
}

/// The results of a job, or why there are none, by how its files were ended.
fn results_by(
    alloc: Global,
    ended: Result<(), OrMemory<Name>>,
    end: &Core,
    results: &[Option<TaskResult>],
) -> Result<Vec<TaskResult>, OrMemory<JobFault>>
    requires whole { end.now.job ≡ Done → AreThere results.now }
    ensures all { IfOk result (λ all. results.now ≡ map Some all.items) }
    ensures done { IfOk result (λ all. end.now.job ≡ Done) }
    ensures ended { IfOk result (λ all. ended ≡ Ok tt) }
    ensures none { IfErr result (LacksBy ended end.now) }
{
    match ended {
        Ok(()) => results_of(alloc, end, results),
        Err(OrMemory::Fault(path)) => Err(OrMemory::Fault(JobFault::Device(path))),
        Err(OrMemory::OutOfMemory) => Err(OrMemory::OutOfMemory),
    }
}

/// The results of a job, or why there are none: where it runs on, memory ran out.
fn results_of(
    alloc: Global,
    end: &Core,
    results: &[Option<TaskResult>],
) -> Result<Vec<TaskResult>, OrMemory<JobFault>>
    requires whole { end.now.job ≡ Done → AreThere results.now }
    ensures all { IfOk result (λ all. results.now ≡ map Some all.items) }
    ensures done { IfOk result (λ all. end.now.job ≡ Done) }
    ensures none { IfErr result (LacksResults end.now) }
{
    match end.job() {
        JobState::Done => Ok(all_results(alloc, results)?),
        JobState::Aborted(abort) => Err(OrMemory::Fault(JobFault::Aborted(abort))),
        JobState::Running => Err(OrMemory::OutOfMemory),
    }
}
