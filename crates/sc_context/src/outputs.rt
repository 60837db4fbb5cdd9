//! The files of a job: opened before it begins, made anew where it begins again, ended at its end.
#![tactic(auto)]

ghost use Rattle.std.specs.Prelude.{◌≡◌, IfErr, IfOk, IfSome, Some};
ghost use Rattle.std.specs.Option.{option_map};
ghost use Rattle.sc_base.specs.Outside.{IsLaterFiles};
ghost use Rattle.sc_context.specs.Outputs.{CanCommit, EndsOutput, EndsSave, HaveWinners, IsOpenFor, IsRenewedFor, IsRenewedIn, RefusesOutput, RefusesRenewal};
ghost use Rattle.sc_core.specs.declared.answers.JobState.TheVariants.{Done};
ghost use Rattle.sc_desk.specs.Files.{AreWinners, dir_of_job};
ghost use Rattle.sc_jobs.specs.JobData.{IsGoal};
ghost use Rattle.sc_output.specs.Commits.{AreWinnersFrom};
ghost use Rattle.sc_staging.specs.Outputs.{output_dir, output_files};

use crate::stops::JobFault;
use sc_base::OrMemory;
use sc_core::{Core, JobState};
use sc_files::Files;
use sc_ids::AttemptId;
use sc_jobs::Goal;
use sc_output::is_within_types;
use sc_staging::{Ended, Opened, Output, Renewed, Staging};
use sc_value::Name;
use sc_work::{Naming, SharedWork};
use std::alloc::{AllocError, Global};

/// Why the files of a job weren't opened or made anew, with the files handed back.
#[derive(Drop)]
pub(crate) struct Refused<F: Files> {
    pub(crate) why: OrMemory<JobFault>,
    pub(crate) files: F,
}

/// The files of a job: where it saves, its directory and its staging area are made.
pub(crate) fn open_output<W: Naming, F: Files>(
    alloc: Global,
    work: &SharedWork<W>,
    goal: Goal,
    files: F,
) -> Result<Output<F>, Refused<F>>
    requires goal { IsGoal W.work goal }
    ensures open { IfOk result (IsOpenFor F.state (dir_of_job W.work goal) (F.state files)) }
    ensures refused { IfErr result (λ r. RefusesOutput (dir_of_job W.work goal) (F.state files)
        (F.state r.files) r.why) }
{
    let Some(dir) = directory(work, goal) else {
        return Ok(Output::Nothing(files));
    };
    match Staging::open(alloc, files, dir) {
        Opened::Staging(staging) => Ok(Output::Save(staging)),
        Opened::Exists { path, files } => Err(Refused {
            why: OrMemory::Fault(JobFault::Exists(path)),
            files,
        }),
        Opened::Device { path, files } => Err(Refused {
            why: OrMemory::Fault(JobFault::Device(path)),
            files,
        }),
        Opened::NoMemory { files } => Err(Refused {
            why: OrMemory::OutOfMemory,
            files,
        }),
    }
}

/// The directory that a job saves to, if it saves.
fn directory<W: Naming>(work: &SharedWork<W>, goal: Goal) -> Option<&Name>
    requires { IsGoal W.work goal }
    ensures { option_map (λ n. n.now) result ≡ dir_of_job W.work goal }
{
    let Goal::Action { number } = goal else {
        return None;
    };
    work.is_named();
    work.get().script().actions()[number as usize].saves_to()
}

/// The files of a job that begins again: where it saves, its staging area is made anew.
pub(crate) fn renew_output<F: Files>(output: Output<F>) -> Result<Output<F>, Refused<F>>
    ensures renewed { IfOk result (IsRenewedFor F.state output) }
    ensures refused { IfErr result (λ r. RefusesRenewal (output_dir output)
        (output_files F.state output) (F.state r.files) r.why) }
{
    match output {
        Output::Nothing(files) => Ok(Output::Nothing(files)),
        Output::Save(staging) => renew_save(staging),
    }
}

/// The files of a save that begins again.
fn renew_save<F: Files>(staging: Staging<F>) -> Result<Output<F>, Refused<F>>
    ensures renewed { IfOk result (λ o. (output_dir o ≡ Some staging.dir)
        × IsRenewedIn (Some staging.dir) staging.files (output_files F.state o)) }
    ensures refused { IfErr result (λ r. RefusesRenewal (Some staging.dir) staging.files
        (F.state r.files) r.why) }
{
    match staging.again() {
        Renewed::Staging(staging) => Ok(Output::Save(staging)),
        Renewed::Device { path, files } => Err(Refused {
            why: OrMemory::Fault(JobFault::Device(path)),
            files,
        }),
        Renewed::NoMemory { files } => Err(Refused {
            why: OrMemory::OutOfMemory,
            files,
        }),
    }
}

/// Ends the files of a job, where they weren't put aside, by how far it is.
pub(crate) fn end_output<F: Files>(alloc: Global, output: Output<F>, end: &Core) -> Ended<F>
    requires { end.now.job ≡ Done → IfSome (output_dir output) (λ dir.
        CanCommit dir end.now (output_files F.state output)) }
    ensures later { IsLaterFiles (output_files F.state output) (F.state result.files) }
    ensures ends { EndsOutput (output_dir output) end.now (output_files F.state output)
        (F.state result.files) result.ended }
{
    match output {
        Output::Nothing(files) => Ended {
            files,
            ended: Ok(()),
        },
        Output::Save(staging) => end_save(alloc, staging, end),
    }
}

/// Ends a save: one that is done is committed, and one that was aborted has its staging area
/// removed. Where the job runs on, since memory ran out, the files are given back as they are.
fn end_save<F: Files>(alloc: Global, staging: Staging<F>, end: &Core) -> Ended<F>
    requires { end.now.job ≡ Done → CanCommit staging.dir end.now staging.files }
    ensures later { IsLaterFiles staging.files (F.state result.files) }
    ensures ends { EndsSave staging.dir end.now.committers end.now.job staging.files
        (F.state result.files) result.ended }
{
    match end.job() {
        JobState::Done => commit_save(alloc, staging, end),
        JobState::Aborted(_) => staging.abort(alloc),
        JobState::Running => Ended {
            files: staging.close(),
            ended: Ok(()),
        },
    }
}

/// Commits a save that is done, whose winners are told by its core.
fn commit_save<F: Files>(alloc: Global, staging: Staging<F>, end: &Core) -> Ended<F>
    requires { CanCommit staging.dir end.now staging.files }
    ensures later { IsLaterFiles staging.files (F.state result.files) }
    ensures ends { EndsSave staging.dir end.now.committers Done staging.files
        (F.state result.files) result.ended }
{
    match winners_of(alloc, end) {
        Ok(winners) => staging.commit(alloc, winners.as_slice()),
        Err(_) => Ended {
            files: staging.close(),
            ended: Err(OrMemory::OutOfMemory),
        },
    }
}

/// The attempts of a save that is done whose parts count: one for each partition, in order.
fn winners_of(alloc: Global, end: &Core) -> Result<Vec<AttemptId>, AllocError>
    requires { HaveWinners end.now }
    ensures winners { IfOk result (λ v. AreWinners end.now.committers v.items) }
    ensures in_order { IfOk result (λ v. AreWinnersFrom 0 v.items) }
{
    let count = end.tasks(end.result_stage());
    let mut winners = Vec::with_capacity(alloc, count as usize)?;
    for partition in 0..count {
        match end.winner(partition) {
            Some(winner) => {
                is_within_types(winner);
                winners.push(winner)?;
            }
            None => unreachable!(),
        }
    }
    Ok(winners)
}
