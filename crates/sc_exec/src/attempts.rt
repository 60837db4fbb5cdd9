//! One attempt, from its task to its report.
#![tactic(auto)]

ghost use Rattle.std.specs.Prelude.{◌≡◌, ◌<◌, ◌∷◌, [], All, IfErr, IfOk, true};
ghost use Rattle.crossbeam_queue.specs.Passes.{view};
ghost use Rattle.sc_queue.specs.Rule.{pushed_of};
ghost use Rattle.sc_core.specs.declared.answers.Answer.TheVariants as says;
ghost use Rattle.sc_jobs.specs.JobData.{saves};
ghost use Rattle.sc_task.specs.States.{IsOfPart};
ghost use Rattle.sc_exec.specs.Lefts.{IsAtWork, IsHindrance, WasTold};
ghost use Rattle.sc_exec.specs.Logging.{HasRoom};
ghost use Rattle.sc_exec.specs.Receipts.{Awaits};
ghost use Rattle.sc_exec.specs.Sending.{Sends};
ghost use Rattle.sc_exec.specs.Turns.{LiesOrLay};

use crate::driver::Driver;
use crate::gates::Gate;
use crate::lefts::Left;
use crate::openings::Opening;
use crate::performing::{Prepared, prepare};
use crate::places::Stores;
use crate::posting::post;
use crate::saving::{ask, move_part, stage};
use crate::visits::Witnessed;
use sc_core::SideAnswer;
use sc_files::Files;
use sc_ids::AttemptId;
use sc_logs::ExecLog;
use sc_net::Task;
use sc_queue::Poster;
use sc_task::{Computed, Staged};
use sc_work::Naming;
use std::alloc::Global;
use std::sync::Wait;

/// An executor does a task that it was handed, once its gate lets it, and posts what its attempt
/// reports. An attempt of a save has its part written and moved before.
#[tactic(auto, using(crate::proofs::SendLemmas::pushes_sends))]
pub(crate) fn perform<W: Naming, J: Opening, F: Files, G: Gate, R: Wait>(
    rt: &R,
    alloc: Global,
    driver: &Driver<W, J, F>,
    stores: &Stores<W>,
    gate: &G,
    log: &mut ExecLog,
    poster: &mut Poster<Witnessed<W>, J>,
    task: Task<W>,
) -> Result<Option<AttemptId>, Left>
    requires told { WasTold (says.Task task.hand_out) log.old }
    requires works { IsAtWork (task.hand_out.attempt ∷ []) log.old }
    requires job { task.job ≡ J.opening.job }
    requires lay { All (LiesOrLay W.work.limits.executors) task.hand_out.inputs }
    requires known { log.old.exec < W.work.limits.executors }
    requires room { HasRoom log.old }
    ensures sends { Sends result
        (pushed_of (view poster.old.pass)) (pushed_of (view poster.new.pass)) }
    ensures awaits { IfOk result (λ sent. Awaits sent log.new) }
    ensures hinders { IfErr result (IsHindrance W.work log.new) }
    ensures exec { log.new.exec ≡ log.old.exec }
    ensures room { HasRoom log.new }
{
    gate.enter(rt, log.exec, task.attempt());
    match prepare(rt, alloc, stores, log.exec, task)? {
        Prepared::Report(report) => post(rt, driver, log, poster, report),
        Prepared::Part(computed) => save(rt, alloc, driver, log, poster, computed),
    }
}

/// An attempt of a save has its part written, and commits it, unless it is over before; else it
/// reports that it can't.
#[tactic(auto, using(crate::proofs::SendLemmas::pushes_sends))]
fn save<W: Naming, J: Opening, F: Files, R: Wait>(
    rt: &R,
    alloc: Global,
    driver: &Driver<W, J, F>,
    log: &mut ExecLog,
    poster: &mut Poster<Witnessed<W>, J>,
    computed: Computed<W>,
) -> Result<Option<AttemptId>, Left>
    requires told { WasTold (says.Task computed.task.hand_out) log.old }
    requires works { IsAtWork (computed.task.hand_out.attempt ∷ []) log.old }
    requires part { IsOfPart W.work computed.task }
    requires job { computed.task.job ≡ J.opening.job }
    requires room { HasRoom log.old }
    ensures sends { Sends result
        (pushed_of (view poster.old.pass)) (pushed_of (view poster.new.pass)) }
    ensures awaits { IfOk result (λ sent. Awaits sent log.new) }
    ensures hinders { IfErr result (IsHindrance W.work log.new) }
    ensures exec { log.new.exec ≡ log.old.exec }
    ensures room { HasRoom log.new }
{
    match stage(rt, alloc, driver, log, &computed)? {
        SideAnswer::Staged => commit(rt, alloc, driver, log, poster, computed.staged()),
        SideAnswer::Fault(fault) => post(
            rt,
            driver,
            log,
            poster,
            Witnessed::of(computed.device(fault)),
        ),
        SideAnswer::Over => Ok(None),
        // the job has ended, and nothing may be committed any more
        _ => post(
            rt,
            driver,
            log,
            poster,
            Witnessed::of(computed.staged().denied()),
        ),
    }
}

/// An attempt of a save whose part was written asks whether it may commit, and has its part moved
/// where it may.
#[tactic(auto, using(crate::proofs::SendLemmas::pushes_sends))]
fn commit<W: Naming, J: Opening, F: Files, R: Wait>(
    rt: &R,
    alloc: Global,
    driver: &Driver<W, J, F>,
    log: &mut ExecLog,
    poster: &mut Poster<Witnessed<W>, J>,
    staged: Staged<W>,
) -> Result<Option<AttemptId>, Left>
    requires told { WasTold (says.Task staged.task.hand_out) log.old }
    requires job { staged.task.job ≡ J.opening.job }
    requires works { IsAtWork (staged.task.hand_out.attempt ∷ []) log.old }
    requires saves { saves W.work J.opening.job.goal ≡ true }
    requires room { HasRoom log.old }
    ensures sends { Sends result
        (pushed_of (view poster.old.pass)) (pushed_of (view poster.new.pass)) }
    ensures awaits { IfOk result (λ sent. Awaits sent log.new) }
    ensures hinders { IfErr result (IsHindrance W.work log.new) }
    ensures exec { log.new.exec ≡ log.old.exec }
    ensures room { HasRoom log.new }
{
    match ask(rt, driver, log, staged.task().attempt())? {
        SideAnswer::Granted => finish(rt, alloc, driver, log, poster, staged),
        SideAnswer::Over => Ok(None),
        _ => post(rt, driver, log, poster, Witnessed::of(staged.denied())),
    }
}

/// An attempt of a save that may commit has its part moved, and reports it.
#[tactic(auto, using(crate::proofs::SendLemmas::pushes_sends))]
fn finish<W: Naming, J: Opening, F: Files, R: Wait>(
    rt: &R,
    alloc: Global,
    driver: &Driver<W, J, F>,
    log: &mut ExecLog,
    poster: &mut Poster<Witnessed<W>, J>,
    staged: Staged<W>,
) -> Result<Option<AttemptId>, Left>
    requires told { WasTold (says.Task staged.task.hand_out) log.old }
    requires job { staged.task.job ≡ J.opening.job }
    requires works { IsAtWork (staged.task.hand_out.attempt ∷ []) log.old }
    requires saves { saves W.work J.opening.job.goal ≡ true }
    requires room { HasRoom log.old }
    ensures sends { Sends result
        (pushed_of (view poster.old.pass)) (pushed_of (view poster.new.pass)) }
    ensures awaits { IfOk result (λ sent. Awaits sent log.new) }
    ensures hinders { IfErr result (IsHindrance W.work log.new) }
    ensures exec { log.new.exec ≡ log.old.exec }
    ensures room { HasRoom log.new }
{
    match move_part(rt, alloc, driver, log, staged.task().attempt())? {
        SideAnswer::Moved => post(
            rt,
            driver,
            log,
            poster,
            Witnessed::of(staged.granted().moved().report()),
        ),
        SideAnswer::Fault(fault) => post(
            rt,
            driver,
            log,
            poster,
            Witnessed::of(staged.granted().device(fault)),
        ),
        SideAnswer::Over => Ok(None),
        // the job has ended, and the grant counts no more
        _ => post(rt, driver, log, poster, Witnessed::of(staged.denied())),
    }
}
