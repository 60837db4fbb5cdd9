//! What an attempt reports comes to the desk, or is on its way there.
#![tactic(auto)]

ghost use Rattle.std.specs.Prelude.{◌≡◌, ◌∷◌, [], IfErr, IfOk};
ghost use Rattle.crossbeam_queue.specs.Passes.{view};
ghost use Rattle.sc_queue.specs.Rule.{pushed_of};
ghost use Rattle.sc_core.specs.declared.answers.Answer.TheVariants as says;
ghost use Rattle.sc_exec.specs.Lefts.{HasDrained, IsAtWork, IsHindrance, WasTold};
ghost use Rattle.sc_exec.specs.Logging.{HasRoom};
ghost use Rattle.sc_exec.specs.Receipts.{Awaits};
ghost use Rattle.sc_exec.specs.Sending.{Pushes};

use crate::calls::Delivery;
use crate::drains::count_of;
use crate::driver::Driver;
use crate::helms::Helm;
use crate::lefts::{Left, Stranger};
use crate::openings::Opening;
use crate::visits::Witnessed;
use sc_files::Files;
use sc_ids::AttemptId;
use sc_logs::ExecLog;
use sc_queue::Poster;
use sc_work::Naming;
use std::sync::{MutexGuard, Wait};

/// An executor posts what its attempt reports. Where another one is at the desk it doesn't wait for
/// it: it pushes the report, and hears of it in its next turn.
#[tactic(auto, using(crate::proofs::SendLemmas::pushes_none))]
pub(crate) fn post<W: Naming, J: Opening, F: Files, R: Wait>(
    rt: &R,
    driver: &Driver<W, J, F>,
    log: &mut ExecLog,
    poster: &mut Poster<Witnessed<W>, J>,
    report: Witnessed<W>,
) -> Result<Option<AttemptId>, Left>
    requires told { WasTold (says.Task report.task.hand_out) log.old }
    requires job { report.task.job ≡ J.opening.job }
    requires works { IsAtWork (report.task.hand_out.attempt ∷ []) log.old }
    requires room { HasRoom log.old }
    ensures pushes { Pushes poster.old.exec report result
        (pushed_of (view poster.old.pass)) (pushed_of (view poster.new.pass)) }
    ensures awaits { IfOk result (λ sent. Awaits sent log.new) }
    ensures hinders { IfErr result (IsHindrance W.work log.new) }
    ensures exec { log.new.exec ≡ log.old.exec }
    ensures room { HasRoom log.new }
{
    match driver.helm.try_lock() {
        Some(helm) => hand_in(rt, driver, helm, log, report),
        None => push(rt, driver, log, poster, report),
    }
}

/// An executor pushes what its attempt reports. Room for the Post is taken before. Where the queue
/// is full it is drained first.
#[tactic(auto, using(crate::proofs::Rules::pushes))]
fn push<W: Naming, J: Opening, F: Files, R: Wait>(
    rt: &R,
    driver: &Driver<W, J, F>,
    log: &mut ExecLog,
    poster: &mut Poster<Witnessed<W>, J>,
    mut report: Witnessed<W>,
) -> Result<Option<AttemptId>, Left>
    requires told { WasTold (says.Task report.task.hand_out) log.old }
    requires works { IsAtWork (report.task.hand_out.attempt ∷ []) log.old }
    requires room { HasRoom log.old }
    ensures pushes { Pushes poster.old.exec report result
        (pushed_of (view poster.old.pass)) (pushed_of (view poster.new.pass)) }
    ensures awaits { IfOk result (λ sent. Awaits sent log.new) }
    ensures hinders { IfErr result (IsHindrance W.work log.new) }
    ensures exec { log.new.exec ≡ log.old.exec }
    ensures room { HasRoom log.new }
{
    if log.entries.reserve(2).is_err() {
        return Err(Left::NoMemory);
    }
    let attempt = report.attempt();
    for _ in rt.forever() {
        match poster.push(rt, &driver.queue, report) {
            Ok(()) => return Ok(Some(attempt)),
            Err(back) => report = back,
        }
        make_room(rt, driver)?;
    }
    unreachable!()
}

/// Whoever finds the queue full drains it, and the others hear of what was entered.
fn make_room<W: Naming, J: Opening, F: Files, R: Wait>(
    rt: &R,
    driver: &Driver<W, J, F>,
) -> Result<(), Left>
    ensures hinders { IfErr result HasDrained }
{
    let (helm, drained) = driver.open(rt);
    drop(helm);
    driver.bell.notify_all();
    count_of(drained)?;
    Ok(())
}

/// An executor that has the lock of the desk posts there what its attempt reports, behind all that
/// is on its way.
#[inline(always)]
#[tactic(auto, using(crate::proofs::Rules::hands_in))]
fn hand_in<W: Naming, J: Opening, F: Files, R: Wait>(
    rt: &R,
    driver: &Driver<W, J, F>,
    mut helm: MutexGuard<'_, Helm<W, J, F>>,
    log: &mut ExecLog,
    report: Witnessed<W>,
) -> Result<Option<AttemptId>, Left>
    requires told { WasTold (says.Task report.task.hand_out) log.old }
    requires job { report.task.job ≡ J.opening.job }
    requires works { IsAtWork (report.task.hand_out.attempt ∷ []) log.old }
    requires room { HasRoom log.old }
    ensures none { IfOk result (λ sent. sent ≡ None) }
    ensures awaits { IfOk result (λ sent. Awaits sent log.new) }
    ensures hinders { IfErr result (IsHindrance W.work log.new) }
    ensures exec { log.new.exec ≡ log.old.exec }
    ensures room { HasRoom log.new }
{
    report.is_true();
    count_of(helm.drain(rt, &driver.queue))?;
    let posted = helm.desk.post(log, report);
    drop(helm);
    driver.bell.notify_all();
    let Ok(delivery) = posted else {
        return Err(Left::NoMemory);
    };
    match delivery {
        Delivery::Received => Ok(None),
        Delivery::Stranger { refused, .. } => Err(Left::Stranger(Stranger::Report(refused))),
        Delivery::Early { early, .. } => Err(Left::Early(early)),
    }
}
