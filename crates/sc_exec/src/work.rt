//! What an executor does turn by turn.
#![tactic(auto)]

ghost use Rattle.std.specs.Prelude.{◌≡◌, ◌<◌, [], IfErr, IfOk};
ghost use Rattle.crossbeam_queue.specs.Passes.{view};
ghost use Rattle.sc_queue.specs.Rule.{pushed_of};
ghost use Rattle.sc_exec.specs.Lefts.{IsAtWork, IsCause, IsDue, IsHindrance, IsToldTheSame};
ghost use Rattle.sc_exec.specs.Logging.{HasRoom};
ghost use Rattle.sc_exec.specs.Receipts.{Awaits};
ghost use Rattle.sc_exec.specs.Sending.{EndsAs, EndsBusyWith, IsBusyAfter, SendsInTurn, SendsNothing};
ghost use Rattle.sc_exec.specs.Turns.{IsTold};
ghost use Rattle.sc_exec.specs.Working.{IsReasonToLeave, IsTurn};
ghost use Rattle.sc_exec.specs.declared.work.Turn.TheVariants as turns;

use crate::attempts::perform;
use crate::begins::begin;
use crate::driver::Driver;
use crate::gates::Gate;
use crate::lefts::{Left, Stranger};
use crate::openings::Opening;
use crate::places::Stores;
use crate::turns::Asked;
use crate::visits::Witnessed;
use sc_clock::Clock;
use sc_desk::Taken;
use sc_files::Files;
use sc_ids::AttemptId;
use sc_logs::ExecLog;
use sc_plan::Order;
use sc_queue::Poster;
use sc_work::Naming;
use std::alloc::Global;
use std::sync::{Mutex, Wait};
use std::time;

/// How a turn ends.
#[derive(Clone, Copy, Debug, PartialEq, Eq)]
pub(crate) enum Turn {
    /// Another one follows, in which the executor hears of the report that it has pushed of this
    /// attempt, if it has.
    Again(Option<AttemptId>),
    /// It was the last.
    Over(Left),
}

/// An executor works turn by turn until there is no more for it, and logs what it enters. Its
/// reports it pushes under a pass of its own. It says why it takes no more tasks.
#[tactic(auto, using(crate::proofs::Rules::works))]
pub fn work_loop<W: Naming, J: Opening, F: Files, G: Gate, C: Clock, R: Wait + time::Clock>(
    rt: &R,
    alloc: Global,
    driver: &Driver<W, J, F>,
    stores: &Stores<W>,
    gate: &G,
    clock: &Mutex<C>,
    log: &mut ExecLog,
    poster: &mut Poster<Witnessed<W>, J>,
) -> Left
    requires fresh { log.old.entries.items ≡ [] }
    requires room { HasRoom log.old }
    requires known { log.old.exec < W.work.limits.executors }
    requires mark { poster.old.exec ≡ log.old.exec }
    ensures exec { log.new.exec ≡ log.old.exec }
    ensures cause { IsCause W.work log.new result }
    ensures busy { IsBusyAfter result log.new (pushed_of (view poster.new.pass)) }
{
    let mut sent = None;
    for _ in rt.forever() {
        match take_turn(rt, alloc, driver, stores, gate, clock, log, poster, sent) {
            Turn::Again(pushed) => sent = pushed,
            Turn::Over(left) => return left,
        }
    }
    unreachable!()
}

/// An executor takes a turn: it tells what is due, or carries out an order that is due, or asks for
/// a task and does it. Where there is none for it now, it has waited for the bell.
#[tactic(auto, using(crate::proofs::SendLemmas::over_busy, crate::proofs::SendLemmas::over_sends))]
fn take_turn<W: Naming, J: Opening, F: Files, G: Gate, C: Clock, R: Wait + time::Clock>(
    rt: &R,
    alloc: Global,
    driver: &Driver<W, J, F>,
    stores: &Stores<W>,
    gate: &G,
    clock: &Mutex<C>,
    log: &mut ExecLog,
    poster: &mut Poster<Witnessed<W>, J>,
    sent: Option<AttemptId>,
) -> Turn
    requires awaits { Awaits sent log.old }
    requires known { log.old.exec < W.work.limits.executors }
    ensures turn { IsTurn W.work result log.new }
    ensures sends { SendsInTurn result
        (pushed_of (view poster.old.pass)) (pushed_of (view poster.new.pass)) }
    ensures busy { EndsBusyWith sent result log.new }
    ensures exec { log.new.exec ≡ log.old.exec }
{
    match begin(rt, driver, clock, log, sent) {
        Ok(Asked::Told) => Turn::Again(None),
        Ok(Asked::Order(order)) => obey(rt, driver, stores, log, order),
        Ok(Asked::Taken(taken)) => follow(rt, alloc, driver, stores, gate, log, poster, taken),
        Err(left) => leave(rt, driver, log, left),
    }
}

/// An executor does what it was told.
#[tactic(auto, using(crate::proofs::Rules::follows))]
fn follow<W: Naming, J: Opening, F: Files, G: Gate, R: Wait>(
    rt: &R,
    alloc: Global,
    driver: &Driver<W, J, F>,
    stores: &Stores<W>,
    gate: &G,
    log: &mut ExecLog,
    poster: &mut Poster<Witnessed<W>, J>,
    taken: Taken<W>,
) -> Turn
    requires told { IsTold W.work J.opening.job taken log.old }
    requires room { HasRoom log.old }
    requires known { log.old.exec < W.work.limits.executors }
    ensures turn { IsTurn W.work result log.new }
    ensures sends { SendsInTurn result
        (pushed_of (view poster.old.pass)) (pushed_of (view poster.new.pass)) }
    ensures busy { (sent : _) → EndsBusyWith sent result log.new }
    ensures exec { log.new.exec ≡ log.old.exec }
{
    match taken {
        Taken::Task(task) => {
            let went = perform(rt, alloc, driver, stores, gate, log, poster, task);
            end_turn(rt, driver, log, went)
        }
        Taken::Wait { .. } | Taken::Aborted(_) => Turn::Again(None),
        Taken::Busy { held } => leave(rt, driver, log, Left::Busy { held }),
        Taken::Lost => Turn::Over(Left::Lost),
        Taken::Stopped { exec } => Turn::Over(Left::Stopped { exec }),
        Taken::Ended => Turn::Over(Left::JobEnded),
    }
}

/// An executor has an order of the fault plan carried out.
#[tactic(auto, using(crate::proofs::SendLemmas::over_free, crate::proofs::SendLemmas::over_sends))]
fn obey<W: Naming, J: Opening, F: Files, R: Wait>(
    rt: &R,
    driver: &Driver<W, J, F>,
    stores: &Stores<W>,
    log: &mut ExecLog,
    order: Order,
) -> Turn
    requires due { IsDue W.work order }
    requires works { IsAtWork [] log.old }
    requires room { HasRoom log.old }
    requires known { log.old.exec < W.work.limits.executors }
    ensures turn { IsTurn W.work result log.new }
    ensures sends { SendsNothing result }
    ensures busy { (sent : _) → EndsBusyWith sent result log.new }
    ensures exec { log.new.exec ≡ log.old.exec }
{
    match stores.carry_out(rt, order) {
        Ok(()) => Turn::Again(None),
        Err(misplaced) => {
            let left = Left::Stranger(Stranger::Store(misplaced));
            leave(rt, driver, log, left)
        }
    }
}

/// The turn of an executor ends in which it did what it was told, or couldn't.
#[tactic(auto, using(crate::proofs::SendLemmas::over_free))]
fn end_turn<W: Naming, J: Opening, F: Files, R: Wait>(
    rt: &R,
    driver: &Driver<W, J, F>,
    log: &mut ExecLog,
    went: Result<Option<AttemptId>, Left>,
) -> Turn
    requires awaits { IfOk went (λ sent. Awaits sent log.old) }
    requires hinders { IfErr went (IsHindrance W.work log.old) }
    requires room { HasRoom log.old }
    requires known { log.old.exec < W.work.limits.executors }
    ensures turn { IsTurn W.work result log.new }
    ensures ends { EndsAs went result }
    ensures busy { (sent : _) → EndsBusyWith sent result log.new }
    ensures exec { log.new.exec ≡ log.old.exec }
{
    match went {
        Ok(sent) => Turn::Again(sent),
        Err(left) => leave(rt, driver, log, left),
    }
}

/// An executor leaves that can't go on. What is on its way is drained before, as far as that goes.
#[tactic(auto, using(crate::proofs::Rules::leaves))]
fn leave<W: Naming, J: Opening, F: Files, R: Wait>(
    rt: &R,
    driver: &Driver<W, J, F>,
    log: &mut ExecLog,
    left: Left,
) -> Turn
    requires reason { IsReasonToLeave W.work log.old left }
    requires room { HasRoom log.old }
    requires known { log.old.exec < W.work.limits.executors }
    ensures turn { IsTurn W.work result log.new }
    ensures over { result ≡ turns.Over left }
    ensures told { IsToldTheSame log.old log.new }
    ensures exec { log.new.exec ≡ log.old.exec }
{
    let (mut helm, _) = driver.open(rt);
    let _ = helm.desk.leave(log);
    drop(helm);
    driver.bell.notify_all();
    Turn::Over(left)
}
