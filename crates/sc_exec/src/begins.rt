//! How an executor begins a turn, and what it waits for.
#![tactic(auto)]

ghost use Rattle.std.specs.Prelude.{◌≡◌, IfErr, IfOk};
ghost use Rattle.sc_exec.specs.Logging.{HasRoom};
ghost use Rattle.sc_exec.specs.Receipts.{Awaits};
ghost use Rattle.sc_exec.specs.Sending.{IsBusyWith};
ghost use Rattle.sc_exec.specs.Turns.{IsAsked};
ghost use Rattle.sc_exec.specs.Working.{IsReasonToLeave};

use crate::drains::count_of;
use crate::driver::Driver;
use crate::helms::Helm;
use crate::lefts::Left;
use crate::openings::Opening;
use crate::turns::Asked;
use sc_clock::Clock;
use sc_desk::Taken;
use sc_files::Files;
use sc_ids::AttemptId;
use sc_logs::ExecLog;
use sc_work::Naming;
use std::alloc::AllocError;
use std::sync::{Mutex, MutexGuard, Wait};
use std::time;
use std::time::Duration;

/// How long an executor at most waits for the bell where slow tasks get copies, in milliseconds,
/// as Spark's `spark.speculation.interval`: time alone makes a task slow.
const INTERVAL: u64 = 100;

/// An executor begins a turn at the desk: the queue is drained, then it hears what became of its
/// report, and then it does what comes next. The others hear of what was entered there, and where
/// there is nothing for it now it waits for the bell, under the lock that it was told so; and not
/// for long, where what is slow gets a copy.
#[tactic(auto, using(crate::proofs::Rules::begins))]
pub(crate) fn begin<W: Naming, J: Opening, F: Files, C: Clock, R: Wait + time::Clock>(
    rt: &R,
    driver: &Driver<W, J, F>,
    clock: &Mutex<C>,
    log: &mut ExecLog,
    sent: Option<AttemptId>,
) -> Result<Asked<W>, Left>
    requires awaits { Awaits sent log.old }
    ensures asked { IfOk result (λ asked. IsAsked W.work J.opening.job asked log.new) }
    ensures reason { IfErr result (IsReasonToLeave W.work log.new) }
    ensures busy { IfErr result (λ left. IsBusyWith sent left log.new) }
    ensures exec { log.new.exec ≡ log.old.exec }
    ensures room { HasRoom log.new }
{
    let (mut helm, drained) = driver.open(rt);
    let settled = helm.desk.settle(log, sent);
    let count = count_of(drained)?;
    settled?;
    let speculates = helm.desk.speculates();
    let asked = helm.desk.begin_turn(rt, clock, log);
    if waits(&asked) {
        // a Take that is answered so, and a Tick, are nothing to wake the others for
        if 0 < count {
            driver.bell.notify_all();
        }
        wait(rt, driver, helm, speculates);
    } else {
        drop(helm);
        driver.bell.notify_all();
    }
    match asked {
        Ok(asked) => Ok(asked),
        Err(AllocError) => Err(Left::NoMemory),
    }
}

/// Whether there is nothing for an executor now.
fn waits<W: Naming>(asked: &Result<Asked<W>, AllocError>) -> bool {
    matches!(asked, Ok(Asked::Taken(Taken::Wait { .. })))
}

/// Waits for the bell, and where what is slow gets a copy at most for so long.
fn wait<W: Naming, J: Opening, F: Files, R: Wait + time::Clock>(
    rt: &R,
    driver: &Driver<W, J, F>,
    helm: MutexGuard<'_, Helm<W, J, F>>,
    speculates: bool,
) {
    if speculates {
        let _ = driver
            .bell
            .wait_timeout(rt, helm, Duration::from_millis(INTERVAL));
    } else {
        let _helm = driver.bell.wait(rt, helm);
    }
}
