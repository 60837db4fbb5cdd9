//! What an attempt of a save asks at the desk.
#![tactic(auto)]

ghost use Rattle.std.specs.Prelude.{◌≡◌, ◌∷◌, [], IfErr, IfOk, OnOk, true};
ghost use Rattle.sc_jobs.specs.JobData.{saves};
ghost use Rattle.sc_desk.specs.Saving.{IsEvidentAnswer};
ghost use Rattle.sc_task.specs.States.{IsOfPart};
ghost use Rattle.sc_exec.specs.Lefts.{IsAtWork, IsHindrance, IsToldTheSame};
ghost use Rattle.sc_exec.specs.Logging.{HasRoom};
ghost use Rattle.sc_exec.specs.Working.{owed_by};

use crate::drains::count_of;
use crate::driver::Driver;
use crate::lefts::Left;
use crate::openings::Opening;
use sc_core::SideAnswer;
use sc_files::Files;
use sc_ids::AttemptId;
use sc_logs::ExecLog;
use sc_task::Computed;
use sc_work::Naming;
use std::alloc::Global;
use std::sync::Wait;

/// An attempt of a save has its part written at the desk.
#[tactic(auto, using(crate::proofs::Rules::stages))]
pub(crate) fn stage<W: Naming, J: Opening, F: Files, R: Wait>(
    rt: &R,
    alloc: Global,
    driver: &Driver<W, J, F>,
    log: &mut ExecLog,
    computed: &Computed<W>,
) -> Result<SideAnswer, Left>
    requires works { IsAtWork (computed.now.task.hand_out.attempt ∷ []) log.old }
    requires part { IsOfPart W.work computed.now.task }
    requires job { computed.now.task.job ≡ J.opening.job }
    requires room { HasRoom log.old }
    ensures works { IfOk result
        (λ said. IsAtWork (owed_by computed.now.task.hand_out.attempt said) log.new) }
    ensures told { OnOk result (IsToldTheSame log.old log.new) }
    ensures evident { IfOk result IsEvidentAnswer }
    ensures hinders { IfErr result (IsHindrance W.work log.new) }
    ensures exec { log.new.exec ≡ log.old.exec }
    ensures room { HasRoom log.new }
{
    let attempt = computed.task().attempt();
    let Ok(text) = computed.part_text(alloc) else {
        return Err(Left::NoMemory);
    };
    let (mut helm, drained) = driver.open(rt);
    count_of(drained)?;
    let said = helm.desk.stage_part(alloc, log, attempt, text.as_slice());
    drop(helm);
    driver.bell.notify_all();
    match said {
        Ok(said) => Ok(said),
        Err(_) => Err(Left::NoMemory),
    }
}

/// An attempt of a save asks at the desk whether it may commit.
#[tactic(auto, using(crate::proofs::HinderLemmas::drained_hinders))]
pub(crate) fn ask<W: Naming, J: Opening, F: Files, R: Wait>(
    rt: &R,
    driver: &Driver<W, J, F>,
    log: &mut ExecLog,
    attempt: AttemptId,
) -> Result<SideAnswer, Left>
    requires works { IsAtWork (attempt ∷ []) log.old }
    requires room { HasRoom log.old }
    ensures works { IfOk result (λ said. IsAtWork (owed_by attempt said) log.new) }
    ensures told { OnOk result (IsToldTheSame log.old log.new) }
    ensures hinders { IfErr result (IsHindrance W.work log.new) }
    ensures exec { log.new.exec ≡ log.old.exec }
    ensures room { HasRoom log.new }
{
    let (mut helm, drained) = driver.open(rt);
    count_of(drained)?;
    let said = helm.desk.ask(log, attempt);
    drop(helm);
    driver.bell.notify_all();
    match said {
        Ok(said) => Ok(said),
        Err(_) => Err(Left::NoMemory),
    }
}

/// An attempt of a save has its part moved at the desk.
#[tactic(auto, using(crate::proofs::Rules::moves))]
pub(crate) fn move_part<W: Naming, J: Opening, F: Files, R: Wait>(
    rt: &R,
    alloc: Global,
    driver: &Driver<W, J, F>,
    log: &mut ExecLog,
    attempt: AttemptId,
) -> Result<SideAnswer, Left>
    requires works { IsAtWork (attempt ∷ []) log.old }
    requires saves { saves W.work J.opening.job.goal ≡ true }
    requires room { HasRoom log.old }
    ensures works { IfOk result (λ said. IsAtWork (owed_by attempt said) log.new) }
    ensures told { OnOk result (IsToldTheSame log.old log.new) }
    ensures evident { IfOk result IsEvidentAnswer }
    ensures hinders { IfErr result (IsHindrance W.work log.new) }
    ensures exec { log.new.exec ≡ log.old.exec }
    ensures room { HasRoom log.new }
{
    let (mut helm, drained) = driver.open(rt);
    count_of(drained)?;
    let said = helm.desk.move_part(alloc, log, attempt);
    drop(helm);
    driver.bell.notify_all();
    match said {
        Ok(said) => Ok(said),
        Err(_) => Err(Left::NoMemory),
    }
}
