//! Statuses in words.
#![tactic(auto)]

ghost use Rattle.std.specs.Prelude.{◌≡◌, IfOk};
ghost use Rattle.std.specs.String.{string_bytes};
ghost use Rattle.sc_app.specs.FaultTexts.{abort_text, cause_text, fault_text as text_of, kind_text, missing_text, plan_kind_text};

use crate::ran::Status;
use sc_core::Abort;
use sc_lineage::DriverFault;
use sc_plan::{PlanFault, PlanFaultKind};
use sc_script::{FaultKind, ScriptFault};
use sc_value::Name;
use std::alloc::{AllocError, Global};

/// The text of a status, for the standard error. Done has the empty text.
pub fn fault_text(alloc: Global, status: &Status) -> Result<String, AllocError>
    ensures { IfOk result (λ t. string_bytes t ≡ text_of status.now) }
{
    match status {
        Status::Done => Ok(String::new(alloc)),
        Status::Usage => String::from_str(alloc, "usage"),
        Status::Script(fault) => script_text(alloc, *fault),
        Status::Plan(fault) => plan_text(alloc, *fault),
        Status::Input { name, missing } => input_text(alloc, name, *missing),
        Status::Aborted(abort) => abort_text(alloc, *abort),
        Status::DriverFault { action, kind } => driver_text(alloc, *action, *kind),
        Status::OutputExists { dir } => exists_text(alloc, dir),
        Status::Device { path } => device_text(alloc, path),
        Status::WriteFault => String::from_str(alloc, "write failed"),
        Status::OutOfMemory => String::from_str(alloc, "out of memory"),
        Status::NotText { name } => {
            let name = name.as_str();
            format!(in alloc; "not text: {name}")
        }
    }
}

/// The text of a script's fault.
fn script_text(alloc: Global, fault: ScriptFault) -> Result<String, AllocError>
    ensures { IfOk result (λ t. string_bytes t ≡ text_of (Status.Script fault)) }
{
    let line = fault.line;
    let kind = name_of_kind(fault.kind);
    format!(in alloc; "script: line {line}: {kind}")
}

/// The text of a plan's fault.
fn plan_text(alloc: Global, fault: PlanFault) -> Result<String, AllocError>
    ensures { IfOk result (λ t. string_bytes t ≡ text_of (Status.Plan fault)) }
{
    let line = fault.line;
    let kind = name_of_plan_kind(fault.kind);
    format!(in alloc; "plan: line {line}: {kind}")
}

/// The text of an input that is missing or couldn't be read.
fn input_text(alloc: Global, name: &Name, missing: bool) -> Result<String, AllocError>
    ensures { IfOk result (λ t. string_bytes t ≡ text_of (Status.Input name.now missing)) }
{
    let name = name.as_str();
    let cause = cause_of_input(missing);
    format!(in alloc; "input: {name}: {cause}")
}

/// The text of a job that was aborted.
fn abort_text(alloc: Global, abort: Abort) -> Result<String, AllocError>
    ensures { IfOk result (λ t. string_bytes t ≡ abort_text abort) }
{
    match abort {
        Abort::TaskLimit {
            stage,
            stage_attempt,
            partition,
        } => limit_text(alloc, stage, stage_attempt, partition),
        Abort::StageLimit { stage } => stage_text(alloc, stage),
        Abort::NoExecutor => String::from_str(alloc, "no executor"),
        Abort::Budget => String::from_str(alloc, "budget"),
    }
}

/// The text of a partition that failed too often.
fn limit_text(alloc: Global, stage: u32, attempt: u64, partition: u32) -> Result<String, AllocError>
    ensures { IfOk result (λ t. string_bytes t
        ≡ abort_text (Abort.TaskLimit stage attempt partition)) }
{
    format!(in alloc; "task limit: stage {stage} attempt {attempt} partition {partition}")
}

/// The text of a stage that failed too often.
fn stage_text(alloc: Global, stage: u32) -> Result<String, AllocError>
    ensures { IfOk result (λ t. string_bytes t ≡ abort_text (Abort.StageLimit stage)) }
{
    format!(in alloc; "stage limit: stage {stage}")
}

/// The text of an action whose results have no value together.
fn driver_text(alloc: Global, action: u32, kind: DriverFault) -> Result<String, AllocError>
    ensures { IfOk result (λ t. string_bytes t ≡ text_of (Status.DriverFault action kind)) }
{
    let cause = name_of_cause(kind);
    format!(in alloc; "driver: action {action}: {cause}")
}

/// The text of a directory that is there already.
fn exists_text(alloc: Global, dir: &Name) -> Result<String, AllocError>
    ensures { IfOk result (λ t. string_bytes t ≡ text_of (Status.OutputExists dir.now)) }
{
    let dir = dir.as_str();
    format!(in alloc; "output exists: {dir}")
}

/// The text of a call on files that failed.
fn device_text(alloc: Global, path: &Name) -> Result<String, AllocError>
    ensures { IfOk result (λ t. string_bytes t ≡ text_of (Status.Device path.now)) }
{
    let path = path.as_str();
    format!(in alloc; "device: {path}")
}

/// The name of the cause of a driver's fault.
fn name_of_cause(kind: DriverFault) -> &'static str
    ensures { result.now ≡ cause_text kind }
{
    match kind {
        DriverFault::EmptyCollection => "EmptyCollection",
        DriverFault::Raised(raise) => raise.name(),
    }
}

/// The name of a kind of fault.
fn name_of_kind(kind: FaultKind) -> &'static str
    ensures { result.now ≡ kind_text kind }
{
    match kind {
        FaultKind::NotText => "NotText",
        FaultKind::Limit => "Limit",
        FaultKind::Syntax => "Syntax",
        FaultKind::UnknownName => "UnknownName",
        FaultKind::Twice => "Twice",
        FaultKind::IllTyped => "IllTyped",
    }
}

/// The name of a kind of fault of a plan.
fn name_of_plan_kind(kind: PlanFaultKind) -> &'static str
    ensures { result.now ≡ plan_kind_text kind }
{
    match kind {
        PlanFaultKind::NotText => "NotText",
        PlanFaultKind::Limit => "Limit",
        PlanFaultKind::Syntax => "Syntax",
        PlanFaultKind::UnknownName => "UnknownName",
        PlanFaultKind::Twice => "Twice",
    }
}

/// How a name failed.
fn cause_of_input(missing: bool) -> &'static str
    ensures { result.now ≡ missing_text missing }
{
    if missing { "missing" } else { "failed" }
}
