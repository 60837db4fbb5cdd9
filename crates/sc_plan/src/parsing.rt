//! From bytes to a fault plan.
#![tactic(auto)]

ghost use Rattle.std.specs.Prelude.{◌≡◌, ◌≤◌, IfErr, IfOk, [], length};
ghost use Rattle.sc_base.specs.declared.refusals.OrMemory.TheVariants.{Fault};
ghost use Rattle.sc_plan.specs.Faults.{IsAnswer, IsParseCause, at_line as fault_at};
ghost use Rattle.sc_plan.specs.Limits.{plan_limit};
ghost use Rattle.sc_plan.specs.PlanLines.{AreBelow};
ghost use Rattle.sc_plan.specs.Plans.{ReadsLines, ReadsPlan};

use crate::faults::{LineError, PlanError, PlanFault, PlanFaultKind};
use crate::limits::PLAN_LIMIT;
use crate::lines::PlanLine;
use crate::plans::Plan;
use crate::reading::read_next;
use sc_base::OrMemory;
use sc_value::{NotText, Octets, Texts, lines};
use std::alloc::Global;

/// The fault plan that the bytes are, for so many executors.
///
/// # Errors
///
/// The fault of the first line that has one, exactly where the grammar gives it, unless memory runs
/// out. All bytes are a plan or have a fault, and never both.
pub fn parse_plan(alloc: Global, bytes: &Octets, executors: u32) -> Result<Plan, PlanError>
    ensures plan { IfOk result (ReadsPlan executors bytes.now) }
    ensures known { IfOk result (AreBelow executors) }
    ensures fault { IfErr result (IsParseCause executors bytes.now) }
{
    if bytes.len() > PLAN_LIMIT {
        return Err(whole(PlanFaultKind::Limit));
    }
    match lines(alloc, bytes) {
        Ok(lines) => {
            let read = read_lines(alloc, &lines, executors)?;
            Ok(Plan::of_lines(alloc, read)?)
        }
        Err(error) => match error {
            OrMemory::Fault(NotText) => Err(whole(PlanFaultKind::NotText)),
            OrMemory::OutOfMemory => Err(PlanError::OutOfMemory),
        },
    }
}

/// A fault of the plan as a whole.
fn whole(kind: PlanFaultKind) -> PlanError
    ensures { result ≡ Fault (record { line = 0; kind = kind }) }
{
    PlanError::Fault(PlanFault { line: 0, kind })
}

/// What the lines of a plan say.
fn read_lines(alloc: Global, lines: &Texts, executors: u32) -> Result<Vec<PlanLine>, PlanError>
    requires { length lines.now ≤ plan_limit }
    ensures { IsAnswer (λ v. v.items) (ReadsLines executors [] 1 lines.now) result }
{
    let mut read = Vec::new(alloc);
    for i in 0..lines.len() {
        match read_next(alloc, read, executors, lines.get(i)) {
            Ok(after) => read = after,
            Err(error) => return Err(at_line(i as u32 + 1, error)),
        }
    }
    Ok(read)
}

/// Why no plan was read, by what a line of a number answered.
fn at_line(line: u32, error: LineError) -> PlanError
    ensures { result ≡ fault_at line error }
{
    match error {
        LineError::Fault(kind) => PlanError::Fault(PlanFault { line, kind }),
        LineError::OutOfMemory => PlanError::OutOfMemory,
    }
}
