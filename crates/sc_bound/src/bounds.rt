//! The bound of what a job hands out.
#![tactic(auto)]

ghost use Rattle.std.specs.Prelude.{◌≡◌, ◌<◌, ◌≤◌, ◌*◌, ◌^◌};
ghost use Rattle.sc_ids.specs.LimitRanges.{AreLimits};
ghost use Rattle.sc_plan.specs.Orders.{is_lose};
ghost use Rattle.sc_bound.specs.Bounds.{hand_out_bound, loses_in, task_bound};

use sc_ids::{Limits, Stage, StageGraph};
use sc_plan::{Plan, PlanLine};

/// How many tasks a job with these stages hands out at most, in a run under this plan with these
/// limits.
pub fn hand_out_bound(graph: &StageGraph, plan: &Plan, limits: &Limits) -> u128
    requires limits { AreLimits limits.now }
    ensures { result ≡ hand_out_bound graph.now plan.now limits.now }
{
    let stages = graph.stages();
    let each = task_bound(plan, limits);
    let mut total = 0;
    for stage in stages {
        total += stage_bound(stage, each);
    }
    total
}

/// How many tasks of a stage are handed out at most, where each of them is so often.
fn stage_bound(stage: &Stage, each: u128) -> u128
    requires few { each < 2 ^ 23 }
    ensures count { result ≡ stage.now.tasks * each }
    ensures few { result ≤ 2 ^ 55 }
{
    u128::from(stage.tasks()) * each
}

/// How often one task of a stage is handed out at most, in all attempts of the stage.
fn task_bound(plan: &Plan, limits: &Limits) -> u128
    requires limits { AreLimits limits.now }
    ensures count { result ≡ task_bound plan.now limits.now }
    ensures few { result < 2 ^ 23 }
{
    let losses = u128::from(plan.planned_losses());
    let failures = u128::from(limits.task_failures);
    let loses = loses_in(plan);
    (1 + 2 * losses) * (2 * (failures + 2 * loses + 2 * losses + 1))
}

/// How many executors a plan loses.
fn loses_in(plan: &Plan) -> u128
    ensures { result ≡ loses_in plan.now }
{
    let lines = plan.lines();
    lines.iter().filter(|line| is_lose(line)).count() as u128
}

/// Whether a line loses an executor.
fn is_lose(line: &PlanLine) -> bool
    ensures { result ≡ is_lose line.now }
{
    match line {
        PlanLine::Lose { .. } => true,
        _ => false,
    }
}
