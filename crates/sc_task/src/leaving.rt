//! What attempts do by what was computed.
#![tactic(auto)]

ghost use Rattle.std.specs.Prelude.{◌≡◌, All, Some, false};
ghost use Rattle.sc_compute.specs.Asking.{place_taken};
ghost use Rattle.sc_compute.specs.Caching.{IsCachedPart};
ghost use Rattle.sc_compute.specs.Needs.{AreFresh, places_in};
ghost use Rattle.sc_compute.specs.Results.{HandsOver};
ghost use Rattle.sc_compute.specs.Tasks.{Leaves};
ghost use Rattle.sc_compute.specs.declared.targets.TaskOutput.TheVariants.{Output};
ghost use Rattle.sc_lineage.specs.Streams.{whole_stream};
ghost use Rattle.sc_lineage.specs.Targets.{own_value};
ghost use Rattle.sc_net.specs.Reports.{IsWithoutRaise, report_data};
ghost use Rattle.sc_net.specs.Tasks.{blocks_of_task, is_map_task, is_planned, target_of_task};
ghost use Rattle.sc_net.specs.declared.findings.Finding.{Finding};
ghost use Rattle.sc_task.specs.States.{IsMade};
ghost use Rattle.sc_task.specs.Steps.{Computes};

use crate::computed::Computed;
use crate::made::Made;
use crate::took::Did;
use sc_columns::Rows;
use sc_compute::{CachedPart, TaskOutput as Left, TaskResult};
use sc_expr::Raise;
use sc_lineage::Stream;
use sc_net::{Finding, Report, Task};
use sc_shuffle::MapOutput;
use sc_store::Block;
use sc_work::Naming;

/// What an attempt does whose task leaves this, where nothing that it reads raises and the plan
/// doesn't fail it; some partitions were known, and others were computed.
pub(crate) fn did<W: Naming>(
    task: Task<W>,
    left: Left,
    used: Vec<CachedPart>,
    fresh: Vec<CachedPart>,
) -> Did<W>
    requires left { Leaves W.work (target_of_task W.work task) left }
    requires inputs { All (IsWithoutRaise W.work) (blocks_of_task task) }
    requires planned { is_planned W.work task ≡ false }
    requires own { All (IsCachedPart W.work) fresh.items }
    requires fresh { AreFresh W.work (places_in used.items)
        (place_taken W.work (target_of_task W.work task)) (places_in fresh.items) }
    ensures { Computes W.work task used.items result }
{
    match left {
        Left::Output(output) => {
            let made = of_output(&task, output);
            Did::Computed(Computed::new(task, made, used, fresh))
        }
        Left::Raised(raise) => Did::Failed(raised(task, raise)),
        Left::Result(stream) => {
            let Stream { rows, raise } = stream;
            match raise {
                Some(raise) => Did::Failed(raised(task, raise)),
                None => {
                    let made = of_rows(&task, rows);
                    Did::Computed(Computed::new(task, made, used, fresh))
                }
            }
        }
    }
}

/// What a map task makes: its block.
fn of_output<W: Naming>(task: &Task<W>, output: MapOutput) -> Made<W>
    requires left { Leaves W.work (target_of_task W.work task.now) (Output output) }
    ensures { IsMade W.work task.now result }
{
    match task.block() {
        Some(id) => Made::Block(Block::new(id, output)),
        None => unreachable!(),
    }
}

/// What the task of a result makes of its rows: they are a part where its job saves.
fn of_rows<W: Naming>(task: &Task<W>, rows: Rows) -> Made<W>
    requires own { own_value W.work (target_of_task W.work task.now) ≡ whole_stream rows }
    requires result { is_map_task task.now ≡ false }
    ensures { IsMade W.work task.now result }
{
    if task.job().saves(task.work()) {
        Made::Part(rows)
    } else {
        Made::Result(handed_over(task, rows))
    }
}

/// What the task of a result hands over of its rows, which are then let go where their number is
/// all that counts.
fn handed_over<W: Naming>(task: &Task<W>, rows: Rows) -> TaskResult
    requires own { own_value W.work (target_of_task W.work task.now) ≡ whole_stream rows }
    requires result { is_map_task task.now ≡ false }
    ensures { HandsOver W.work (target_of_task W.work task.now) result }
{
    TaskResult::of(task.job().action(task.work()), rows)
}

/// Reports that what a task is to compute raises.
fn raised<W: Naming>(task: Task<W>, raise: Raise) -> Report<W>
    requires own { (own_value W.work (target_of_task W.work task)).raise ≡ Some raise }
    requires inputs { All (IsWithoutRaise W.work) (blocks_of_task task) }
    ensures { result ≡ report_data task (Finding.Raised raise) }
{
    Report::new(task, Finding::Raised(raise))
}
