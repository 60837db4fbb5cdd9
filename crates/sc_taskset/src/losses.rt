//! What becomes of the rows of an executor that is lost.
#![tactic(auto)]

ghost use Rattle.std.specs.Prelude.{◌≡◌, ◌+◌, List, length, map};
ghost use Rattle.sc_taskset.specs.declared.rows.Failure.{Failure};
ghost use Rattle.sc_taskset.specs.Lists.{IsListOf, is_row_on};
ghost use Rattle.sc_taskset.specs.Reports.{lost_task};
ghost use Rattle.sc_taskset.specs.Rows.{tasks_of};

use crate::tables::Table;
use sc_base::Steps;
use sc_ids::ExecId;
use std::sync::ledger::Ledger;

/// Takes an executor's attempts from the rows at its places, and what was finished there where that
/// is to be done again. Only the rows that are still on it keep their places. A step is a row that
/// is looked at.
pub fn lose_listed<L: Ledger>(
    table: &mut Table,
    places: &mut Vec<usize>,
    exec: ExecId,
    redoes: bool,
    steps: &mut Steps<L>,
)
    requires { IsListOf places.old.items (map (is_row_on exec) table.old) }
    ensures rows { (failures : List Failure) → tasks_of failures table.new
        ≡ map (lost_task exec redoes) (tasks_of failures table.old) }
    ensures listed { IsListOf places.new.items (map (is_row_on exec) table.new) }
    ensures looked { steps.new ≡ steps.old + length places.old.items }
{
    let mut at = places.len();
    while 0 < at {
        at -= 1;
        steps.tick();
        let place = places[at];
        let row = table.as_slice()[place].lost(exec, redoes);
        table.put_freed(place, row);
        if !row.is_on(exec) {
            places.remove(at);
        }
    }
}
