//! All rows of a set, with the places of those of each executor.
#![tactic(auto)]

ghost use Rattle.std.specs.Prelude.{◌≡◌, ◌≤◌, ◌<◌, ◌+◌, List, OnErr, OnOk, count_by, get_or, length, map, set};
ghost use Rattle.std.specs.List.{find, list_all, position_or_len};
ghost use Rattle.sc_taskset.specs.declared.rows.Failure.{Failure};
ghost use Rattle.sc_taskset.specs.Lists.{AreListed, IsOnFewer, IsOnOneMore, is_row_on};
ghost use Rattle.sc_taskset.specs.Lookups.{is_finish};
ghost use Rattle.sc_taskset.specs.Looks.{words_for};
ghost use Rattle.sc_taskset.specs.Marks.{is_pending_row, is_single_row};
ghost use Rattle.sc_taskset.specs.Paces.{slow_at};
ghost use Rattle.sc_taskset.specs.Reports.{lost_task};
ghost use Rattle.sc_taskset.specs.Rows.{is_row_of, tasks_of};
ghost use Rattle.sc_taskset.specs.Tables.{is_copyable_row};

use crate::lists::Lists;
use crate::losses::lose_listed;
use crate::paces::Pace;
use crate::rows::Row;
use crate::tables::Table;
use sc_base::Steps;
use sc_ids::ExecId;
use std::alloc::AllocError;
use std::marker::Model;
use std::sync::ledger::Ledger;

/// The rows of a set, by rising partitions, and where those of each executor stand.
#[derive(Drop)]
pub struct ListedRows {
    table: Table,
    lists: Lists,
}

impl Model for ListedRows {
    ghost use Rattle.std.specs.Prelude.{List};
    ghost use Rattle.sc_taskset.specs.Lists.{AreListed};
    ghost use Rattle.sc_taskset.specs.declared.rows.Row.{Row};

    ghost Value = { List Row };

    ghost view = { λ r. r.table };

    ghost invariant = { λ r. AreListed r.lists r.table };
}

impl ListedRows {
    /// Rows of which the places are known.
    pub fn new(table: Table, lists: Lists) -> ListedRows
        requires { AreListed lists table }
        ensures { result ≡ table }
    {
        ListedRows { table, lists }
    }

    /// The rows.
    pub fn as_slice(&self) -> &[Row]
        ensures { result.now ≡ self.now }
    {
        self.table.as_slice()
    }

    /// Where the row of a partition stands, past the end where there is none.
    pub fn place_of(&self, partition: u32) -> usize
        ensures { result ≡ position_or_len (is_row_of partition) self.now }
    {
        self.table.place_of(partition)
    }

    /// The row of a partition.
    pub fn row_of(&self, partition: u32) -> Option<Row>
        ensures { result ≡ find (is_row_of partition) self.now }
    {
        self.table.row_of(partition)
    }

    /// The first row that is to be handed out.
    pub fn first_pending(&self) -> Option<Row>
        ensures { result ≡ find is_pending_row self.now }
    {
        self.table.first_pending()
    }

    /// The first row of which a second attempt may run on an executor, at a pace of the set. A step
    /// is a word of marks or a row.
    pub fn first_copyable<L: Ledger>(
        &self,
        exec: ExecId,
        pace: Pace<'_>,
        steps: &mut Steps<L>,
    ) -> Option<Row>
        ensures first { result ≡ find (is_copyable_row (slow_at pace.entry) exec) self.now }
        ensures looked { steps.new
            ≤ steps.old + words_for (length self.now) + count_by is_single_row self.now }
    {
        self.table.first_copyable(exec, pace, steps)
    }

    /// Whether all rows are finished.
    pub fn are_finished(&self) -> bool
        ensures { result ≡ list_all (λ r. is_finish r.finish) self.now }
    {
        self.table.are_finished()
    }

    /// Puts a row in the place of another one of its partition, where it is on no more executors.
    pub fn put(&mut self, place: usize, row: Row)
        requires there { place < length self.old }
        requires same { row.partition ≡ (get_or self.old place row).partition }
        requires fewer { IsOnFewer (get_or self.old place row) row }
        ensures { self.new ≡ set self.old place row }
    {
        let before = self.table.as_slice()[place];
        self.lists.leave(place, before, row);
        self.table.put(place, row);
    }

    /// Puts a row in the place of another one of its partition, where it is on one executor more. A
    /// refused call changes nothing.
    pub fn hand(&mut self, place: usize, row: Row, exec: ExecId) -> Result<(), AllocError>
        requires there { place < length self.old }
        requires same { row.partition ≡ (get_or self.old place row).partition }
        requires more { IsOnOneMore exec (get_or self.old place row) row }
        ensures handed { OnOk result (self.new ≡ set self.old place row) }
        ensures refused { OnErr result (self.new ≡ self.old) }
    {
        if !self.table.as_slice()[place].is_on(exec) {
            self.lists.add(exec, place)?;
        }
        self.table.put(place, row);
        Ok(())
    }

    /// Takes an executor's attempts, and what was finished there where that is to be done again. A
    /// step is a row that is looked at: each of those that are on the executor, and no other.
    pub fn lose<L: Ledger>(&mut self, exec: ExecId, redoes: bool, steps: &mut Steps<L>)
        ensures rows { (failures : List Failure) → tasks_of failures self.new
            ≡ map (lost_task exec redoes) (tasks_of failures self.old) }
        ensures looked { steps.new ≤ steps.old + count_by (is_row_on exec) self.old }
    {
        if (exec as usize) < self.lists.places.len() {
            let places = &mut self.lists.places[exec as usize];
            lose_listed(&mut self.table, places, exec, redoes, steps);
        }
    }
}
