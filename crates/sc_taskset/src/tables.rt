//! All rows of a set, with what is known of them without a search.
#![tactic(auto)]

ghost use Rattle.std.specs.Prelude.{◌≡◌, ◌≤◌, ◌<◌, ◌+◌, ◌^◌, ◌⊎◌, List, count_by, get_or, false, if◌then◌else◌, length, map, set, slice_get, true};
ghost use Rattle.std.specs.List.{find, list_all, position_or_len};
ghost use Rattle.sc_taskset.specs.Lookups.{is_finish};
ghost use Rattle.sc_taskset.specs.Rooms.{AreFresh, row_partitions};
ghost use Rattle.sc_taskset.specs.Rows.{is_row_of};
ghost use Rattle.sc_taskset.specs.Sound.{AreRising};
ghost use Rattle.sc_taskset.specs.Looks.{words_for};
ghost use Rattle.sc_taskset.specs.Marks.{AreMarked, MarksFit, is_pending_row, is_single_row};
ghost use Rattle.sc_taskset.specs.Paces.{slow_at};
ghost use Rattle.sc_taskset.specs.Tables.{NonePendingBelow, is_copyable_row, is_open_row};

use crate::flags::{next_flag, next_flag_in};
use crate::marks::Marks;
use crate::paces::Pace;
use crate::rows::Row;
use sc_base::Steps;
use sc_ids::ExecId;
use std::marker::{Brand, Model};
use std::sync::ledger::{Blank, Ledger};

/// The rows of a set, by rising partitions.
#[derive(Drop)]
pub struct Table {
    rows: Vec<Row>,
    /// How many of them aren't finished.
    unfinished: usize,
    /// Where the first one stands that is to be handed out, past the end where none is.
    pending: usize,
    /// Which others are to be handed out, and which may be copied.
    marks: Marks,
}

impl Model for Table {
    ghost use Rattle.std.specs.Prelude.{List};
    ghost use Rattle.sc_taskset.specs.declared.rows.Row.{Row};
    ghost use Rattle.sc_taskset.specs.Tables.{IsIndexed};

    ghost Value = { List Row };

    ghost view = { λ t. t.rows.items };

    ghost invariant = { λ t. IsIndexed t.rows.items t.unfinished t.pending t.marks };
}

impl Table {
    /// Rows of which nothing was handed out.
    pub fn new(rows: Vec<Row>, marks: Marks) -> Table
        requires fresh { AreFresh rows.items }
        requires marked { AreMarked marks rows.items }
        requires fit { MarksFit marks (length rows.items) }
        ensures { result ≡ rows.items }
    {
        let unfinished = rows.len();
        Table {
            rows,
            unfinished,
            pending: 0,
            marks,
        }
    }

    /// The rows.
    pub fn as_slice(&self) -> &[Row]
        ensures { result.now ≡ self.now }
    {
        self.rows.as_slice()
    }

    /// Where the row of a partition stands, past the end where there is none.
    pub fn place_of(&self, partition: u32) -> usize
        ensures { result ≡ position_or_len (is_row_of partition) self.now }
    {
        place_in(&self.rows, partition)
    }

    /// The row of a partition.
    pub fn row_of(&self, partition: u32) -> Option<Row>
        ensures { result ≡ find (is_row_of partition) self.now }
    {
        row_at(&self.rows, self.place_of(partition))
    }

    /// The first row that is to be handed out.
    pub fn first_pending(&self) -> Option<Row>
        ensures { result ≡ find is_pending_row self.now }
    {
        row_at(&self.rows, self.pending)
    }

    /// The first row of which a second attempt may run on an executor, at a pace of the set. Only
    /// those are looked at of which one attempt runs alone. A step is a word of marks or a row.
    pub fn first_copyable<L: Ledger>(
        &self,
        exec: ExecId,
        pace: Pace<'_>,
        steps: &mut Steps<L>,
    ) -> Option<Row>
        ensures first { result ≡ find (is_copyable_row (slow_at pace.entry) exec) self.now }
        ensures looked { steps.new
            ≤ steps.old + words_for (length self.now) + count_by is_single_row self.now }
    {
        copyable_in(&self.rows, &self.marks, exec, pace, steps)
    }

    /// Whether all rows are finished.
    pub fn are_finished(&self) -> bool
        ensures { result ≡ list_all (λ r. is_finish r.finish) self.now }
    {
        self.unfinished == 0
    }

    /// Puts a row in the place of another one of its partition.
    pub fn put(&mut self, place: usize, row: Row)
        requires there { place < length self.old }
        requires same { row.partition ≡ (get_or self.old place row).partition }
        ensures { self.new ≡ set self.old place row }
    {
        let old = self.rows[place];
        self.rows[place] = row;
        self.unfinished = recounted(self.unfinished, old, row);
        self.marks.put(place, row);
        let from = lowered(self.pending, place, row.is_pending());
        self.pending = next_pending(&self.rows, &self.marks, from);
    }

    /// The same where it is to be handed out if the other one was. No mark is looked at.
    pub fn put_freed(&mut self, place: usize, row: Row)
        requires there { place < length self.old }
        requires same { row.partition ≡ (get_or self.old place row).partition }
        requires freed { is_pending_row (get_or self.old place row) ≡ true
            → is_pending_row row ≡ true }
        ensures { self.new ≡ set self.old place row }
    {
        let old = self.rows[place];
        self.rows[place] = row;
        self.unfinished = recounted(self.unfinished, old, row);
        self.marks.put(place, row);
        self.pending = lowered(self.pending, place, row.is_pending());
    }
}

/// The row at a place.
fn row_at(rows: &[Row], place: usize) -> Option<Row>
    ensures { result ≡ slice_get rows.now place }
{
    rows.get(place).copied()
}

/// Where the row of a partition stands, past the end where there is none. Where no partition before
/// it is missing, it stands at its number, and none is sought.
fn place_in(rows: &[Row], partition: u32) -> usize
    requires { AreRising (row_partitions rows.now) }
    ensures { result ≡ position_or_len (is_row_of partition) rows.now }
{
    let guess = partition as usize;
    if guess < rows.len() && rows[guess].partition == partition {
        guess
    } else {
        sought_in(rows, partition)
    }
}

/// The same by a search.
fn sought_in(rows: &[Row], partition: u32) -> usize
    requires { AreRising (row_partitions rows.now) }
    ensures { result ≡ position_or_len (is_row_of partition) rows.now }
{
    let place = rows.partition_point(|row| row.partition < partition);
    if place < rows.len() && rows[place].partition == partition {
        place
    } else {
        rows.len()
    }
}

/// A place below which no row is to be handed out, where one was put at another place.
fn lowered(pending: usize, place: usize, is_pending: bool) -> usize
    ensures below { result ≤ pending }
    ensures at { is_pending ≡ true → result ≤ place }
    ensures one { (result ≡ pending) ⊎ ((result ≡ place) × (is_pending ≡ true)) }
{
    if is_pending && place < pending {
        place
    } else {
        pending
    }
}

/// How many rows aren't finished, where one took the place of another.
fn recounted(unfinished: usize, old: Row, new: Row) -> usize
    requires some { is_open_row old ≡ true → 0 < unfinished }
    requires few { is_open_row old ≡ false → unfinished + 1 < 2 ^ 64 }
    ensures { result + (if is_open_row old then 1 else 0)
        ≡ unfinished + (if is_open_row new then 1 else 0) }
{
    let others = if old.is_finished() {
        unfinished
    } else {
        unfinished - 1
    };
    if new.is_finished() {
        others
    } else {
        others + 1
    }
}

/// Where the first row stands that is to be handed out, where none is below a place. It is found by
/// the marks, 64 rows at a time.
fn next_pending(rows: &[Row], marks: &Marks, from: usize) -> usize
    requires marked { AreMarked marks.now rows.now }
    requires fit { MarksFit marks.now (length rows.now) }
    requires there { from ≤ length rows.now }
    requires none { NonePendingBelow rows.now from }
    ensures { result ≡ position_or_len is_pending_row rows.now }
{
    let place = next_flag_in::<Brand>(&marks.pending, from, rows.len(), Blank::new(1));
    if place < rows.len() {
        place
    } else {
        rows.len()
    }
}

/// The first row of which a second attempt may run on an executor, among those that are marked as
/// such of which one attempt runs alone.
fn copyable_in<L: Ledger>(
    rows: &[Row],
    marks: &Marks,
    exec: ExecId,
    pace: Pace<'_>,
    steps: &mut Steps<L>,
) -> Option<Row>
    requires marked { AreMarked marks.now rows.now }
    requires fit { MarksFit marks.now (length rows.now) }
    ensures first { result ≡ find (is_copyable_row (slow_at pace.entry) exec) rows.now }
    ensures looked { steps.new
        ≤ steps.old + words_for (length rows.now) + count_by is_single_row rows.now }
{
    let mut place = next_flag(&marks.single, 0, rows.len(), steps);
    while place < rows.len() {
        steps.tick();
        if rows[place].is_copyable(exec, pace) {
            return Some(rows[place]);
        }
        place = next_flag(&marks.single, place + 1, rows.len(), steps);
    }
    None
}
