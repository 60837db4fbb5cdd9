//! Entries under keys, looked up by a binary search.
#![tactic(auto)]

ghost use Rattle.std.specs.Prelude.{◌≡◌, ◌≤◌, ◌<◌, ◌^◌, ◌+◌, ◌-◌, ◌==◌, IfOk, filter, filter_map, length, min};
ghost use Rattle.std.specs.List.Sorted.{IsSortedBy};
ghost use Rattle.sc_plan.specs.Lookups.{HasShortParts, due_key as key_of_due, entry_in, first_value, is_between, is_lower, place_key, table_of};

use crate::lines::{AttemptPlace, PlanLine};
use sc_ids::ExecId;
use std::alloc::{AllocError, Global};
use std::marker::Model;

/// How many numbers one part of a key may have.
const BASE: u128 = 4_294_967_296;

/// What is looked up in a table.
#[derive(Clone, Copy, Debug, PartialEq, Eq)]
pub(crate) enum Sought {
    /// The attempts that fail, by place.
    Fail,
    /// Those whose reports come late, by place, with the delay.
    Late,
    /// Those whose reports come twice, by place.
    Twice,
    /// The wipes, by executor and by when they are due, with their kind.
    Wipe,
    /// The evictions, by the same, with their kind.
    Evict,
    /// The losses, by executor, with when they are told.
    Loss,
}

/// A number under a key.
#[derive(Clone, Copy, Debug, PartialEq, Eq)]
pub(crate) struct Entry {
    pub key: u128,
    pub value: u32,
}

/// Entries in the order of their keys. Those of one key stand as their lines do.
#[derive(Drop)]
pub(crate) struct Table {
    entries: Vec<Entry>,
}

impl Model for Table {
    ghost use Rattle.std.specs.Prelude.{List};
    ghost use Rattle.std.specs.List.Sorted.{IsSortedBy};
    ghost use Rattle.sc_plan.specs.Lookups.{is_lower};
    ghost use Rattle.sc_plan.specs.declared.lookups.Entry.{Entry};

    ghost Value = { List Entry };

    ghost view = { λ t. t.entries.items };

    ghost invariant = { λ t. IsSortedBy is_lower t.entries.items };
}

/// The key of a place.
pub(crate) fn key_of_place(place: AttemptPlace) -> u128
    ensures key { result ≡ place_key place }
    ensures small { result < 2 ^ 96 }
    ensures parts { HasShortParts place }
{
    (u128::from(place.stage) * BASE + u128::from(place.partition)) * BASE + u128::from(place.nth)
}

/// The key of what is due at an executor.
pub(crate) fn due_key(exec: ExecId, after: u32) -> u128
    ensures key { result ≡ key_of_due exec after }
    ensures small { result < 2 ^ 64 }
{
    u128::from(exec) * BASE + u128::from(after)
}

/// The entry of a line in a table, if it has one there.
fn entry_of(sought: Sought, line: PlanLine) -> Option<Entry>
    ensures { result ≡ entry_in sought line }
{
    let (key, value) = match (sought, line) {
        (Sought::Fail, PlanLine::Fail(place)) => (key_of_place(place), 0),
        (Sought::Late, PlanLine::Late { place, count }) => (key_of_place(place), count),
        (Sought::Twice, PlanLine::Twice(place)) => (key_of_place(place), 0),
        (Sought::Wipe, PlanLine::Drop { exec, after }) => (due_key(exec, after), 0),
        (Sought::Wipe, PlanLine::Lose { exec, after, .. }) => (due_key(exec, after), 1),
        (Sought::Evict, PlanLine::Evict { exec, after }) => (due_key(exec, after), 2),
        (Sought::Loss, PlanLine::Lose { exec, told, .. }) => (u128::from(exec), told),
        _ => return None,
    };
    Some(Entry { key, value })
}

impl Table {
    ghost use Rattle.std.specs.Prelude.{[], nat_lt};

    /// No entries.
    pub(crate) fn empty(alloc: Global) -> Table
        ensures { result ≡ [] }
    {
        Table {
            entries: Vec::new(alloc),
        }
    }

    /// How many entries there are.
    pub(crate) fn len(&self) -> usize
        ensures count { result ≡ length self.now }
        ensures small { result < 2 ^ 63 }
    {
        self.entries.len()
    }

    /// The entries of some lines.
    pub(crate) fn of_lines(
        alloc: Global,
        lines: &[PlanLine],
        sought: Sought,
    ) -> Result<Table, AllocError>
        ensures { IfOk result (λ t. t ≡ table_of sought lines.now) }
    {
        let mut entries = entries_of(alloc, lines, sought)?;
        entries.sort_by(|a, b| a.key.cmp(&b.key))?;
        Ok(Table { entries })
    }

    /// How many entries have a key below one, and so at which place the others begin.
    fn below(&self, key: u128) -> usize
        ensures count { result ≡ length (filter (λ e. nat_lt e.key key) self.now) }
        ensures within { result ≤ length self.now }
    {
        let entries = self.entries.as_slice();
        entries.partition_point(|e| e.key < key)
    }

    /// From where to where the entries lie whose keys are from one up to, not including, another.
    fn places(&self, from: u128, to: u128) -> (usize, usize)
        requires { from ≤ to }
        ensures ordered { result.0 ≤ result.1 }
        ensures within { result.1 ≤ length self.now }
        ensures from { result.0 ≡ length (filter (λ e. nat_lt e.key from) self.now) }
        ensures to { result.1 ≡ length (filter (λ e. nat_lt e.key to) self.now) }
    {
        (self.below(from), self.below(to))
    }

    /// The entries whose keys are from one up to, not including, another.
    pub(crate) fn range(&self, from: u128, to: u128) -> &[Entry]
        requires { from ≤ to }
        ensures { result.now ≡ filter (is_between from to) self.now }
    {
        let (start, end) = self.places(from, to);
        &self.entries.as_slice()[start..end]
    }

    /// The number that the first entry of a key has.
    pub(crate) fn at(&self, key: u128) -> Option<u32>
        requires { key < 2 ^ 96 }
        ensures { result ≡ first_value (filter (λ e. e.key == key) self.now) }
    {
        match self.range(key, key + 1).first() {
            Some(entry) => Some(entry.value),
            None => None,
        }
    }
}

/// The entries of some lines, as the lines stand.
fn entries_of(alloc: Global, lines: &[PlanLine], sought: Sought) -> Result<Vec<Entry>, AllocError>
    ensures { IfOk result (λ v. v.items ≡ filter_map (entry_in sought) lines.now) }
{
    let mut entries = Vec::new(alloc);
    for line in lines {
        match entry_of(sought, *line) {
            Some(entry) => entries.push(entry)?,
            None => {}
        }
    }
    Ok(entries)
}

/// The entries of an executor in a table of what is due at executors.
pub(crate) fn all_at(table: &Table, exec: ExecId) -> &[Entry]
    ensures { result.now ≡ filter (is_between (key_of_due exec 0) (key_of_due (exec + 1) 0))
        table.now }
{
    let from = due_key(exec, 0);
    table.range(from, from + BASE)
}

/// How many entries of an executor are due once so many reports were told.
pub(crate) fn due_at(table: &Table, exec: ExecId, told: u64) -> u64
    ensures { result ≡ length (filter (is_between (key_of_due exec 0)
        (key_of_due exec (min told (2 ^ 32 - 1)) + 1)) table.now) }
{
    let last = told.min(u64::from(u32::MAX)) as u32;
    table.range(due_key(exec, 0), due_key(exec, last) + 1).len() as u64
}
