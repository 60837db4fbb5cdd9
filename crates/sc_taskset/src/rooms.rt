//! Room for a task set, taken before it begins.
#![tactic(auto)]

ghost use Rattle.std.specs.Prelude.{◌≡◌, ◌<◌, ◌++◌, ◌-◌, ◌∷◌, [], IfOk, length};
ghost use Rattle.std.specs.List.{All};
ghost use Rattle.sc_taskset.specs.Rooms.{room_of};
ghost use Rattle.sc_taskset.specs.Sound.{AreRising};
ghost use Rattle.sc_taskset.specs.TaskSetData.{fresh_set};

use crate::listed::ListedRows;
use crate::lists::Lists;
use crate::marks::Marks;
use crate::rows::{Failure, Row};
use crate::tables::Table;
use crate::task_sets::TaskSet;
use sc_ids::{Epoch, Limits};
use std::alloc::{AllocError, Global};
use std::marker::Model;

/// The memory of a task set that is to begin. Who can want memory makes it; who can't then names
/// its partitions and begins the set.
#[derive(Drop)]
pub struct SetRoom {
    rows: Vec<Row>,
    marks: Marks,
    lists: Lists,
    failures: Vec<Failure>,
    durations: Vec<u64>,
}

impl Model for SetRoom {
    ghost use Rattle.std.specs.Prelude.{◌≡◌, ◌-◌, [], vec_capacity, vec_len};
    ghost use Rattle.sc_taskset.specs.Marks.{AreMarked, MarksFit};
    ghost use Rattle.sc_taskset.specs.Rooms.{AreFresh, RoomData, room_of, row_partitions};

    ghost Value = { RoomData };

    ghost view = { λ r. room_of (row_partitions r.rows.items)
        (vec_capacity r.rows - vec_len r.rows) };

    ghost invariant = { λ r. AreFresh r.rows.items × (r.failures.items ≡ [])
        × (r.durations.items ≡ []) × (r.lists.places.items ≡ []) × AreMarked r.marks r.rows.items
        × MarksFit r.marks (vec_capacity r.rows) };
}

impl SetRoom {
    /// Room for a set of so many tasks.
    pub fn new(alloc: Global, tasks: usize) -> Result<SetRoom, AllocError>
        ensures { IfOk result (λ r. r ≡ room_of [] tasks) }
    {
        let rows = Vec::with_capacity(alloc, tasks)?;
        let marks = Marks::new(alloc, tasks)?;
        Ok(SetRoom {
            rows,
            marks,
            lists: Lists::new(alloc),
            failures: Vec::new(alloc),
            durations: Vec::new(alloc),
        })
    }

    /// Names a partition that the set is to have, above those named before. It takes no memory.
    pub fn hold(&mut self, partition: u32)
        requires above { All (λ q. q < partition) self.old.partitions }
        requires spare { 0 < self.old.spare }
        ensures { self.new
            ≡ room_of (self.old.partitions ++ partition ∷ []) (self.old.spare - 1) }
    {
        let row = Row::new(partition);
        self.marks.put(self.rows.len(), row);
        self.rows.push_reserved(row);
    }

    /// The set of the partitions that were named, of which nothing was handed out. It takes no
    /// memory.
    pub fn begin(self, is_map: bool, limits: Limits, born: Epoch) -> TaskSet
        requires { 0 < length self.partitions }
        ensures { result ≡ fresh_set self.partitions is_map limits born }
    {
        TaskSet {
            rows: ListedRows::new(Table::new(self.rows, self.marks), self.lists),
            failures: self.failures,
            durations: self.durations,
            is_map,
            is_zombie: false,
            limits,
            born,
        }
    }
}

impl TaskSet {
    /// A set of these partitions, of which nothing was handed out. It takes memory for all that it
    /// is told later, but for what a hand-out takes.
    pub fn begin(
        alloc: Global,
        partitions: &[u32],
        is_map: bool,
        limits: Limits,
        born: Epoch,
    ) -> Result<TaskSet, AllocError>
        requires rising { AreRising partitions.now }
        requires some { 0 < length partitions.now }
        ensures { IfOk result (λ s. s ≡ fresh_set partitions.now is_map limits born) }
    {
        let mut room = SetRoom::new(alloc, partitions.len())?;
        for partition in partitions {
            room.hold(*partition);
        }
        Ok(room.begin(is_map, limits, born))
    }
}
