//! Attempts that have read all.
#![tactic(auto)]

ghost use Rattle.std.specs.Prelude.{◌≡◌, [], All, IfErr, IfOk, vec_len};
ghost use Rattle.sc_compute.specs.Caching.{IsOwnPart};
ghost use Rattle.sc_net.specs.Tasks.{target_of_task};
ghost use Rattle.sc_task.specs.Caches.{TakesCached};
ghost use Rattle.sc_task.specs.States.{HasReadAll, assigned_data, read_data};
ghost use Rattle.sc_task.specs.Steps.{Computes};

use crate::assigned::Assigned;
use crate::caching::known_of;
use crate::computing::left_by;
use crate::leaving::did;
use crate::took::Did;
use sc_compute::CachedPart;
use sc_net::{Finding, Report, Task};
use sc_shuffle::MapOutput;
use sc_store::Store;
use sc_work::Naming;
use std::alloc::{AllocError, AllocFailed, Global};
use std::marker::Model;

/// An attempt that has read all blocks of its task.
#[derive(Drop)]
pub struct Read<W: Naming> {
    task: Task<W>,
    /// What was read.
    got: Vec<MapOutput>,
    /// The partitions of cache nodes that were taken from a store, nearest to the target first.
    known: Vec<CachedPart>,
}

impl<W: Naming> Model for Read<W> {
    ghost use Rattle.std.specs.Prelude.{All, vec_len};
    ghost use Rattle.sc_compute.specs.Caching.{IsOwnPart};
    ghost use Rattle.sc_task.specs.States.{HasReadAll, ReadData, read_code, read_data};

    ghost Value = { ReadData };

    ghost coded = { read_code };

    ghost view = { λ r. read_data r.task (vec_len r.got) r.known.items };

    ghost invariant = { λ r. HasReadAll W.work r.task r.got.items
        × All (IsOwnPart W.work) r.known.items };
}

impl<W: Naming> Read<W> {
    /// An attempt that has read all, and has taken nothing from a store yet.
    pub(crate) fn new(alloc: Global, task: Task<W>, got: Vec<MapOutput>) -> Read<W>
        requires all { HasReadAll W.work task got.items }
        ensures { result ≡ read_data task (vec_len got) [] }
    {
        Read {
            task,
            got,
            known: Vec::new(alloc),
        }
    }

    /// The task.
    pub fn task(&self) -> &Task<W>
        ensures { result.now ≡ self.now.task }
    {
        &self.task
    }

    /// The attempt as it was when it had read the last block.
    pub fn reading(self) -> Assigned<W>
        ensures { result ≡ assigned_data self.task self.got }
    {
        let Read { task, got, .. } = self;
        Assigned::done(task, got)
    }

    /// Takes the partitions of cache nodes that it needs from the store of its executor, each that
    /// the store has. Nothing is computed meanwhile, and nothing copied. A refused call changes
    /// nothing and hands the attempt back.
    pub fn cached(self, alloc: Global, store: &Store<W>) -> Result<Read<W>, AllocFailed<Read<W>>>
        ensures takes { IfOk result (λ r. TakesCached W.work (target_of_task W.work self.task)
            store.now r.known) }
        ensures rest { IfOk result (λ r. r ≡ read_data self.task self.got r.known) }
        ensures back { IfErr result (λ failed. failed.value ≡ self) }
    {
        match known_of(alloc, &self.task, self.got.as_slice(), store) {
            Ok(known) => {
                let Read { task, got, .. } = self;
                Ok(Read { task, got, known })
            }
            Err(_) => Err(AllocFailed { value: self }),
        }
    }

    /// Computes what the task is to compute from what was read, which is all, and from what was
    /// taken from a store, unless the fault plan fails the attempt. A refused call changes nothing
    /// and hands the attempt back.
    pub fn compute(self, alloc: Global) -> Result<Did<W>, AllocFailed<Read<W>>>
        ensures did { IfOk result (Computes W.work self.task self.known) }
        ensures back { IfErr result (λ failed. failed.value ≡ self) }
    {
        if self.task.is_planned() {
            let Read { task, .. } = self;
            return Ok(Did::Failed(Report::new(task, Finding::Planned)));
        }
        match left_by(
            alloc,
            &self.task,
            self.got.as_slice(),
            self.known.as_slice(),
        ) {
            Ok((left, fresh)) => {
                let Read { task, known, .. } = self;
                Ok(did(task, left, known, fresh))
            }
            Err(_) => Err(AllocFailed { value: self }),
        }
    }
}
