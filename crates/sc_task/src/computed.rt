//! Attempts that have computed what they are to compute.
#![tactic(auto)]

ghost use Rattle.std.specs.Prelude.{◌≡◌, [], All, IfErr, IfOk, OnErr, OnOk, false, true};
ghost use Rattle.sc_compute.specs.Caching.{IsCachedPart};
ghost use Rattle.sc_ids.specs.Failures.{HasRisen};
ghost use Rattle.sc_jobs.specs.JobData.{saves};
ghost use Rattle.sc_net.specs.Reports.{loc_at, report_data};
ghost use Rattle.sc_net.specs.Tasks.{is_map_task, is_planned};
ghost use Rattle.sc_net.specs.declared.findings.Finding.{Finding};
ghost use Rattle.sc_store.specs.Storing.{Puts};
ghost use Rattle.sc_task.specs.Caches.{IsSameButCache, KeepsEach, KeepsSome};
ghost use Rattle.sc_task.specs.States.{IsMade, IsOfPart, IsPartText, computed_data, saver_data, stored_data};
ghost use Rattle.sc_task.specs.Steps.{PutsOwn};
ghost use Rattle.sc_compute.specs.declared.results.TaskResult.{TaskResult};

use crate::keeping::keep_all;
use crate::made::Made;
use crate::saving::Staged;
use crate::stored::Stored;
use sc_compute::{CachedPart, TaskResult};
use sc_ids::{Fault, Loc};
use sc_net::{Finding, Report, Task};
use sc_output::part_text;
use sc_store::{Block, PutReceipt, Store};
use sc_work::Naming;
use std::alloc::{AllocError, AllocFailed, Global};
use std::marker::Model;

/// An attempt that has computed what its task is to compute, without a raise.
#[derive(Drop)]
pub struct Computed<W: Naming> {
    task: Task<W>,
    made: Made<W>,
    /// The partitions that were taken from a store.
    used: Vec<CachedPart>,
    /// The partitions of cache nodes that were computed.
    fresh: Vec<CachedPart>,
}

impl<W: Naming> Model for Computed<W> {
    ghost use Rattle.std.specs.Prelude.{◌≡◌, All, false};
    ghost use Rattle.sc_compute.specs.Caching.{IsCachedPart};
    ghost use Rattle.sc_net.specs.Tasks.{is_planned};
    ghost use Rattle.sc_task.specs.States.{ComputedData, IsMade, computed_code, computed_data};

    ghost Value = { ComputedData };

    ghost coded = { computed_code };

    ghost view = { λ c. computed_data c.task c.used.items c.fresh.items };

    ghost invariant = { λ c. IsMade W.work c.task c.made × (is_planned W.work c.task ≡ false)
        × All (IsCachedPart W.work) c.fresh.items };
}

impl<W: Naming> Computed<W> {
    /// What a task makes, and the partitions that were taken and computed for it.
    pub(crate) fn new(
        task: Task<W>,
        made: Made<W>,
        used: Vec<CachedPart>,
        fresh: Vec<CachedPart>,
    ) -> Computed<W>
        requires made { IsMade W.work task made }
        requires planned { is_planned W.work task ≡ false }
        requires own { All (IsCachedPart W.work) fresh.items }
        ensures { result ≡ computed_data task used.items fresh.items }
    {
        Computed {
            task,
            made,
            used,
            fresh,
        }
    }

    /// The task.
    pub fn task(&self) -> &Task<W>
        ensures { result.now ≡ self.now.task }
    {
        &self.task
    }

    /// Keeps the partitions of cache nodes that were computed in the store of its executor, one
    /// after another. Those that were taken from there become the most recently used before. A
    /// refused call has kept the first of them alone, and not all, and hands the attempt back.
    pub fn keep(self, store: &mut Store<W>) -> Result<Computed<W>, AllocFailed<Computed<W>>>
        ensures kept { IfOk result (λ c. c ≡ computed_data self.task [] []) }
        ensures keeps { OnOk result (KeepsEach self.used self.fresh store.old store.new) }
        ensures refused { OnErr result (KeepsSome self.used self.fresh store.old store.new) }
        ensures rest { IsSameButCache store.old store.new }
        ensures back { IfErr result (λ failed. failed.value ≡ self) }
    {
        let Computed {
            task,
            made,
            mut used,
            mut fresh,
        } = self;
        match keep_all(store, used.as_slice(), fresh.as_slice()) {
            Ok(()) => {
                used.clear();
                fresh.clear();
                Ok(Computed::new(task, made, used, fresh))
            }
            Err(_) => Err(AllocFailed {
                value: Computed::new(task, made, used, fresh),
            }),
        }
    }

    /// Puts the block of a map task into a store. A refused call changes nothing and hands the
    /// attempt back.
    pub fn put(self, store: &mut Store<W>) -> Result<Stored<W>, AllocFailed<Computed<W>>>
        requires map { is_map_task self.task ≡ true }
        ensures stored { IfOk result (λ s. s
            ≡ stored_data self.task (loc_at store.old.exec store.old.generation)) }
        ensures puts { OnOk result (PutsOwn W.work self.task store.old store.new) }
        ensures refused { OnErr result (store.new ≡ store.old) }
        ensures back { IfErr result (λ failed. failed.value ≡ self) }
    {
        let Computed {
            task,
            made,
            used,
            fresh,
        } = self;
        let Made::Block(block) = made else {
            unreachable!();
        };
        let exec = store.exec();
        match put_share(store, &block) {
            Ok(PutReceipt { generation }) => Ok(Stored::new(task, Loc { exec, generation })),
            Err(_) => Err(AllocFailed {
                value: Computed::new(task, Made::Block(block), used, fresh),
            }),
        }
    }

    /// Reports what is handed over of a result, where the job doesn't save.
    pub fn result(self) -> Report<W>
        requires result { is_map_task self.task ≡ false }
        requires unsaved { saves W.work self.task.job.goal ≡ false }
        ensures { (given : TaskResult)
            × (result ≡ report_data self.task (Finding.Result given)) }
    {
        let Computed { task, made, .. } = self;
        match made {
            Made::Result(given) => Report::new(task, Finding::Result(given)),
            Made::Block(_) | Made::Part(_) => unreachable!(),
        }
    }

    /// The text of the part of a save: its rows, a line each.
    pub fn part_text(&self, alloc: Global) -> Result<Vec<u8>, AllocError>
        requires part { IsOfPart W.work self.now.task }
        ensures { IfOk result (λ text. IsPartText W.work self.now.task text.items) }
    {
        match &self.made {
            Made::Part(rows) => part_text(alloc, rows),
            Made::Block(_) | Made::Result(_) => unreachable!(),
        }
    }

    /// The attempt once its part is written.
    pub fn staged(self) -> Staged<W>
        requires part { IsOfPart W.work self.task }
        ensures { result ≡ saver_data self.task }
    {
        let Computed { task, made, .. } = self;
        match made {
            Made::Part(_) => Staged::new(task),
            Made::Block(_) | Made::Result(_) => unreachable!(),
        }
    }

    /// Reports that the call on the files failed that was to write its part.
    pub fn device(self, fault: Fault) -> Report<W>
        requires part { IsOfPart W.work self.task }
        requires risen { HasRisen fault }
        ensures { result ≡ report_data self.task (Finding.Device fault) }
    {
        let Computed { task, .. } = self;
        Report::new(task, Finding::Device(fault))
    }
}

/// Puts a share of a block into a store. A refused call changes nothing.
fn put_share<W: Naming>(store: &mut Store<W>, block: &Block<W>) -> Result<PutReceipt, AllocError>
    ensures receipt { IfOk result (λ r. r.generation ≡ store.old.generation) }
    ensures puts { OnOk result (Puts store.old block.now store.new) }
    ensures refused { OnErr result (store.new ≡ store.old) }
{
    store.put(block.share()?)
}
