//! Where an attempt is in the blocks that it reads.
#![tactic(auto)]

ghost use Rattle.std.specs.Prelude.{◌≡◌, ◌∷◌, ◌++◌, [], IfSome, None, Some};
ghost use Rattle.std.specs.List.{flat_map};
ghost use Rattle.sc_jobs.specs.JobData.{blocks_left, parents_in, stage_in};
ghost use Rattle.sc_dag.specs.Outputs.{block_of};
ghost use Rattle.sc_net.specs.Tasks.{blocks_of_task, stage_of_task};
ghost use Rattle.sc_task.specs.Cursors.{IsPlace, blocks_behind, blocks_from};

use sc_ids::{BlockId, ShuffleId, StageId, Target};
use sc_net::Task;
use sc_work::Naming;

/// The next block that an attempt reads, which is one of a shuffle's. Behind the blocks of that
/// shuffle come those of the parents behind its stage.
#[derive(Clone, Copy)]
pub(crate) struct Cursor {
    /// The shuffle.
    pub shuffle: ShuffleId,
    /// The map partition.
    pub map: u32,
    /// How many blocks of the shuffle are left, this one among them.
    pub left: u32,
    /// The place of the next parent among those of the task's stage.
    pub parent: usize,
}

impl Cursor {
    /// The block.
    pub(crate) fn block(&self) -> BlockId
        ensures { result ≡ block_of self.now.shuffle self.now.map }
    {
        BlockId {
            shuffle: self.shuffle,
            map: self.map,
        }
    }

    /// The first block that a task reads, where it reads one.
    pub(crate) fn first<W: Naming>(task: &Task<W>) -> Option<Cursor>
        ensures all { blocks_from task.now result ≡ blocks_of_task task.now }
        ensures place { IfSome result IsPlace }
    {
        first_from(task, 0)
    }

    /// The block behind this one, where there is one.
    pub(crate) fn next<W: Naming>(self, task: &Task<W>) -> Option<Cursor>
        requires place { IsPlace self }
        ensures behind { block_of self.shuffle self.map ∷ blocks_from task.now result
            ≡ blocks_from task.now (Some self) }
        ensures place { IfSome result IsPlace }
    {
        if self.left == 1 {
            return first_from(task, self.parent);
        }
        Some(Cursor {
            shuffle: self.shuffle,
            map: self.map + 1,
            left: self.left - 1,
            parent: self.parent,
        })
    }
}

/// The first block of the parents from a place on, where they have one.
fn first_from<W: Naming>(task: &Task<W>, from: usize) -> Option<Cursor>
    ensures all { blocks_from task.now result ≡ blocks_behind task.now from }
    ensures place { IfSome result IsPlace }
{
    let parents = parents_of(task);
    for k in from..parents.len() {
        if let Some(cursor) = first_of(task, parents[k], k + 1) {
            return Some(cursor);
        }
    }
    None
}

/// The first block that a stage leaves, where it leaves one; behind its blocks come those of the
/// parents from a place on.
fn first_of<W: Naming>(task: &Task<W>, stage: StageId, parent: usize) -> Option<Cursor>
    ensures all { IfSome result (λ c. blocks_from task.now (Some c)
        ≡ blocks_left (stage_in task.now.job.graph stage) ++ blocks_behind task.now parent) }
    ensures none { result ≡ None → blocks_left (stage_in task.now.job.graph stage) ≡ [] }
    ensures place { IfSome result IsPlace }
{
    let Some(stage) = task.job().stage(stage) else {
        return None;
    };
    let left = stage.tasks();
    match stage.target() {
        Target::Map(shuffle) if left > 0 => Some(Cursor {
            shuffle,
            map: 0,
            left,
            parent,
        }),
        _ => None,
    }
}

/// The stages whose blocks a task reads.
pub(crate) fn parents_of<W: Naming>(task: &Task<W>) -> &[StageId]
    ensures { result.now ≡ parents_in (stage_of_task task.now) }
{
    match task.job().stage(task.attempt().stage) {
        Some(stage) => stage.parents(),
        None => &[],
    }
}
