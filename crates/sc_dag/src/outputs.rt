//! Which partitions of a stage are done.
#![tactic(auto)]

ghost use Rattle.std.specs.Prelude.{◌≡◌, ◌<◌, [], All, false};
ghost use Rattle.sc_base.specs.Lists.{at_or};
ghost use Rattle.sc_taskset.specs.Rooms.{room_of};
ghost use Rattle.sc_taskset.specs.Sound.{AreRising};
ghost use Rattle.sc_taskset.specs.TaskSetData.{fresh_set, partitions_of};
ghost use Rattle.sc_tracker.specs.Tracking.{is_bogus};
ghost use Rattle.sc_dag.specs.Outputs.{is_complete_by, is_done_by, missing_by};
ghost use Rattle.sc_dag.specs.Rows.{all_have_results};
ghost use Rattle.sc_dag.specs.Submission.{held_by, is_map, new_set};

use sc_ids::{BlockId, Epoch, Limits, Loc, Stage, Target};
use sc_taskset::{SetRoom, TaskSet};
use sc_tracker::Tracker;

/// Whether a stage is one of map tasks.
pub(crate) fn is_map(target: Target) -> bool
    ensures { result ≡ is_map target }
{
    match target {
        Target::Map(_) => true,
        Target::Result { .. } => false,
    }
}

/// Whether an output at this location, by a task of this epoch, may be lost already.
pub(crate) fn is_bogus(tracker: &Tracker, loc: Loc, epoch: Epoch) -> bool
    ensures { result ≡ is_bogus tracker.now loc epoch }
{
    let is_old = loc.generation < tracker.seen(loc.exec);
    match tracker.mark(loc.exec) {
        Some(mark) => epoch <= mark || is_old,
        None => is_old,
    }
}

/// Whether a partition is done: its map output is registered, or it has a result.
pub(crate) fn is_done(tracker: &Tracker, target: Target, results: &[bool], partition: u32) -> bool
    ensures { result ≡ is_done_by tracker.now target results.now partition }
{
    match target {
        Target::Map(shuffle) => {
            let block = BlockId {
                shuffle,
                map: partition,
            };
            tracker.output(block).here.is_some()
        }
        Target::Result { .. } => is_flagged(results, partition),
    }
}

/// Whether the first so many partitions have a result.
pub(crate) fn all_have_results(results: &[bool], tasks: u32) -> bool
    ensures { result ≡ all_have_results results.now tasks }
{
    (0..tasks).all(|k| is_flagged(results, k))
}

/// Whether the flag of a partition is set.
fn is_flagged(flags: &[bool], partition: u32) -> bool
    ensures { result ≡ at_or flags.now partition false }
{
    match flags.get(partition as usize) {
        Some(flag) => *flag,
        None => false,
    }
}

/// The task set of a new attempt, in the room that there is for it: the partitions that aren't
/// done, with those held back that were. It takes no memory.
pub(crate) fn new_set(
    room: SetRoom,
    stage: &Stage,
    tracker: &Tracker,
    results: &[bool],
    held: &[bool],
    limits: Limits,
) -> TaskSet
    requires room { room ≡ room_of [] stage.now.tasks }
    requires incomplete { is_complete_by tracker.now stage.now results.now ≡ false }
    ensures { result ≡ new_set tracker.now limits stage.now results.now held.now }
{
    let set = missing_set(room, stage, tracker, results, limits);
    hold_flagged(set, held, stage.tasks())
}

/// A task set with those of its tasks held back that flags say, where none was before.
fn hold_flagged(set: TaskSet, held: &[bool], tasks: u32) -> TaskSet
    requires rising { AreRising (partitions_of set) }
    requires within { All (λ t. t.partition < tasks) set.tasks }
    requires free { All (λ t. t.denied ≡ false) set.tasks }
    ensures { result ≡ held_by held.now set }
{
    let mut set = set;
    for k in 0..tasks {
        if is_flagged(held, k) {
            set.held(k, true);
        }
    }
    set
}

/// The task set of the partitions that aren't done, none of which is held back. It takes no memory.
fn missing_set(
    room: SetRoom,
    stage: &Stage,
    tracker: &Tracker,
    results: &[bool],
    limits: Limits,
) -> TaskSet
    requires room { room ≡ room_of [] stage.now.tasks }
    requires incomplete { is_complete_by tracker.now stage.now results.now ≡ false }
    ensures { result ≡ fresh_set (missing_by tracker.now stage.now results.now)
        (is_map stage.now.target) limits tracker.now.epoch }
{
    let mut room = room;
    for k in 0..stage.tasks() {
        if !is_done(tracker, stage.target(), results, k) {
            room.hold(k);
        }
    }
    room.begin(is_map(stage.target()), limits, tracker.epoch())
}
