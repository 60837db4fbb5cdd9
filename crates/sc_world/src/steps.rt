//! The steps of a world.
#![tactic(auto)]

use sc_core::{Answer, SideAnswer};
use sc_ids::{ExecId, Loc};
use sc_plan::Order;
use sc_store::WipeAnswer;

/// One step of a world: what happens, and on which executor.
#[derive(Clone, Copy, Debug, PartialEq, Eq)]
pub enum Step {
    /// An executor asks for a task.
    Take {
        /// The executor.
        exec: ExecId,
    },
    /// Its attempt reads the next block.
    Read {
        /// The executor.
        exec: ExecId,
    },
    /// Its attempt has read all, and computes.
    Compute {
        /// The executor.
        exec: ExecId,
    },
    /// Its attempt puts the block that it has computed.
    Put {
        /// The executor.
        exec: ExecId,
    },
    /// Its attempt, which is one of a save, writes its part.
    Stage {
        /// The executor.
        exec: ExecId,
    },
    /// It asks whether it may commit.
    Ask {
        /// The executor.
        exec: ExecId,
    },
    /// It moves its part to where it counts.
    Move {
        /// The executor.
        exec: ExecId,
    },
    /// Its attempt reports.
    Post {
        /// The executor.
        exec: ExecId,
    },
    /// A report is told that was to be told later.
    Release {
        /// Its key.
        key: u32,
    },
    /// An executor is told lost.
    TellLost {
        /// The executor.
        exec: ExecId,
    },
    /// The time is entered.
    Tick {
        /// The time, in milliseconds.
        now: u64,
    },
    /// A store is wiped.
    Wipe(Order),
    /// A store lets its least recently used cached block go.
    Evict {
        /// The executor.
        exec: ExecId,
    },
    /// The order of the fault plan that comes next is handed out, if one is due.
    NextOrder,
}

/// How much an executor's store keeps of what its attempt has computed of cache nodes.
#[derive(Clone, Copy, Debug, PartialEq, Eq)]
pub enum Kept {
    /// All of it.
    All,
    /// The first of it, and not all, since memory ran out.
    Short,
}

/// What a step answers.
#[derive(Drop)]
pub enum Applied {
    /// What the scheduler answered.
    Told(Answer),
    /// What the scheduler answered to what an attempt of a save did, or to the time.
    Noted(SideAnswer),
    /// How much was kept of what was computed.
    Computed(Kept),
    /// Where a block was put.
    Put(Loc),
    /// What the store answered to a wipe.
    Wipe(WipeAnswer),
    /// Which order was handed out, if one was due.
    Ordered(Option<Order>),
    /// It was done, and there is nothing to tell.
    Done,
    /// It isn't enabled, and nothing has changed.
    NotEnabled,
}
