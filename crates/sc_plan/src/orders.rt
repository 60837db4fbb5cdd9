//! Wipes, evictions and losses.
#![tactic(auto)]

ghost use Rattle.std.specs.Prelude.{◌≡◌};
ghost use Rattle.sc_plan.specs.Lookups.{kind_coded};

use crate::lookups::{all_at, due_at};
use crate::plans::Plan;
use sc_ids::ExecId;

/// By which kind of line something is ordered.
#[derive(Clone, Copy, Debug, PartialEq, Eq)]
pub enum OrderKind {
    /// A wipe.
    Drop,
    /// A wipe of an executor that is told lost later.
    Lose,
    /// An eviction.
    Evict,
}

/// One wipe or one eviction of a plan.
#[derive(Clone, Copy, Debug, PartialEq, Eq)]
pub struct Order {
    /// The executor.
    pub exec: ExecId,
    /// Its number among the wipes of the executor or among its evictions, from 1: by when they are
    /// due, and then by line. After a wipe it is the generation of the store.
    pub number: u32,
    /// By which kind of line.
    pub kind: OrderKind,
}

impl Plan {
    ghost use Rattle.std.specs.Prelude.{◌≡◌, ◌≤◌, ◌*◌, Some, length};
    ghost use Rattle.sc_plan.specs.Limits.{lines_limit};
    ghost use Rattle.sc_plan.specs.Orders.{due_count, evicts_of, loss_of, nth_order, planned_losses, wipes_of};

    /// How many wipes of an executor there are.
    pub fn wipes(&self, exec: ExecId) -> u64
        ensures count { result ≡ length (wipes_of self.now exec) }
        ensures few { result ≤ lines_limit }
    {
        all_at(&self.wipes, exec).len() as u64
    }

    /// How many wipes of an executor are due once so many reports were told.
    pub fn due_wipes(&self, exec: ExecId, told: u64) -> u64
        ensures count { result ≡ due_count (wipes_of self.now exec) told }
        ensures few { result ≤ lines_limit }
    {
        due_at(&self.wipes, exec, told)
    }

    /// The wipe of an executor that has a number.
    pub fn wipe_order(&self, exec: ExecId, number: u32) -> Order
        requires from_one { 1 ≤ number }
        requires known_number { number ≤ length (wipes_of self.now exec) }
        ensures { nth_order exec number (wipes_of self.now exec) ≡ Some result }
    {
        let entry = all_at(&self.wipes, exec)[number as usize - 1];
        Order {
            exec,
            number,
            kind: kind_of(entry.value),
        }
    }

    /// How many evictions at an executor there are.
    pub fn evicts(&self, exec: ExecId) -> u64
        ensures count { result ≡ length (evicts_of self.now exec) }
        ensures few { result ≤ lines_limit }
    {
        all_at(&self.evicts, exec).len() as u64
    }

    /// How many evictions at an executor are due once so many reports were told.
    pub fn due_evicts(&self, exec: ExecId, told: u64) -> u64
        ensures count { result ≡ due_count (evicts_of self.now exec) told }
        ensures few { result ≤ lines_limit }
    {
        due_at(&self.evicts, exec, told)
    }

    /// The eviction at an executor that has a number.
    pub fn evict_order(&self, exec: ExecId, number: u32) -> Order
        requires from_one { 1 ≤ number }
        requires known_number { number ≤ length (evicts_of self.now exec) }
        ensures { nth_order exec number (evicts_of self.now exec) ≡ Some result }
    {
        let entry = all_at(&self.evicts, exec)[number as usize - 1];
        Order {
            exec,
            number,
            kind: kind_of(entry.value),
        }
    }

    /// How many reports are told before an executor is told lost, and None where it isn't.
    pub fn loss(&self, exec: ExecId) -> Option<u64>
        ensures { result ≡ loss_of self.now exec }
    {
        match self.told_lost(exec) {
            Some(told) => Some(u64::from(told)),
            None => None,
        }
    }

    /// How often outputs of executors are forgotten at most: once for each wipe, and once more for
    /// each executor that is told lost.
    pub fn planned_losses(&self) -> u64
        ensures count { result ≡ planned_losses self.now }
        ensures few { result ≤ 2 * lines_limit }
    {
        self.wipes.len() as u64 + self.losses.len() as u64
    }

    /// How many reports are told before an executor is told lost, in 32 bits.
    fn told_lost(&self, exec: ExecId) -> Option<u32>
        ensures { result ≡ loss_of self.now exec }
    {
        self.losses.at(u128::from(exec))
    }
}

/// What a number in a table of orders stands for.
fn kind_of(value: u32) -> OrderKind
    ensures { result ≡ kind_coded value }
{
    match value {
        0 => OrderKind::Drop,
        1 => OrderKind::Lose,
        _ => OrderKind::Evict,
    }
}
