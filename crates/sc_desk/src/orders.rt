//! Which orders of a fault plan were handed out.
#![tactic(auto)]

ghost use Rattle.std.specs.Prelude.{◌≡◌, IfOk, Some, replicate};
ghost use Rattle.sc_desk.specs.Orders.{ComesNext, after_order, counted, next_number, no_orders, order_behind, ordered_at};

use sc_ids::ExecId;
use sc_plan::{Order, OrderKind, Plan};
use std::alloc::{AllocError, Global};
use std::marker::Model;

/// How many orders of a fault plan were handed out at an executor.
#[derive(Clone, Copy, Debug, PartialEq, Eq)]
pub struct Ordered {
    /// How many wipes.
    pub wipes: u32,
    /// How many evictions.
    pub evicts: u32,
}

/// How many orders of a fault plan were handed out in the run so far, by executor.
#[derive(Drop)]
pub struct Orders {
    given: Vec<Ordered>,
}

impl Model for Orders {
    ghost use Rattle.std.specs.Prelude.{◌<◌, ◌^◌, List, length};
    ghost use Rattle.sc_desk.specs.Orders.{orders_code};
    ghost use Rattle.sc_desk.specs.declared.orders.Ordered.{Ordered};

    ghost Value = { List Ordered };

    ghost coded = { orders_code };

    ghost view = { λ o. o.given.items };

    ghost invariant = { λ o. length o.given.items < 2 ^ 32 };
}

impl Orders {
    /// No order was handed out at any of so many executors.
    pub fn new(alloc: Global, executors: u32) -> Result<Orders, AllocError>
        ensures { IfOk result (λ o. o ≡ replicate executors no_orders) }
    {
        let mut given = Vec::with_capacity(alloc, executors as usize)?;
        for _ in 0..executors {
            given.push(Ordered {
                wipes: 0,
                evicts: 0,
            })?;
        }
        Ok(Orders { given })
    }

    /// A copy.
    pub fn copied(&self, alloc: Global) -> Result<Orders, AllocError>
        ensures { IfOk result (λ o. o ≡ self.now) }
    {
        let given = self.given.as_slice().to_vec(alloc)?;
        Ok(Orders { given })
    }

    /// The order that comes next once so many reports were told, if one is due. It counts as handed
    /// out from now on.
    pub fn next(&mut self, plan: &Plan, told: u64) -> Option<Order>
        ensures next { ComesNext plan.now told self.old result }
        ensures counted { self.new ≡ after_order self.old result }
    {
        let order = self.first_due(plan, told);
        if let Some(order) = order {
            self.count(order);
        }
        order
    }

    /// The order that comes next, at the first executor where one is due.
    fn first_due(&self, plan: &Plan, told: u64) -> Option<Order>
        ensures { ComesNext plan.now told self.now result }
    {
        for exec in 0..self.given.len() {
            if let Some(order) = order_behind(plan, told, exec as u32, self.given[exec]) {
                return Some(order);
            }
        }
        None
    }

    /// One order more was handed out.
    fn count(&mut self, order: Order)
        requires { order.number ≡ next_number order.kind (ordered_at self.old order.exec) }
        ensures { self.new ≡ after_order self.old (Some order) }
    {
        let exec = order.exec as usize;
        if exec < self.given.len() {
            self.given[exec] = counted(self.given[exec], order);
        }
    }
}

/// How many orders were handed out, and one more.
fn counted(given: Ordered, order: Order) -> Ordered
    requires { order.number ≡ next_number order.kind given }
    ensures { result ≡ counted order.kind given }
{
    match order.kind {
        OrderKind::Drop | OrderKind::Lose => Ordered {
            wipes: order.number,
            ..given
        },
        OrderKind::Evict => Ordered {
            evicts: order.number,
            ..given
        },
    }
}

/// The next order at an executor, of which so many were handed out, where one is due.
fn order_behind(plan: &Plan, told: u64, exec: ExecId, given: Ordered) -> Option<Order>
    ensures { result ≡ order_behind plan.now told exec given }
{
    if u64::from(given.wipes) < plan.due_wipes(exec, told) {
        Some(plan.wipe_order(exec, given.wipes + 1))
    } else if u64::from(given.evicts) < plan.due_evicts(exec, told) {
        Some(plan.evict_order(exec, given.evicts + 1))
    } else {
        None
    }
}
