//! The queue and its rule.
#![tactic(auto)]

use crossbeam_queue::protocol::{Join, Lesson, Outcome, Protocol, Split};
use crossbeam_queue::{Pass, RuledArrayQueue};
use sc_ids::ExecId;
use std::collections::LinkedList;

/// A report on its way.
#[derive(Drop)]
pub struct Posted<T> {
    /// Whose it is.
    pub exec: ExecId,
    /// Which of its reports, from 1 on.
    pub number: u64,
    /// The report.
    pub report: T,
}

/// What a pass of the queue knows. No value of it is made.
pub enum Hand<T> {
    /// An executor's: its number, and what it has pushed.
    Executor(ExecId, LinkedList<Posted<T>>),
    /// The driver's: how many passes it made, what it has popped, and what each executor, from the
    /// first on, had pushed when its pass was joined.
    Driver(u32, LinkedList<Posted<T>>, LinkedList<LinkedList<Posted<T>>>),
    /// One that was joined.
    Spent,
}

/// What an executor has pushed comes out once, in order.
pub struct InOrder;

impl<T> Protocol<Posted<T>, Hand<T>> for InOrder {
    ghost use Rattle.std.specs.Prelude.{[]};
    ghost use Rattle.sc_queue.specs.declared.rules.Hand.TheVariants.{Driver};
    ghost use Rattle.sc_queue.specs.Rule.{AreInOrder};

    ghost holds = { AreInOrder };

    ghost first = { Driver 0 [] [] };
}

/// An executor pushes a report.
pub struct Pushes;

impl<T> Outcome<Posted<T>, Hand<T>> for Pushes {
    ghost use Rattle.sc_queue.specs.Rule.{Pushed};

    ghost then = { Pushed };
}

impl<T> Lesson<Posted<T>, Hand<T>> for Pushes {
    ghost use Rattle.std.specs.Prelude.{⊤};

    ghost fact = { λ v items. ⊤ };
}

/// The driver pops a report.
pub struct Pops;

impl<T> Outcome<Posted<T>, Hand<T>> for Pops {
    ghost use Rattle.sc_queue.specs.Rule.{Popped};

    ghost then = { Popped };
}

impl<T> Lesson<Posted<T>, Hand<T>> for Pops {
    ghost use Rattle.sc_queue.specs.Rule.{IsDelivered};

    ghost fact = { IsDelivered };
}

/// The driver makes the pass of an executor, or joins it.
pub struct Passes;

impl<T> Split<Hand<T>> for Passes {
    ghost use Rattle.sc_queue.specs.Rule.{next_executor, one_more};

    ghost left = { one_more };

    ghost right = { next_executor };
}

impl<T> Join<Hand<T>> for Passes {
    ghost use Rattle.sc_queue.specs.declared.rules.Hand.TheVariants.{Spent};
    ghost use Rattle.sc_queue.specs.Rule.{joined_by};

    ghost both = { joined_by };

    ghost spent = { Spent };
}

/// A queue of reports.
pub type Queue<T> = RuledArrayQueue<Posted<T>, Hand<T>, InOrder>;

/// A pass of one.
pub type QueuePass<T> = Pass<Posted<T>, Hand<T>>;
