//! A queue of reports, and its rule: what an executor has pushed comes out once, in order.
//!
//! An executor that has something to report pushes it without the driver's lock, under a pass of
//! its own; whoever has the driver's lock pops. A clause can't name what a shared queue holds,
//! since others push and pop at any moment. So the queue has a rule, [`InOrder`], over what it
//! holds and over what each pass knows: what the driver's pass has popped of an executor, followed
//! by what the queue holds of it, is what that executor's pass has pushed, each once, in order,
//! numbered from 1 on. `specs/Rule.antt` has it, with its four kinds of step: a push, a pop, a pass
//! that is made and one that is joined. Each keeps the rule whatever the other threads do.
//!
//! The driver's pass is the first, and makes those of the executors one after another, so the
//! number of a pass tells whose it is. A [`Poster`] is an executor's side; [`next`], [`is_idle`],
//! [`hire`] and [`join`] are the driver's. Which queue a pass is of is known by a parameter,
//! [`Queued`], which proofs alone know, wherever the pass comes from.
//!
//! It is generic in what is reported, and stands on the kit's `crossbeam_queue` and on `sc_ids`
//! alone.
#![tactic(auto)]

mod drivers;
mod posters;
mod queued;
#[cfg(test)]
mod relays;
mod rules;
#[cfg(test)]
mod tests;

pub use drivers::{hire, is_idle, join, next};
pub use posters::Poster;
pub use queued::Queued;
pub use rules::{Hand, InOrder, Passes, Pops, Posted, Pushes, Queue, QueuePass};
