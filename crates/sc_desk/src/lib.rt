//! The driver's desk: one job of a work while it runs, under the work's fault plan.
//!
//! A [`Desk`] hands tasks out and receives reports. [`Desk::begin`] plans the job of a goal behind
//! what is passed on from the jobs before, [`Desk::take`] gives an executor a task, [`Desk::post`]
//! takes a report in, and [`Desk::close`] gives the history, the results and what is passed on to
//! the next job. Each of these calls is one event of the scheduler's core, and enters what was
//! answered into the journal; what is refused for want of memory enters nothing. Results come with
//! reports, and are kept where the core finishes their partition.
//!
//! A report whose attempt runs but whose task isn't the one that was given is a stranger, and one
//! that speaks of a generation that no wipe has brought yet is early; both are handed back. One
//! that the fault plan delays, and the second copy of one that it doubles, stand on the shelf until
//! [`Desk::release`] hands them to the core. By [`Desk::tell_lost`] the core learns that an
//! executor is lost. [`Desk::due_report`], [`Desk::due_loss`] and [`Desk::due_order`] say which
//! report, which loss, and which wipe or eviction the plan wants next; each order comes once in a
//! run, when it is due ([`orders_are_due`]).
//!
//! An executor that can't go on leaves ([`Desk::leave`]); nobody gets a task then. That takes no
//! memory: room for it is kept from the beginning on.
//!
//! In a job that saves, an attempt that comes next writes its part ([`Desk::stage_part`]) and gives
//! it its committed name ([`Desk::move_part`]). Which files of attempts stand is told by the
//! journal, up to the winners ([`files_go_on`]).
//!
//! Contracts see a desk as the record `DeskData` of `specs/DeskData.antt`. What holds of every desk
//! stands in `specs/Sound.antt`: the results are those of the work that `W` stands for, they are
//! there exactly where the core says so, the shelf has the reports that the core still waits for,
//! and each failure that was posted has its evidence. The desk computes nothing and holds no block.
//! Below it lie `sc_core`, `sc_jobs`, `sc_net` and `sc_staging`.
#![tactic(auto)]

mod asides;
mod begins;
mod closes;
mod desks;
mod dues;
mod journals;
mod laws;
mod leaves;
mod orders;
mod passes;
mod posts;
mod receipts;
mod restarts;
mod saving;
mod shelves;
mod takes;
mod tellings;

pub use closes::Closed;
pub use desks::Desk;
pub use laws::{files_go_on, jobs_begin_again, orders_are_due};
pub use orders::{Ordered, Orders};
pub use passes::Passed;
pub use posts::Posted;
pub use receipts::{Noted, Receipt};
pub use restarts::Again;
pub use takes::{Logged, Taken};
