//! A job on executor threads, and how it went.
//!
//! Threads lock the desk of a job one after another, and of a value under a lock no more is known
//! than what its type says. So a [`JobDesk`], which is the desk with the files of the job, has a
//! parameter, an [`Opening`] that stands for how the job began, which proofs alone know: whoever
//! takes the desk and the files out of their lock knows of which job they are, and the journal
//! tells all that happened since, to the files too.
//!
//! An executor makes each call in step with its log (`ExecLog` of `sc_logs`): the log takes room
//! first, then the desk is called, and then the log has the same entry as the journal, marked with
//! the executor. Room for one entry more is kept, so that it can always leave. `specs/Logging.antt`
//! has each call as a relation from both to both.
//!
//! Reports go another way where another executor has the desk. Its lock isn't waited for: the
//! report is pushed into a queue that has none, and whoever locks the desk next drains the queue
//! before all else. A [`Helm`], which is what lies behind the lock, has the pass that pops. In its
//! next turn the executor logs its Post, read off the journal (`specs/Sending.antt`,
//! `specs/Draining.antt`, `specs/Receipts.antt`).
//!
//! [`work_job`] has a thread for each [`Worker`]. They share a [`Driver`], which is the locked helm
//! with its bell and the queue, and the stores, each behind a lock of its own. Turn by turn an
//! executor tells what is due, gets an order or a task and does it ([`work_loop`]); what it reads
//! and leaves lies in stores, and only what it reports, or the part of a save, goes to the desk. At
//! the end its log tells why it takes no more tasks ([`Left`]), and [`judge`] says by all how the
//! job went.
//!
//! `proofs/Crossing.antt` shows that threads may share a driver, and stores behind locks, for any
//! work: down to rows and values, whose types know nothing of threads. Below lie `sc_queue`,
//! `sc_desk`, `sc_task`, `sc_logs`, `sc_store` and `sc_staging`.
#![tactic(auto)]

mod attempts;
mod begins;
mod calls;
mod crews;
mod drains;
mod driver;
mod gates;
mod helms;
mod job_desks;
mod leaves;
mod lefts;
mod openings;
mod performing;
mod places;
mod posting;
mod receipts;
mod savers;
mod saving;
mod tellings;
mod threads;
mod ticks;
mod turns;
mod verdicts;
mod visits;
mod work;
mod workers;

pub use calls::{Delivery, Refused, TooEarly};
pub use crews::{Member, dismiss, enlist};
pub use drains::{Drained, Strange};
pub use driver::Driver;
pub use gates::{Gate, OpenGate};
pub use helms::Helm;
pub use job_desks::JobDesk;
pub use lefts::{Left, Stranger};
pub use openings::Opening;
pub use places::{Misplaced, Stores};
pub use threads::work_job;
pub use verdicts::{Verdict, judge};
pub use visits::{Absence, Witnessed};
pub use work::work_loop;
pub use workers::{Worker, into_logs};
