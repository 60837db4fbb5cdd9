//! Task sets: the tasks of one attempt of a stage, which of them is handed out next, and when the
//! stage has failed too often. Spark calls this TaskSetManager.
//!
//! A [`TaskSet`] has a task for each partition that was missing when its stage was submitted.
//! [`TaskSet::peek`] says which partition is next for an executor, and [`TaskSet::give`] hands it
//! out; what comes of it is told by [`TaskSet::succeeded`], [`TaskSet::ended`], [`TaskSet::failed`]
//! and [`TaskSet::executor_lost`], and whether the partition is to wait for a commit by
//! [`TaskSet::held`]. A set that is finished, or is told so by [`TaskSet::zombie`], is a zombie: it
//! hands out nothing more, but its attempts go on. A [`SetRoom`] is the memory of a set that begins
//! later, so that it can begin where none may be wanted.
//!
//! Contracts see a set as the record `TaskSetData` of `specs/TaskSetData.antt`, with one entry for
//! each of its tasks; each call is a function on that record in `specs/Offers.antt` or
//! `specs/Reports.antt`, and `specs/Sound.antt` has what every set keeps. A call about a partition
//! that the set doesn't have, or an attempt that doesn't run, changes nothing. Only what hands out
//! and what begins may want memory. An offer and a loss count what they look at, in the words of
//! `specs/Looks.antt`: a loss looks at no task of another executor.
//!
//! It stands on `sc_ids` and on `sc_spec`, which says when an attempt is slow. It knows nothing of
//! outputs, grants and other sets of its stage.
#![tactic(auto)]

mod changes;
mod copies;
mod flags;
mod laws;
mod listed;
mod lists;
mod losses;
mod marks;
mod notes;
mod paces;
mod rooms;
mod rows;
mod scans;
mod tables;
mod task_sets;
mod tasks;

pub use laws::{hand_outs_keep_account, zombies_offer_nothing};
pub use rooms::SetRoom;
pub use task_sets::TaskSet;
pub use tasks::{Finish, GivenTask, RunningCopy, Verdict};
