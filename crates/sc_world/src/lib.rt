//! The world of a job: the desk, the stores of its executors, and the attempts that they have out.
//!
//! A [`World`] goes on by steps ([`Step`]), in any order: an executor takes a task, its attempt
//! reads block by block, computes, puts what it has computed and reports; one of a save writes its
//! part instead, asks whether it may commit, and gives it its committed name. Reports that were
//! delayed reach the driver, the driver learns that an executor is lost, stores are wiped by orders
//! of the fault plan or let cached blocks go. [`World::apply`] does any step that is enabled, and
//! changes nothing where one isn't; each step is a call of its own too. [`World::serial`] runs the
//! job to its end on one thread.
//!
//! The files of the job are no part of a world: each call that may use them is handed them, and
//! keeps them as its journal tells (`specs/Files.antt`).
//!
//! Contracts see a world as the record `WorldData` of `specs/WorldData.antt`, and
//! `specs/Steps.antt` says what each step does. What holds of every world stands in
//! `specs/Sound.antt`, and a world keeps it by its type, so it holds after every list of steps: a
//! block that an attempt fetches lies where the attempt was sent, as far as that store wasn't wiped
//! since, and no report is a stranger to the desk.
#![tactic(auto)]

mod among;
mod applying;
mod going;
mod laws;
mod places;
mod saves;
mod saving;
mod serial;
mod stepping;
mod steps;
mod ticks;
mod turns;
mod worlds;

pub use laws::{entries_are_the_drivers, reports_move_trackers, worlds_stay_sound};
pub use places::AttemptState;
pub use steps::{Applied, Kept, Step};
pub use worlds::{NoRoom, World};
