//! A run: from the words of the command line to the printed text.
//!
//! [`run`] reads the script and the fault plan that the words name and the inputs that the script
//! names, or makes those of a workload, evaluates the script's actions in order, and writes the
//! text of each to the sink. Its contract is the promise of the whole program: a run that is done
//! has written exactly the text of the script's sequential meaning over the inputs that it read,
//! and saved exactly its directories, and every other [`Status`] comes only with its cause, and
//! with what then stands. `specs/Promises.antt` has that on two pages.
//!
//! The executors of a job are threads, which are joined before `run` answers; `logs` and `gave_up`
//! of its answer tell what they did. The command comes from `sc_words`, what is read from
//! `sc_read`, and the actions are run and printed by `sc_print`; the program that calls it is
//! `spark_run`.
#![tactic(auto)]

mod command;
mod ran;
mod scripts;
mod stops;
mod texts;
mod workloads;

pub use command::run;
pub use ran::{Ran, Status};
pub use texts::fault_text;
