//! The words of the command line.
//!
//! [`read_words`] gives the [`Command`] that the words ask for, or [`Usage`] exactly where `clap`
//! refuses them, a call for help included. `specs/Program.antt` has the command line as what `clap`
//! reads of it. `sc_app`, which stands on this crate, sees a command and knows nothing of `clap`.
//! The limits that a command may set come from `sc_ids`.
#![tactic(auto)]

mod commands;
mod laws;
mod program;
mod words;

pub use commands::{Command, Usage, Workload};
pub use laws::{flag_asks_for_copies, names_are_commands};
pub use words::read_words;
