//! Reading: a run's script, its fault plan and its inputs from a source, with a record of what was
//! read.
//!
//! [`read_file`] asks for one name, once, and says why it gave no bytes. [`read_script`] reads and
//! parses a script, and [`read_plan`] a fault plan, where one is named. [`read_work`] reads the
//! inputs that the script names, in the order in which it names them first, tests each for UTF-8
//! and finds its lines, by as many threads as there are executors, and puts script, inputs and plan
//! together as a `Work`. Room for what a read gives is taken before the source is asked, so the
//! list of [`Read`]s holds exactly what it gave, whatever ends the reading.
//!
//! Contracts see what the source was asked for and which of its counts rose. Where a source shows
//! neither, they speak of the bytes that it gave alone. Sources come from `sc_input`, the grammars
//! from `sc_script` and `sc_plan`, a work from `sc_lineage`; `sc_app` calls it.
#![tactic(auto)]

mod files;
mod inputs;
mod naming;
mod plans;
mod reads;
mod scripts;
mod stops;
mod works;

pub use files::read_file;
pub use plans::read_plan;
pub use reads::{Read, Role};
pub use scripts::read_script;
pub use stops::{InputStop, PlanStop, ScriptStop, Unreadable};
pub use works::read_work;
