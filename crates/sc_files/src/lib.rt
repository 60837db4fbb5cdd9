//! Directories and files that a run makes.
//!
//! [`Files`] makes directories, writes and renames files, and removes a directory with all that is
//! in it. Each call says how it ended, and each ending but success raises a count of its own: what
//! failed the faults, what was there already or wasn't there the clashes. So a caller that keeps
//! both counts from before a call can show later why it gave up.
//!
//! [`MemFiles`] holds a tree in memory and shows it to contracts; its calls fail where a test wants
//! them to. [`HostFiles`] works on the system's files and shows nothing: no contract can say what a
//! disk holds. What is said of it is which errors of the system count as what, and that a file
//! counts as written only once a writer took all of its bytes and sent them on. Trees and their
//! changes come from `sc_base`, the counts from `sc_ids`, the writer from `sc_sink`.
#![tactic(auto)]

mod files;
mod host;
mod listed;
mod memory;
mod paths;

pub use files::{FileAnswer, Files, MakeAnswer};
pub use host::HostFiles;
pub use memory::MemFiles;
