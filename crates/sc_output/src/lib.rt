//! The output of a save: what its files are called, what stands in them, and how a job commits.
//!
//! An attempt writes its part under a name of its own in the staging area, and renames it there
//! once it is granted to commit. When all partitions are done, [`commit_job`] renames the file of
//! each partition's winner to its final name, removes the staging area, and writes an empty
//! `_SUCCESS`. A job that gives up has its staging area removed by [`abort_job`]. The first call on
//! the files that fails ends either of them, and the answer has its path.
//!
//! Contracts see a commit as a list of calls (`specs/Calls.antt`), of which all were done, or those
//! before one that failed. What a commit that was through leaves is one equation of trees
//! (`specs/Saved.antt`). Names are flat bytes: that they differ, and what lies under what, is in
//! `specs/NameLaws.antt`. Files come from `sc_files`, attempts from `sc_ids`, printed rows from
//! `sc_columns`. Who has won is known above.
#![tactic(auto)]

mod commits;
mod laws;
mod names;
mod parts;

pub use commits::{abort_job, commit_job};
pub use laws::{is_within_types, laws_of_commits, laws_of_names};
pub use names::{committed_name, final_name, staged_name, staging_name, success_name};
pub use parts::part_text;
