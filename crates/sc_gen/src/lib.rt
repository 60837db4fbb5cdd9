//! A workload that is generated: lines of a word and a number, and a script over them.
//!
//! [`workload`] makes lines as `k6 758`, by a linear congruential generator, so a seed and a size
//! name the same bytes everywhere. [`Generated`] is a source of two files that are made and not
//! read: these lines, and a script that sums the numbers of each word, prints the sums in the order
//! of the words, and counts the lines. What the bytes are stands in `specs/Workload.antt` and
//! `specs/Script.antt`. A run over them is a run like any other.
#![tactic(auto)]

mod generated;
mod lines;

pub use generated::{Generated, gen_script};
pub use lines::workload;
