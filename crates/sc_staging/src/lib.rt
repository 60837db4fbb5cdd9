//! The files of one job that saves, while its attempts write.
//!
//! [`Staging::open`] makes the directory of a save and its staging area, and refuses one that is
//! there. An attempt writes its part there ([`Staging::write_part`]) and gives it the name of a
//! committed part once it is granted ([`Staging::rename_part`]). A call on the files that fails is
//! told with all counts from before and after it. At the end the staging is given up: the job is
//! committed or aborted, or only the files are handed back.
//!
//! Contracts see the directory and what the files show (`specs/StagingData.antt`). Each call is one
//! relation from the old files to the new ones. Which file of an attempt stands is no part of that:
//! who keeps a list of what attempts did has it by the laws of `specs/Laws.antt`, up to what a
//! commit leaves. Names, commits and their laws come from `sc_output`, files from `sc_files`. The
//! crate knows no scheduler and no journal.
#![tactic(auto)]

mod ends;
mod laws;
mod opening;
mod outputs;
mod parts;
mod renewal;
mod staging;

pub use ends::Ended;
pub use laws::{laws_of_files, laws_of_saves, laws_of_ways};
pub use opening::Opened;
pub use outputs::Output;
pub use parts::Written;
pub use renewal::Renewed;
pub use staging::Staging;
