//! What several crates say in common.
//!
//! [`OrMemory`] is how a call is refused: with a fault of its own, or for want of memory, which no
//! clause ties to a cause. `specs/Answers.antt` has the two words by which a contract holds such an
//! answer to what was to be found. `specs/Outside.antt` has what the outside of a run shows before
//! and after a call: the files that a source holds and the names that it was asked for, the pieces
//! that a sink took, and how often each of them failed. `specs/Counts.antt` says when such a count
//! rose, `specs/Trees.antt` what directories and files are, and `specs/Saves.antt` what a save
//! leaves of them. `specs/Lists.antt` has the words on lists that the definitions above share.
//! `proofs/Gathering.antt` carries every loop that gathers results up to the first that stops it.
//! [`Steps`] counts what a call looks at, so that a contract can bound it; it takes no bytes.
//!
//! It stands below every other crate, and knows nothing of values, scripts or runs.
#![tactic(auto)]

mod limits;
mod refusals;
mod steps;

pub use limits::COUNT_LIMIT;
pub use refusals::OrMemory;
pub use steps::Steps;
