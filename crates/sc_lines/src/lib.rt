//! The lines of a text, found by threads.
//!
//! [`lines_by`] finds what `lines` of `sc_value` finds, by as many threads as are wanted, and tests
//! that the bytes are text meanwhile. A large text is halved behind a line feed, each half again,
//! as often as there are threads for it, and what is found in the halves is put together. Below are
//! `sc_value` and `sc_base`.
#![tactic(auto)]

mod halves;
mod lines;

pub use lines::lines_by;
