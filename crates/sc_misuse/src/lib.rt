//! What is wrong with words and with fault plans, told so that it can be mended.
//!
//! [`explain_words`] tells more of words that `sc_words` refused, and [`explain_plan`] of a fault
//! plan that `sc_plan` refused: which word it is, what is wanted there, and which name is near.
//! Nothing is refused here: that there is a fault, its line and its kind are what those crates say.
//! Where no word shows it an explanation tells how a line is written, or the program called.
#![tactic(auto)]

mod help;
mod options;
mod plan_words;
mod plans;
mod usage;

pub use help::synopsis;
pub use plans::explain_plan;
pub use usage::explain_words;
