//! What `spark_story` tells: of a run that goes on, of one that has ended, and of a script and a
//! plan that are read without a run.
//!
//! [`split_words`] takes from the words of the process those that `run` doesn't know. Of the words,
//! and of what `run` returned, [`tell`] makes the text that stands behind the line of a status.
//! [`check`] reads the files that words name, and says what it found. While a run goes on,
//! [`Progress`] is told which tasks begin, and makes of it the bars that a terminal shows.
//!
//! The explanations of refusals come from `sc_mistakes` and `sc_misuse`, what a run did from
//! `sc_story`. How a run ended is a [`HowEnded`], since statuses are of `sc_app`, which
//! stands above: the program `spark_story` turns one into the other. Nothing is refused here.
#![tactic(auto)]

mod bars;
mod checks;
mod endings;
mod files;
mod foreseen;
mod known;
mod marks;
mod pages;
mod progress;
mod reads;
mod sizes;
mod tells;
mod words;

pub use bars::blank;
pub use checks::{CheckFinding, Checked};
pub use endings::HowEnded;
pub use files::check;
pub use pages::page;
pub use progress::Progress;
pub use tells::{Told, leaves, tell};
pub use words::{Asked, asks_check, asks_generated, split_words};
