//! A run as one page of HTML: the graph of its stages, and a time line of its attempts.
//!
//! [`write_page`] makes the page of what `run` returned. It asks nothing of a network and holds no
//! script: what can be seen is drawn as SVG, and what an entry says stands where the pointer rests.
//!
//! The jobs, stages and reasons come from `sc_story`, the entries from `sc_core`. Nothing here runs
//! or refuses anything; that a page has what a run did is tested by `tools/check_story.py`.
#![tactic(auto)]

mod bars;
mod graphs;
mod losses;
mod pages;
mod texts;
mod times;

pub use pages::{Shown, write_page};
