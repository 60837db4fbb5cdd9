//! The page of a run.
#![tactic(auto)]

use crate::known::Known;
use crate::tells::{Told, tell};
use crate::words::Asked;
use sc_base::OrMemory;
use sc_page::{Shown, write_page};
use sc_words::read_words;
use std::alloc::{AllocError, Global};

/// What is told of a run, and its stages and attempts, as a page of HTML.
pub fn page(alloc: Global, asked: &Asked, told: &Told<'_>) -> Result<String, AllocError> {
    let executors = executors_of(alloc, asked.words.as_slice())?;
    let story = tell(alloc, asked, told)?;
    let known = Known::of(alloc, told, executors)?;
    let page = page_over(alloc, told, executors, story.as_str(), &known);
    drop(known);
    page
}

/// How many executors words ask for; where they are no command none.
fn executors_of(alloc: Global, words: &[String]) -> Result<u32, AllocError> {
    match read_words(alloc, words) {
        Ok(command) => {
            let executors = command.limits.executors;
            drop(command);
            Ok(executors)
        }
        Err(OrMemory::Fault(_)) => Ok(0),
        Err(OrMemory::OutOfMemory) => Err(AllocError),
    }
}

/// The page where it is known what the run read and did.
fn page_over(
    alloc: Global,
    told: &Told<'_>,
    executors: u32,
    story: &str,
    known: &Known,
) -> Result<String, AllocError> {
    write_page(
        alloc,
        &Shown {
            told: story,
            history: told.history,
            text: known.text.as_ref(),
            track: &known.track,
            executors,
        },
    )
}
