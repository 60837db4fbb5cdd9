//! What is known of a run that has ended.
#![tactic(auto)]

use crate::reads::{plan_of, text_of};
use crate::tells::Told;
use sc_plan::Plan;
use sc_story::{ScriptText, Track, tracked};
use std::alloc::{AllocError, Global};

/// What a run read, and what the entries of its jobs tell.
#[derive(Drop)]
pub(crate) struct Known {
    /// Its script with its lines, where it read one.
    pub(crate) text: Option<ScriptText>,
    /// Its plan: that without a line where it read none.
    pub(crate) plan: Plan,
    /// What its histories tell.
    pub(crate) track: Track,
}

impl Known {
    /// What is known of a run with so many executors.
    pub(crate) fn of(alloc: Global, told: &Told<'_>, executors: u32) -> Result<Known, AllocError> {
        let plan = plan_of(alloc, told.read, executors)?;
        match tracked(alloc, told.history, &plan) {
            Ok(track) => Known::over(alloc, told, plan, track),
            Err(error) => {
                drop(plan);
                Err(error)
            }
        }
    }

    /// The same where plan and histories are known.
    fn over(alloc: Global, told: &Told<'_>, plan: Plan, track: Track) -> Result<Known, AllocError> {
        match text_of(alloc, told.read) {
            Ok(text) => Ok(Known { text, plan, track }),
            Err(error) => {
                drop(plan);
                drop(track);
                Err(error)
            }
        }
    }
}
