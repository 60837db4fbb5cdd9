//! The tasks of a stage that are done.
#![tactic(auto)]

use std::alloc::{AllocError, Global};

/// How many tasks a stage has, and which of them are done.
#[derive(Drop)]
pub(crate) struct Marks {
    tasks: u32,
    marks: Vec<bool>,
    done: u32,
}

impl Marks {
    /// A stage of so many tasks, none of which is done.
    pub(crate) fn new(alloc: Global, tasks: u32) -> Marks {
        Marks {
            tasks,
            marks: Vec::new(alloc),
            done: 0,
        }
    }

    /// How many tasks there are.
    pub(crate) fn tasks(&self) -> u32 {
        self.tasks
    }

    /// How many of them are done.
    pub(crate) fn done(&self) -> u32 {
        self.done
    }

    /// Makes room for a mark of each task.
    pub(crate) fn make_room(&mut self) -> Result<(), AllocError> {
        for _ in self.marks.len()..self.tasks as usize {
            self.marks.push(false)?;
        }
        Ok(())
    }

    /// The task of a partition is done.
    pub(crate) fn mark(&mut self, partition: u32) {
        let at = partition as usize;
        if at < self.marks.len() && !self.marks[at] {
            self.marks[at] = true;
            self.done = self.done.saturating_add(1);
        }
    }

    /// The task of a partition isn't done, or no more.
    pub(crate) fn unmark(&mut self, partition: u32) {
        let at = partition as usize;
        if at < self.marks.len() && self.marks[at] {
            self.marks[at] = false;
            self.done = self.done.saturating_sub(1);
        }
    }

    /// The stage is over: there are no more tasks than those that are done.
    pub(crate) fn settle(&mut self) {
        self.tasks = self.done;
    }
}
