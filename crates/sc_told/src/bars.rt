//! Stages as bars in a line of a terminal.
#![tactic(auto)]

use sc_ids::StageId;
use std::alloc::{AllocError, Global};

/// How many stages a line shows side by side.
pub(crate) const SHOWN: usize = 2;

/// How many columns a line has.
const WIDTH: usize = 78;

/// A stage, and how far it is.
#[derive(Clone, Copy)]
pub(crate) struct Bar {
    pub(crate) stage: StageId,
    /// How many tasks it has.
    pub(crate) tasks: u32,
    /// How many of them are done.
    pub(crate) done: u32,
    /// How many executors are at it.
    pub(crate) running: u32,
}

impl Bar {
    /// Whether all its tasks are done, and none runs.
    pub(crate) fn is_whole(self) -> bool {
        self.done == self.tasks && self.running == 0
    }

    /// How many of so many columns are filled.
    fn filled(self, room: usize) -> usize {
        let wanted = (room as u64).saturating_mul(u64::from(self.done));
        match wanted.checked_div(u64::from(self.tasks)) {
            Some(filled) => filled as usize,
            None => room,
        }
    }
}

/// What blots out a line, and leaves nothing in its place.
pub fn blank() -> &'static str {
    "\r                                                                              \r"
}

/// Writes a stage, or two side by side, over what a line shows.
pub(crate) fn write_bars(alloc: Global, out: &mut String, bars: &[Bar]) -> Result<(), AllocError> {
    let width = if bars.len() > 1 { WIDTH / SHOWN } else { WIDTH };
    out.push_str("\r")?;
    for bar in bars {
        write_bar(alloc, out, *bar, width)?;
    }
    Ok(())
}

/// Writes a stage in so many columns.
fn write_bar(alloc: Global, out: &mut String, bar: Bar, width: usize) -> Result<(), AllocError> {
    let Bar {
        stage,
        tasks,
        done,
        running,
    } = bar;
    let head = format!(in alloc; "[Stage {stage}:")?;
    let tail = format!(in alloc; "({done} + {running}) / {tasks}]")?;
    let room = width.saturating_sub(head.len()).saturating_sub(tail.len());
    out.push_str(head.as_str())?;
    write_room(out, bar.filled(room), room)?;
    out.push_str(tail.as_str())
}

/// Writes columns, of which the first are filled.
fn write_room(out: &mut String, filled: usize, room: usize) -> Result<(), AllocError> {
    for at in 0..room {
        out.push_str(if at < filled {
            "="
        } else if at == filled {
            ">"
        } else {
            " "
        })?;
    }
    Ok(())
}
