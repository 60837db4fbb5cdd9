//! How often attempts of a partition failed, by why.
#![tactic(auto)]

use crate::again::write_count;
use crate::blamed::Task;
use crate::tracks::Track;
use sc_expr::Raise;
use sc_ids::FailureCause;
use std::alloc::AllocError;

/// How often attempts of a partition failed, by why.
#[derive(Clone, Copy)]
pub(crate) struct Causes {
    planned: u64,
    raised: u64,
    device: u64,
    /// The last raise.
    pub(crate) raise: Option<Raise>,
}

impl Causes {
    /// How often attempts of a task failed.
    pub(crate) fn of(track: &Track, task: Task) -> Causes {
        let mut causes = Causes::none();
        for failure in track.failures.as_slice() {
            if task.has(failure.attempt) {
                causes.add(failure.cause);
            }
        }
        causes
    }

    /// None.
    fn none() -> Causes {
        Causes {
            planned: 0,
            raised: 0,
            device: 0,
            raise: None,
        }
    }

    /// One more.
    fn add(&mut self, cause: FailureCause) {
        match cause {
            FailureCause::Planned => self.planned = self.planned.saturating_add(1),
            FailureCause::Raised(raise) => {
                self.raised = self.raised.saturating_add(1);
                self.raise = Some(raise);
            }
            FailureCause::Device(_) => self.device = self.device.saturating_add(1),
            _ => {}
        }
    }

    /// Writes how often an expression raised, where one did.
    pub(crate) fn write_raises(self, out: &mut String) -> Result<(), AllocError> {
        match self.raise {
            Some(raise) => {
                let name = raise.name();
                out.push_str("    ")?;
                write_count(out, self.raised, "raise")?;
                writeln!(out, " of {name}")
            }
            None => Ok(()),
        }
    }

    /// Writes how many failures were planned, where there are any.
    pub(crate) fn write_planned(self, out: &mut String) -> Result<(), AllocError> {
        write_failures(out, self.planned, "planned failure", "\n")
    }

    /// Writes how many calls on files failed, where there are any.
    pub(crate) fn write_device(self, out: &mut String) -> Result<(), AllocError> {
        write_failures(out, self.device, "failed call", " on files\n")
    }

    /// What may be changed.
    pub(crate) fn advice(self) -> &'static str {
        match self.raise {
            Some(raise) => raise_advice(raise),
            None if self.device > 0 => {
                "  look at the directory: is it writable, and is there room?\n"
            }
            None => "  take failures from the plan, or give --task-failures a greater number\n",
        }
    }
}

/// What may be changed where a row raises so.
fn raise_advice(raise: Raise) -> &'static str {
    match raise {
        Raise::DivideByZero => {
            "  a row raises each time: guard the divisor by `if`, or filter such rows before\n"
        }
        Raise::NotANumber => {
            "  a row raises each time, and no head tests for a number: filter by what stands there,
  or see `A test for \"is a number\"` in docs/COOKBOOK.md\n"
        }
        Raise::OutOfRange => {
            "  a row raises each time: `nth` had a place outside its list, or `int` a number past
  64 bits; guard the place by `if` and `len`, or filter such rows before\n"
        }
    }
}

/// Writes how many failures of a kind there were, where there are any.
fn write_failures(out: &mut String, count: u64, name: &str, end: &str) -> Result<(), AllocError> {
    if count == 0 {
        return Ok(());
    }
    out.push_str("    ")?;
    write_count(out, count, name)?;
    out.push_str(end)
}
