//! The queue of reports is drained.
#![tactic(auto)]

ghost use Rattle.std.specs.Prelude.{◌≡◌, IfErr, IfOk, None, true};
ghost use Rattle.crossbeam_queue.specs.Passes.{IsPassOf, view};
ghost use Rattle.sc_queue.specs.Rule.{is_driver};
ghost use Rattle.sc_exec.specs.Draining.{Drains, EntersNext, HasMet, HasMetNext, TellsStrange, kept_of};
ghost use Rattle.sc_exec.specs.Lefts.{HasDrained};

use crate::calls::{Delivery, Refused, TooEarly};
use crate::job_desks::JobDesk;
use crate::lefts::Left;
use crate::openings::Opening;
use crate::visits::Witnessed;
use sc_files::Files;
use sc_queue::{Posted, Queue, QueuePass, next};
use sc_work::Naming;
use std::alloc::{AllocError, AllocFailed};
use std::sync::Wait;

/// Why the desk refused a report that was on its way.
#[derive(Clone, Copy, Debug, PartialEq, Eq)]
pub enum Strange {
    /// As not of the task that was given to its attempt.
    Report(Refused),
    /// As speaking of a generation that no wipe has brought yet.
    Early(TooEarly),
}

/// What a drain comes to.
#[derive(Clone, Copy, Debug, PartialEq, Eq)]
pub enum Drained {
    /// The queue was empty, and so many reports were entered.
    All {
        /// How many.
        count: usize,
    },
    /// The desk refused one.
    Strange(Strange),
}

/// Enters the report that is held, and then each that the queue holds, until it is empty. A report
/// whose entry was refused memory is held.
pub(crate) fn drain_into<W: Naming, J: Opening, F: Files, R: Wait>(
    rt: &R,
    queue: &Queue<Witnessed<W>>,
    desk: &mut JobDesk<W, J, F>,
    pass: &mut QueuePass<Witnessed<W>>,
    held: &mut Option<Posted<Witnessed<W>>>,
) -> Result<Drained, AllocError>
    requires pass { IsPassOf queue.now pass.old }
    requires driver { is_driver (view pass.old) ≡ true }
    ensures pass { IsPassOf queue.now pass.new }
    ensures driver { is_driver (view pass.new) ≡ true }
    ensures drains { Drains W.work (kept_of desk.old.desk held.old (view pass.old))
        (kept_of desk.new.desk held.new (view pass.new)) result }
    ensures met { IfOk result HasMet }
{
    let before = desk.desk().entries().len();
    for _ in rt.forever() {
        match next(rt, queue, pass, held) {
            Some(posted) => match enter_next(desk, held, posted) {
                Ok(entered) => match entered {
                    None => {}
                    Some(strange) => return Ok(Drained::Strange(strange)),
                },
                Err(error) => return Err(error),
            },
            None => {
                let count = desk.desk().entries().len() - before;
                return Ok(Drained::All { count });
            }
        }
    }
    unreachable!()
}

/// Enters a report, or tells why the desk refused it. Where memory ran out it is held.
fn enter_next<W: Naming, J: Opening, F: Files>(
    desk: &mut JobDesk<W, J, F>,
    held: &mut Option<Posted<Witnessed<W>>>,
    posted: Posted<Witnessed<W>>,
) -> Result<Option<Strange>, AllocError>
    requires none { held.old ≡ None }
    ensures entered { EntersNext W.work desk.old.desk posted desk.new.desk held.new result }
    ensures met { IfOk result HasMetNext }
{
    let Posted {
        exec,
        number,
        report,
    } = posted;
    match desk.receive(exec, report) {
        Ok(delivery) => Ok(strange_of(delivery)),
        Err(AllocFailed { value: report }) => {
            *held = Some(Posted {
                exec,
                number,
                report,
            });
            Err(AllocError)
        }
    }
}

/// Why the desk refused a report, if it did.
fn strange_of<W: Naming>(delivery: Delivery<W>) -> Option<Strange>
    ensures { TellsStrange delivery result }
{
    match delivery {
        Delivery::Received => None,
        Delivery::Stranger { refused, .. } => Some(Strange::Report(refused)),
        Delivery::Early { early, .. } => Some(Strange::Early(early)),
    }
}

/// How many reports were entered, where all were that were on their way; else why an executor that
/// drained them can't go on.
pub(crate) fn count_of(drained: Result<Drained, AllocError>) -> Result<usize, Left>
    requires met { IfOk drained HasMet }
    ensures hinders { IfErr result HasDrained }
{
    match drained {
        Ok(Drained::All { count }) => Ok(count),
        Ok(Drained::Strange(strange)) => Err(Left::Drained(strange)),
        Err(AllocError) => Err(Left::NoMemory),
    }
}
