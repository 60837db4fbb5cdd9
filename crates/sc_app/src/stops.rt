//! The statuses that the parts of a run end with.
#![tactic(auto)]

ghost use Rattle.std.specs.Prelude.{◌≡◌};
ghost use Rattle.sc_app.specs.Statuses.{is_missing, status_of_input, status_of_plan, status_of_print, status_of_script};

use crate::ran::Status;
use sc_base::OrMemory;
use sc_print::PrintFault;
use sc_read::{InputStop, PlanStop, ScriptStop, Unreadable};
use sc_value::Name;

/// The status where there is no script under this name.
pub(crate) fn status_of_script(name: Name, stop: OrMemory<ScriptStop>) -> Status
    ensures { result ≡ status_of_script name stop }
{
    match stop {
        OrMemory::Fault(ScriptStop::Faulty(fault)) => Status::Script(fault),
        OrMemory::Fault(ScriptStop::Unreadable(why)) => unreadable(name, why),
        OrMemory::OutOfMemory => Status::OutOfMemory,
    }
}

/// The status where there is no plan.
pub(crate) fn status_of_plan(stop: OrMemory<PlanStop>) -> Status
    ensures { result ≡ status_of_plan stop }
{
    match stop {
        OrMemory::Fault(PlanStop::Unreadable { name, why }) => unreadable(name, why),
        OrMemory::Fault(PlanStop::Faulty(fault)) => Status::Plan(fault),
        OrMemory::OutOfMemory => Status::OutOfMemory,
    }
}

/// The status where an input wasn't taken.
pub(crate) fn status_of_input(stop: OrMemory<InputStop>) -> Status
    ensures { result ≡ status_of_input stop }
{
    match stop {
        OrMemory::Fault(InputStop::Unreadable { name, why }) => unreadable(name, why),
        OrMemory::Fault(InputStop::NotText { name }) => Status::NotText { name },
        OrMemory::OutOfMemory => Status::OutOfMemory,
    }
}

/// The status where a name gave no bytes.
fn unreadable(name: Name, why: Unreadable) -> Status
    ensures { result ≡ Status.Input name (is_missing why) }
{
    let missing = matches!(why, Unreadable::Missing);
    Status::Input { name, missing }
}

/// The status where not all actions were printed.
pub(crate) fn status_of_print(stop: OrMemory<PrintFault>) -> Status
    ensures { result ≡ status_of_print stop }
{
    match stop {
        OrMemory::Fault(PrintFault::Aborted { abort, .. }) => Status::Aborted(abort),
        OrMemory::Fault(PrintFault::Exists { path, .. }) => Status::OutputExists { dir: path },
        OrMemory::Fault(PrintFault::Device { path, .. }) => Status::Device { path },
        OrMemory::Fault(PrintFault::Driver { action, fault }) => Status::DriverFault {
            action,
            kind: fault,
        },
        OrMemory::Fault(PrintFault::Write) => Status::WriteFault,
        OrMemory::OutOfMemory => Status::OutOfMemory,
    }
}
