//! Statuses, as what is told and as what a check finds.
#![tactic(auto)]

use sc_app::Status;
use sc_told::{CheckFinding, HowEnded};

/// How a run of a status ended, as far as more is told of it.
pub(crate) fn ending_of(status: &Status) -> HowEnded<'_> {
    match status {
        Status::Done | Status::Usage => HowEnded::Plain,
        Status::Script(fault) => HowEnded::Script(*fault),
        Status::Plan(fault) => HowEnded::Plan(*fault),
        Status::Input { name, missing } => {
            let name = name.as_str();
            if *missing {
                HowEnded::Missing(name)
            } else {
                HowEnded::Unreadable(name)
            }
        }
        Status::Aborted(abort) => HowEnded::Aborted(*abort),
        Status::DriverFault { action, kind } => HowEnded::Driver(*action, *kind),
        Status::OutputExists { dir } => HowEnded::Exists(dir.as_str()),
        Status::Device { path } => HowEnded::Device(path.as_str()),
        Status::WriteFault => HowEnded::Unwritten,
        Status::OutOfMemory => HowEnded::OutOfMemory,
        Status::NotText { name } => HowEnded::NotText(name.as_str()),
    }
}

/// The status of a run that would find the same.
pub(crate) fn status_of(finding: CheckFinding) -> Status {
    match finding {
        CheckFinding::Whole => Status::Done,
        CheckFinding::Usage => Status::Usage,
        CheckFinding::Script(fault) => Status::Script(fault),
        CheckFinding::Plan(fault) => Status::Plan(fault),
    }
}
