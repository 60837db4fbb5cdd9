//! Which failures may be ones of a running attempt.
#![tactic(auto)]

ghost use Rattle.std.specs.Prelude.{◌≡◌};
ghost use Rattle.std.specs.List.{list_any};
ghost use Rattle.sc_core.specs.Posts.{fits_failure, has_faulted, has_moved, is_denied, is_here, is_same_fault, is_same_loc, was_last};

use crate::running::{Phase, Running};
use sc_ids::{FailureCause, Fault, Loc};
use sc_tracker::Location;

/// Whether a failure may be one of this attempt: a missing input is one that it was given so.
pub(crate) fn fits_failure(running: &Running, cause: FailureCause) -> bool
    ensures { result ≡ fits_failure running.now cause }
{
    match cause {
        FailureCause::Planned | FailureCause::Raised(_) => true,
        FailureCause::Device(fault) => has_faulted(running.phase, fault),
        FailureCause::Gone {
            exec,
            wanted,
            found,
        } => {
            let loc = Loc {
                exec,
                generation: wanted,
            };
            any_here(running.hand_out.inputs(), loc) && wanted < found
        }
        FailureCause::Metadata { last } => any_was_last(running.hand_out.inputs(), last),
        FailureCause::Denied => is_denied(running.phase),
    }
}

/// Whether the output of an attempt is where it counts.
pub(crate) fn has_moved(phase: Phase) -> bool
    ensures { result ≡ has_moved phase }
{
    match phase {
        Phase::Moved => true,
        Phase::Given | Phase::Staged | Phase::Granted | Phase::Denied | Phase::Faulted(_) => false,
    }
}

/// Whether an attempt may not commit.
fn is_denied(phase: Phase) -> bool
    ensures { result ≡ is_denied phase }
{
    match phase {
        Phase::Denied => true,
        Phase::Given | Phase::Staged | Phase::Granted | Phase::Moved | Phase::Faulted(_) => false,
    }
}

/// Whether an attempt was told of this fault.
fn has_faulted(phase: Phase, fault: Fault) -> bool
    ensures { result ≡ has_faulted phase fault }
{
    match phase {
        Phase::Faulted(told) => is_same_fault(told, fault),
        Phase::Given | Phase::Staged | Phase::Granted | Phase::Denied | Phase::Moved => false,
    }
}

/// Whether two faults are one.
fn is_same_fault(a: Fault, b: Fault) -> bool
    ensures { result ≡ is_same_fault a b }
{
    a == b
}

/// Whether an input of some lies there.
fn any_here(inputs: &[Location], loc: Loc) -> bool
    ensures { result ≡ list_any (is_here loc) inputs.now }
{
    inputs.iter().any(|at| is_here(loc, *at))
}

/// Whether an input of some was there last, and isn't any more.
fn any_was_last(inputs: &[Location], loc: Loc) -> bool
    ensures { result ≡ list_any (was_last loc) inputs.now }
{
    inputs.iter().any(|at| was_last(loc, *at))
}

/// Whether an input lies there.
fn is_here(loc: Loc, at: Location) -> bool
    ensures { result ≡ is_here loc at }
{
    match at {
        Location::Here(here) => is_same_loc(here, loc),
        Location::Missing { .. } => false,
    }
}

/// Whether an input was there last, and isn't any more.
fn was_last(loc: Loc, at: Location) -> bool
    ensures { result ≡ was_last loc at }
{
    match at {
        Location::Missing { last: Some(last) } => is_same_loc(last, loc),
        Location::Missing { last: None } | Location::Here(_) => false,
    }
}

/// Whether two locations are one.
fn is_same_loc(a: Loc, b: Loc) -> bool
    ensures { result ≡ is_same_loc a b }
{
    a == b
}
