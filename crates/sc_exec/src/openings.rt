//! How a job began, as proofs know it.
#![tactic(auto)]

ghost use Rattle.sc_exec.specs.Openings.{OpeningData, no_opening};

use sc_queue::Queued;
use std::marker::Brand;

/// A type that stands for how a job began, and for the queue of its reports. It has no bytes.
pub trait Opening: Queued {
    ghost opening: { OpeningData };
}

/// Any beginning: who begins a job says which one its brand is.
impl Opening for Brand {
    ghost opening = { no_opening };
}
