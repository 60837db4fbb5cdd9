//! Laws of journals: what the entries of a job show of how it went and how it ended.
//!
//! A journal is read here as `Replays opening entries end` of `sc_core`: from its opening these
//! entries may be what happened, and they leave its end. Each law stands under a function that
//! does nothing, for a caller to cite. The proofs of `sc_desk` cite what begins a job and what its
//! results are, and those of `sc_context` what an abort shows. Below it lies `sc_core`, with the
//! steps that entries record.
#![tactic(auto)]

mod laws;

pub use laws::{
    aborts_are_shown, epochs_count, failures_are_charged, grants_are_sole, hand_outs_are_counted,
    losses_are_shown, openings_agree, reports_are_posted, results_are_once, room_is_kept,
    running_are_given, saves_stay, stands_are_told, takes_are_fresh, what_is_heard_stays,
};
