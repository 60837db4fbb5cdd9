//! What logs say of how a job ended, as a function that does nothing.
#![tactic(auto)]

ghost use Rattle.sc_logs.specs.Endings.{WorkedJobsHaveEnded};

/// A job whose logs agree with its history, and whose executors all worked until there was no more
/// for them, has ended. A call does nothing.
pub fn worked_jobs_have_ended()
    ensures { WorkedJobsHaveEnded }
{}
