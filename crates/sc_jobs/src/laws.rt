//! What every job keeps, and which trackers fit.
#![tactic(auto)]

ghost use Rattle.sc_jobs.specs.Fitting.{ChangedTrackersFit, NewTrackersFit, SizedTrackersFit, TrackersFit};
ghost use Rattle.sc_jobs.specs.JobLaws.{FirstBoundsCanBeFound, JobsGiveResults, StagesAreFound, TargetsAreThere};

/// The laws of jobs: the last stage gives the results, a stage is found by its number, what tasks
/// are to compute is there, and the first sort whose bounds weren't found has a job of its own that
/// needs no others. A call does nothing.
pub fn laws_of_jobs()
    ensures results { JobsGiveResults }
    ensures found { StagesAreFound }
    ensures targets { TargetsAreThere }
    ensures first { FirstBoundsCanBeFound }
{}

/// The laws of trackers that are carried on: one that fits a work fits each of its jobs, a new one
/// fits, so does one with room for a job, and outputs that come and go change nothing of it. A call
/// does nothing.
pub fn laws_of_trackers()
    ensures fit { TrackersFit }
    ensures new { NewTrackersFit }
    ensures sized { SizedTrackersFit }
    ensures changed { ChangedTrackersFit }
{}
