//! How a desk ends.
#![tactic(auto)]

ghost use Rattle.std.specs.Prelude.{◌≡◌, All, Some};
ghost use Rattle.sc_core.specs.Journals.{Replays};
ghost use Rattle.sc_core.specs.declared.answers.JobState.TheVariants.{Done};
ghost use Rattle.sc_desk.specs.DeskData.{core_of};
ghost use Rattle.sc_desk.specs.Leaving.{IsOwnLeave};
ghost use Rattle.sc_desk.specs.Sound.{AreAllResults, AreEvident, IsSoundDesk};
ghost use Rattle.sc_desk.specs.Begins.{FitsLast, IsPassedFor};

use crate::desks::Desk;
use crate::passes::Passed;
use sc_compute::TaskResult;
use sc_core::JobHistory;
use sc_jobs::Job;
use sc_work::Naming;

/// What a desk leaves.
#[derive(Drop)]
pub struct Closed<W: Naming> {
    /// How the job went.
    pub history: JobHistory,
    /// For each partition what was handed over of its result, where it has one.
    pub results: Vec<Option<TaskResult>>,
    /// What goes on to the next job.
    pub passed: Passed,
    /// The job.
    pub job: Job<W>,
}

impl<W: Naming> Desk<W> {
    /// How the job went, and what is left of it. It takes no memory.
    pub fn close(self) -> Closed<W>
        ensures opening { result.history.opening ≡ self.journal.opening }
        ensures entries { result.history.entries.items ≡ self.journal.entries }
        ensures end { result.history.end ≡ core_of self }
        ensures replays { Replays result.history.opening result.history.entries.items
            result.history.end }
        ensures results { result.results.items ≡ self.results }
        ensures carried { result.passed.carried ≡ self.carried }
        ensures ordered { result.passed.ordered ≡ self.ordered }
        ensures job { result.job ≡ self.job }
        ensures sound { IsSoundDesk W.work self }
        ensures whole { (core_of self).job ≡ Done
            → AreAllResults W.work result.job result.results.items }
        ensures fits { FitsLast W.work (Some result.history.end) }
        ensures passed { IsPassedFor W.work result.passed }
        ensures evidence { (is : Replays result.history.opening result.history.entries.items
            result.history.end) → AreEvident W.work result.job result.history.opening
            result.history.entries.items result.history.end is }
        ensures own { All IsOwnLeave result.history.entries.items }
    {
        self.journal.core().is_sound();
        let Desk {
            work: _,
            job,
            carried,
            journal,
            results,
            shelf: _,
            ordered,
        } = self;
        let history = journal.close();
        Closed {
            history,
            results,
            passed: Passed { carried, ordered },
            job,
        }
    }
}
