//! How the job of a desk begins again.
#![tactic(auto)]

ghost use Rattle.std.specs.Prelude.{◌≡◌, All, IfErr, IfOk, length};
ghost use Rattle.std.specs.Option.{option_map};
ghost use Rattle.sc_core.specs.Journals.{Replays};
ghost use Rattle.sc_core.specs.Openings.{tracker_behind};
ghost use Rattle.sc_core.specs.Sound.{HasLive};
ghost use Rattle.sc_desk.specs.Begins.{BeginsAgain, FitsLast, IsPassedFor};
ghost use Rattle.sc_desk.specs.DeskData.{core_of};
ghost use Rattle.sc_desk.specs.Leaving.{IsOwnLeave};
ghost use Rattle.sc_desk.specs.Sound.{AreEvident};

use crate::begins::begin_journal;
use crate::desks::Desk;
use crate::orders::Orders;
use crate::passes::Passed;
use sc_core::{Core, JobHistory};
use sc_work::Naming;
use std::alloc::{AllocFailed, Global};

/// What a desk leaves that is given up, and the one at which its job begins again.
#[derive(Drop)]
pub struct Again<W: Naming> {
    /// How the job went until it was given up.
    pub history: JobHistory,
    /// The desk at which it begins again, or what goes on where memory is wanting for that.
    pub begun: Result<Desk<W>, AllocFailed<Passed>>,
}

impl<W: Naming> Desk<W> {
    /// Gives the job up and begins it again, behind the core of the job before or none, where
    /// somebody is live, and behind these orders. The stages are those that were planned; nothing
    /// is registered any more, since the stores are new. How the job went is handed out in any
    /// case. Where memory is wanting, what goes on is handed back.
    pub fn again(self, alloc: Global, last: Option<&Core>, ordered: Orders) -> Again<W>
        requires many { length ordered ≡ W.work.limits.executors }
        requires fits { FitsLast W.work (option_map (λ l. l.now) last) }
        requires live { HasLive (tracker_behind (option_map (λ l. l.now) last) W.work.limits) }
        ensures opening { result.history.opening ≡ self.journal.opening }
        ensures entries { result.history.entries.items ≡ self.journal.entries }
        ensures end { result.history.end ≡ core_of self }
        ensures replays { Replays result.history.opening result.history.entries.items
            result.history.end }
        ensures evidence { (is : Replays result.history.opening result.history.entries.items
            result.history.end) → AreEvident W.work self.job result.history.opening
            result.history.entries.items result.history.end is }
        ensures own { All IsOwnLeave result.history.entries.items }
        ensures begun { IfOk result.begun (λ d. BeginsAgain W.work self
            (option_map (λ l. l.now) last.entry) ordered d) }
        ensures carried { IfErr result.begun (λ failed. failed.value.carried ≡ self.carried) }
        ensures ordered { IfErr result.begun (λ failed. failed.value.ordered ≡ ordered) }
        ensures passed { IfErr result.begun (λ failed. IsPassedFor W.work failed.value) }
    {
        self.job.is_job();
        let Desk {
            work,
            job,
            carried,
            journal,
            results: _,
            shelf: _,
            ordered: _,
        } = self;
        let history = journal.close();
        let begun = match begin_journal(alloc, &work, &job, last, true) {
            Ok(begun) => Ok(Desk {
                work,
                job,
                carried,
                journal: begun.journal,
                results: begun.results,
                shelf: Vec::new(alloc),
                ordered,
            }),
            Err(_) => Err(AllocFailed {
                value: Passed { carried, ordered },
            }),
        };
        Again { history, begun }
    }
}
