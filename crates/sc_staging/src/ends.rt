//! How a job that saves ends.
#![tactic(auto)]

ghost use Rattle.std.specs.Prelude.{IfSome};
ghost use Rattle.sc_base.specs.Outside.{IsLaterFiles};
ghost use Rattle.sc_output.specs.Calls.{MakesCalls};
ghost use Rattle.sc_output.specs.Commits.{AreCommitted, AreWinnersFrom, abort_calls, commit_calls};

use crate::staging::Staging;
use sc_base::OrMemory;
use sc_files::Files;
use sc_ids::AttemptId;
use sc_output::{abort_job, commit_job};
use sc_value::Name;
use std::alloc::Global;

/// The files behind a commit or an abort, and how that ended.
#[derive(Drop)]
pub struct Ended<F: Files> {
    /// The files.
    pub files: F,
    /// All calls were done, or one with this path failed, or memory ran out.
    pub ended: Result<(), OrMemory<Name>>,
}

impl<F: Files> Staging<F> {
    /// Commits the job: the committed file of each partition's winner becomes its part.
    pub fn commit(self, alloc: Global, winners: &[AttemptId]) -> Ended<F>
        requires winners { AreWinnersFrom 0 winners.now }
        requires committed { IfSome self.files.shown (AreCommitted self.dir winners.now) }
        ensures later { IsLaterFiles self.files (F.state result.files) }
        ensures calls { MakesCalls (commit_calls self.dir winners.now)
            self.files (F.state result.files) result.ended }
    {
        let Staging {
            dir,
            area: _,
            mut files,
        } = self;
        let ended = commit_job(alloc, &mut files, &dir, winners);
        Ended { files, ended }
    }

    /// Aborts the job: its staging area is removed, and the directory stays.
    pub fn abort(self, alloc: Global) -> Ended<F>
        ensures later { IsLaterFiles self.files (F.state result.files) }
        ensures calls { MakesCalls (abort_calls self.dir)
            self.files (F.state result.files) result.ended }
    {
        let Staging {
            dir,
            area: _,
            mut files,
        } = self;
        let ended = abort_job(alloc, &mut files, &dir);
        Ended { files, ended }
    }
}
