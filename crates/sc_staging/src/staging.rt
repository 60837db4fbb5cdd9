//! The files of a job that saves.
#![tactic(auto)]

ghost use Rattle.std.specs.Prelude.{◌≡◌, IfSome};
ghost use Rattle.sc_files.specs.Calls.{counts_of};
ghost use Rattle.sc_staging.specs.StagingData.{AreThere};

use sc_files::Files;
use sc_ids::Counts;
use sc_value::Name;
use std::marker::Model;

/// The directory of a save with its staging area, both of which are there, and the files.
#[derive(Drop)]
pub struct Staging<F: Files> {
    pub(crate) dir: Name,
    pub(crate) area: Name,
    pub(crate) files: F,
}

impl<F: Files> Model for Staging<F> {
    ghost use Rattle.sc_staging.specs.StagingData.{IsSoundStaging, StagingData, staging_code, staging_data};

    ghost Value = { StagingData };

    ghost coded = { staging_code };

    ghost view = { λ s. staging_data s.dir (F.state s.files) };

    ghost invariant = { λ s. IsSoundStaging s.area (staging_data s.dir (F.state s.files)) };
}

impl<F: Files> Staging<F> {
    /// What every staging keeps: where the files show, its two directories are there. A call does
    /// nothing.
    pub fn is_there(&self)
        ensures { IfSome self.now.files.shown (AreThere self.now.dir) }
    {
        let _ = &self.area;
    }

    /// How many calls on the files failed, and how many clashed with what was there.
    pub fn counts(&self) -> Counts
        ensures { result ≡ counts_of self.now.files }
    {
        self.files.counts()
    }

    /// Gives the files back, and changes nothing.
    pub fn close(self) -> F
        ensures { F.state result ≡ self.files }
    {
        self.files
    }
}
