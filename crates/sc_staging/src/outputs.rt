//! The files while a job runs.
#![tactic(auto)]

ghost use Rattle.std.specs.Prelude.{◌≡◌};
ghost use Rattle.sc_staging.specs.Outputs.{output_files};

use crate::staging::Staging;
use sc_files::Files;

/// The files while a job runs: put aside, or open for what it saves.
#[derive(Drop)]
pub enum Output<F: Files> {
    /// The job saves nothing.
    Nothing(F),
    /// The job saves.
    Save(Staging<F>),
}

impl<F: Files> Output<F> {
    /// Gives the files back, and changes nothing.
    pub fn close(self) -> F
        ensures { F.state result ≡ output_files F.state self }
    {
        match self {
            Output::Nothing(files) => files,
            Output::Save(staging) => staging.close(),
        }
    }
}
