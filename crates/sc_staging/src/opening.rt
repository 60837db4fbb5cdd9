//! How the files of a job that saves are opened.
#![tactic(auto)]

ghost use Rattle.sc_base.specs.Outside.{IsLaterFiles};
ghost use Rattle.sc_staging.specs.Opening.{Opens, files_in};

use crate::staging::Staging;
use sc_files::{Files, MakeAnswer};
use sc_output::staging_name;
use sc_value::Name;
use std::alloc::Global;

/// The files of a job that saves, or why they couldn't be opened, with all files handed back.
#[derive(Drop)]
pub enum Opened<F: Files> {
    /// The directory and its staging area were made.
    Staging(Staging<F>),
    /// One of the two is there already.
    Exists {
        /// Which one.
        path: Name,
        /// The files.
        files: F,
    },
    /// The making of one of the two failed.
    Device {
        /// Of which one.
        path: Name,
        /// The files.
        files: F,
    },
    /// Memory ran out.
    NoMemory {
        /// The files.
        files: F,
    },
}

impl<F: Files> Staging<F> {
    /// Makes the directory of a save, and then its staging area.
    ///
    /// Where the staging area couldn't be made, the directory stands. Where a call failed, what it
    /// was to make stands or doesn't.
    pub fn open(alloc: Global, mut files: F, dir: &Name) -> Opened<F>
        ensures later { IsLaterFiles (F.state files) (files_in F.state result) }
        ensures opens { Opens F.state dir.now (F.state files) result }
    {
        let Ok(dir) = dir.copy(alloc) else {
            return Opened::NoMemory { files };
        };
        let Ok(area) = staging_name(alloc, &dir) else {
            return Opened::NoMemory { files };
        };
        match files.make(&dir) {
            MakeAnswer::Made => {}
            MakeAnswer::Exists => return Opened::Exists { path: dir, files },
            MakeAnswer::Failed => return Opened::Device { path: dir, files },
            MakeAnswer::OutOfMemory => return Opened::NoMemory { files },
        }
        match files.make(&area) {
            MakeAnswer::Made => Opened::Staging(Staging { dir, area, files }),
            MakeAnswer::Exists => Opened::Exists { path: area, files },
            MakeAnswer::Failed => Opened::Device { path: area, files },
            MakeAnswer::OutOfMemory => Opened::NoMemory { files },
        }
    }
}
