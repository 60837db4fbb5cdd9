//! How a staging area is made anew.
#![tactic(auto)]

ghost use Rattle.sc_base.specs.Outside.{IsLaterFiles};
ghost use Rattle.sc_staging.specs.Renewal.{Renews, files_left};

use crate::staging::Staging;
use sc_files::{FileAnswer, Files, MakeAnswer};
use sc_value::Name;

/// A staging with nothing in it, or why there is none, with the files handed back.
#[derive(Drop)]
pub enum Renewed<F: Files> {
    /// All that lay in the staging area is gone.
    Staging(Staging<F>),
    /// A call failed.
    Device {
        /// Of which path.
        path: Name,
        /// The files.
        files: F,
    },
    /// Memory ran out.
    NoMemory {
        /// The files.
        files: F,
    },
}

impl<F: Files> Staging<F> {
    /// Removes the staging area with all that is in it, and makes it anew.
    ///
    /// Where this couldn't be done, the directory stands, and of the staging area all, a part or
    /// nothing.
    pub fn again(self) -> Renewed<F>
        ensures later { IsLaterFiles self.files (files_left F.state result) }
        ensures renews { Renews F.state self.dir self.files result }
    {
        let Staging {
            dir,
            area,
            mut files,
        } = self;
        match files.remove_tree(&area) {
            FileAnswer::Done => {}
            FileAnswer::NoDir | FileAnswer::NoFile | FileAnswer::Failed => {
                return Renewed::Device { path: area, files };
            }
            FileAnswer::OutOfMemory => return Renewed::NoMemory { files },
        }
        match files.make(&area) {
            MakeAnswer::Made => Renewed::Staging(Staging { dir, area, files }),
            MakeAnswer::Exists => Renewed::Device { path: area, files },
            MakeAnswer::Failed => Renewed::Device { path: area, files },
            MakeAnswer::OutOfMemory => Renewed::NoMemory { files },
        }
    }
}
