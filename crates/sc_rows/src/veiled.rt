//! Files in memory that show contracts nothing, and of which one call wants memory.
#![tactic(auto)]

ghost use Rattle.std.specs.Prelude.{◌≡◌};

use sc_files::{FileAnswer, Files, MakeAnswer, MemFiles};
use sc_ids::Counts;
use sc_value::Name;
use std::marker::Model;

/// Files in memory behind a veil, so that a test need not show what is there. The call of one
/// number wants memory; the first call has the number 1.
#[derive(Drop)]
pub struct Veiled {
    /// The files behind the veil.
    pub files: MemFiles,
    /// How many calls were made.
    pub calls: u64,
    /// The number of the call that wants memory, or 0.
    pub wanting: u64,
}

impl Model for Veiled {
    ghost use Rattle.sc_ids.specs.declared.failures.Counts.{Counts};

    ghost Value = { Counts };

    ghost view = { λ v. record { faults = v.files.faults; clashes = v.files.clashes } };
}

impl Files for Veiled {
    ghost use Rattle.std.specs.Prelude.{None};
    ghost use Rattle.sc_base.specs.Outside.{files_state};

    ghost state = { λ v. files_state None v.faults v.clashes };

    fn counts(&self) -> Counts {
        self.files.counts()
    }

    fn make(&mut self, dir: &Name) -> MakeAnswer {
        if self.wants_memory() {
            return MakeAnswer::OutOfMemory;
        }
        self.files.make(dir)
    }

    fn write(&mut self, path: &Name, bytes: &[u8]) -> FileAnswer {
        if self.wants_memory() {
            return FileAnswer::OutOfMemory;
        }
        self.files.write(path, bytes)
    }

    fn rename(&mut self, from: &Name, to: &Name) -> FileAnswer {
        if self.wants_memory() {
            return FileAnswer::OutOfMemory;
        }
        self.files.rename(from, to)
    }

    fn remove_tree(&mut self, dir: &Name) -> FileAnswer {
        if self.wants_memory() {
            return FileAnswer::OutOfMemory;
        }
        self.files.remove_tree(dir)
    }
}

impl Veiled {
    /// Counts a call, and says whether it wants memory.
    fn wants_memory(&mut self) -> bool
        ensures { self.new ≡ self.old }
    {
        self.calls = self.calls.saturating_add(1);
        self.calls == self.wanting
    }
}
