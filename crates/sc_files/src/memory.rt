//! Files in memory.
#![tactic(auto)]

ghost use Rattle.std.specs.Prelude.{◌≡◌, ◌≤◌, if◌then◌else◌, is_ok};
ghost use Rattle.sc_base.specs.Counts.{counted};
ghost use Rattle.sc_base.specs.Outside.{IsLaterFiles};
ghost use Rattle.sc_files.specs.Listed.{dirs_in, files_in};
ghost use Rattle.sc_files.specs.Memory.{is_to_fail, nothing_kept, shown_kept, with_failing_call};

use crate::files::{FileAnswer, Files, MakeAnswer};
use crate::listed;
use sc_ids::Counts;
use sc_value::{Name, Octets};
use std::alloc::{AllocError, Global};
use std::marker::Model;

/// Directories and files in memory, which are all shown to contracts.
///
/// Calls are counted from 1 over all that change something, and those that [`MemFiles::fail_at`]
/// names fail before the files are looked at, and change nothing. A call that finds no memory
/// leaves all as it was. Counts stand still at their type's last value.
#[derive(Drop)]
pub struct MemFiles {
    dirs: Vec<Name>,
    files: Vec<(Name, Octets)>,
    failing: Vec<u64>,
    calls: u64,
    faults: u64,
    clashes: u64,
}

impl Model for MemFiles {
    ghost use Rattle.sc_base.specs.Trees.{tree};
    ghost use Rattle.sc_files.specs.Listed.{dirs_in, files_in};
    ghost use Rattle.sc_files.specs.Memory.{KeptTree, kept_tree, kept_tree_code};

    ghost Value = { KeptTree };

    ghost coded = { kept_tree_code };

    ghost view = { λ m. kept_tree (tree (dirs_in m.dirs.items) (files_in m.files.items))
        m.failing.items m.calls m.faults m.clashes };
}

impl Files for MemFiles {
    ghost use Rattle.std.specs.Prelude.{◌≡◌};
    ghost use Rattle.sc_base.specs.Outside.{IsLaterFiles};
    ghost use Rattle.sc_base.specs.Trees.{moved, with_file, without_tree};
    ghost use Rattle.sc_files.specs.Calls.{IsMakeCause, IsRemoveCause, IsRenameCause, IsWriteCause, counts_of};
    ghost use Rattle.sc_files.specs.Memory.{EndsKept, MakesKept, shown_kept};

    ghost state = { shown_kept };

    fn counts(&self) -> Counts
        ensures { result ≡ counts_of (shown_kept self.now) }
    {
        Counts {
            faults: self.faults,
            clashes: self.clashes,
        }
    }

    fn make(&mut self, dir: &Name) -> MakeAnswer
        ensures later { IsLaterFiles (shown_kept self.old) (shown_kept self.new) }
        ensures cause { IsMakeCause (shown_kept self.old) (shown_kept self.new) dir.now result }
        ensures planned { MakesKept self.old self.new dir.now result }
    {
        if self.dirs.reserve(1).is_err() {
            return MakeAnswer::OutOfMemory;
        }
        let Ok(name) = dir.copy(*self.dirs.allocator()) else {
            return MakeAnswer::OutOfMemory;
        };
        if counts_fault(&self.failing, &mut self.calls, &mut self.faults) {
            return MakeAnswer::Failed;
        }
        if listed::has_dir(&self.dirs, dir.as_str().as_bytes()) {
            self.clashes = self.clashes.saturating_add(1);
            return MakeAnswer::Exists;
        }
        listed::add_dir(&mut self.dirs, name);
        MakeAnswer::Made
    }

    fn write(&mut self, path: &Name, bytes: &[u8]) -> FileAnswer
        ensures later { IsLaterFiles (shown_kept self.old) (shown_kept self.new) }
        ensures cause { IsWriteCause
            (shown_kept self.old) (shown_kept self.new) path.now bytes.now result }
        ensures planned { EndsKept
            self.old self.new (with_file self.old.tree path.now bytes.now) result }
    {
        if self.files.reserve(1).is_err() {
            return FileAnswer::OutOfMemory;
        }
        let Ok(name) = path.copy(*self.files.allocator()) else {
            return FileAnswer::OutOfMemory;
        };
        let Ok(bytes) = Octets::copy_of(*self.files.allocator(), bytes) else {
            return FileAnswer::OutOfMemory;
        };
        if counts_fault(&self.failing, &mut self.calls, &mut self.faults) {
            return FileAnswer::Failed;
        }
        if !listed::has_place(&self.dirs, path.as_str().as_bytes()) {
            self.clashes = self.clashes.saturating_add(1);
            return FileAnswer::NoDir;
        }
        listed::put_file(&mut self.files, name, bytes);
        FileAnswer::Done
    }

    fn rename(&mut self, from: &Name, to: &Name) -> FileAnswer
        ensures later { IsLaterFiles (shown_kept self.old) (shown_kept self.new) }
        ensures cause { IsRenameCause
            (shown_kept self.old) (shown_kept self.new) from.now to.now result }
        ensures planned { EndsKept
            self.old self.new (moved self.old.tree from.now to.now) result }
    {
        if self.files.reserve(1).is_err() {
            return FileAnswer::OutOfMemory;
        }
        let Ok(name) = to.copy(*self.files.allocator()) else {
            return FileAnswer::OutOfMemory;
        };
        let Ok(found) = listed::share_file(&self.files, from) else {
            return FileAnswer::OutOfMemory;
        };
        if counts_fault(&self.failing, &mut self.calls, &mut self.faults) {
            return FileAnswer::Failed;
        }
        let has_place = listed::has_place(&self.dirs, to.as_str().as_bytes());
        match found {
            Some(bytes) if has_place => {
                listed::remove_file(&mut self.files, from);
                listed::put_file(&mut self.files, name, bytes);
                FileAnswer::Done
            }
            _ => {
                self.clashes = self.clashes.saturating_add(1);
                FileAnswer::NoFile
            }
        }
    }

    fn remove_tree(&mut self, dir: &Name) -> FileAnswer
        ensures later { IsLaterFiles (shown_kept self.old) (shown_kept self.new) }
        ensures cause { IsRemoveCause (shown_kept self.old) (shown_kept self.new) dir.now result }
        ensures planned { EndsKept self.old self.new (without_tree self.old.tree dir.now) result }
    {
        if counts_fault(&self.failing, &mut self.calls, &mut self.faults) {
            return FileAnswer::Failed;
        }
        listed::remove_dirs(&mut self.dirs, dir.as_str().as_bytes());
        listed::remove_files(&mut self.files, dir.as_str().as_bytes());
        FileAnswer::Done
    }
}

impl MemFiles {
    /// No directory, no file, and no calls that fail.
    pub fn new(alloc: Global) -> Self
        ensures { result ≡ nothing_kept }
    {
        MemFiles {
            dirs: Vec::new(alloc),
            files: Vec::new(alloc),
            failing: Vec::new(alloc),
            calls: 0,
            faults: 0,
            clashes: 0,
        }
    }

    /// Makes the call of this number fail; the first call of all has the number 1.
    pub fn fail_at(&mut self, call: u64) -> Result<(), AllocError>
        ensures { self.new ≡ (if is_ok result then with_failing_call self.old call else self.old) }
    {
        self.failing.push(call)?;
        Ok(())
    }

    /// The directories that are there.
    pub fn dirs(&self) -> &[Name]
        ensures { dirs_in result.now ≡ self.now.tree.dirs }
    {
        &self.dirs
    }

    /// The files that are there, with their bytes.
    pub fn files(&self) -> &[(Name, Octets)]
        ensures { files_in result.now ≡ self.now.tree.files }
    {
        &self.files
    }
}

/// Counts a call, and a fault where it is one of those that are to fail.
fn counts_fault(failing: &[u64], calls: &mut u64, faults: &mut u64) -> bool
    ensures planned { result ≡ is_to_fail failing.now (counted calls.old) }
    ensures calls { calls.new ≡ counted calls.old }
    ensures faults { faults.new ≡ (if result then counted faults.old else faults.old) }
    ensures later { faults.old ≤ faults.new }
{
    *calls = calls.saturating_add(1);
    if failing.contains(calls) {
        *faults = faults.saturating_add(1);
        return true;
    }
    false
}
