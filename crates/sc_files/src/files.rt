//! Directories and files.
#![tactic(auto)]

ghost use Rattle.std.specs.Prelude.{◌≡◌};
ghost use Rattle.sc_base.specs.Outside.{FilesState, IsLaterFiles};
ghost use Rattle.sc_files.specs.Calls.{IsMakeCause, IsRemoveCause, IsRenameCause, IsWriteCause, counts_of};

use sc_ids::Counts;
use sc_value::Name;

/// How it ended to make a directory.
#[derive(Clone, Copy, Debug, PartialEq, Eq)]
pub enum MakeAnswer {
    /// The directory was made.
    Made,
    /// It was there already, which is counted as a clash.
    Exists,
    /// The call failed, which is counted as a fault.
    Failed,
    /// Memory ran out; nothing changed, and nothing was counted.
    OutOfMemory,
}

/// How another call on files ended.
#[derive(Clone, Copy, Debug, PartialEq, Eq)]
pub enum FileAnswer {
    /// All was done.
    Done,
    /// The directory that a file is to be written in isn't there, which is counted as a clash.
    NoDir,
    /// The file isn't there that is to be renamed, or the directory that it is to be put in, which
    /// is counted as a clash.
    NoFile,
    /// The call failed, which is counted as a fault.
    Failed,
    /// Memory ran out; nothing changed, and nothing was counted.
    OutOfMemory,
}

/// Where a run makes directories and files.
///
/// Files may show what there is, as [`MemFiles`](crate::MemFiles) does; those of the system show
/// nothing, and then only the counts tell why a call wasn't done. A count never falls, and one that
/// stands at its type's last value counts as risen.
pub trait Files {
    /// All directories and files, where they are shown, and how many calls failed or clashed.
    ghost state: { Self → FilesState };

    /// How many calls failed, and how many clashed with what was there.
    fn counts(&self) -> Counts
        ensures { result ≡ counts_of (state self.now) };

    /// Makes a directory that isn't there yet. Where the call failed it was made or nothing was.
    fn make(&mut self, dir: &Name) -> MakeAnswer
        ensures later { IsLaterFiles (state self.old) (state self.new) }
        ensures cause { IsMakeCause (state self.old) (state self.new) dir.now result };

    /// Writes a file whole, in the place of one that may be there. Where the call failed there is
    /// no file at that path, or the old one, or one with a front of the bytes.
    fn write(&mut self, path: &Name, bytes: &[u8]) -> FileAnswer
        ensures later { IsLaterFiles (state self.old) (state self.new) }
        ensures cause { IsWriteCause (state self.old) (state self.new) path.now bytes.now result };

    /// Gives a file another path, where it takes the place of one that may be there. Where the call
    /// failed this was done or nothing was.
    fn rename(&mut self, from: &Name, to: &Name) -> FileAnswer
        ensures later { IsLaterFiles (state self.old) (state self.new) }
        ensures cause { IsRenameCause (state self.old) (state self.new) from.now to.now result };

    /// Removes a directory with all that is in it; there may be none. Where the call failed, a part
    /// of that may be gone.
    fn remove_tree(&mut self, dir: &Name) -> FileAnswer
        ensures later { IsLaterFiles (state self.old) (state self.new) }
        ensures cause { IsRemoveCause (state self.old) (state self.new) dir.now result };
}
