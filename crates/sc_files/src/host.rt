//! The files of the system.
#![tactic(auto)]

ghost use Rattle.std.specs.Prelude.{◌≡◌};
ghost use Rattle.sc_base.specs.Outside.{IsLaterFiles};
ghost use Rattle.sc_files.specs.Host.{Closes, EndsUnseen, MakesUnseen, Puts, RefusesWrite, SettlesMake, SettlesRemoval, SettlesRename, unseen_tree};

use crate::files::{FileAnswer, Files, MakeAnswer};
use sc_ids::Counts;
use sc_sink::{CountedWriter, write_whole};
use sc_value::Name;
use std::fs::{self, OpenFile};
use std::io::{self, Write};
use std::marker::Model;

/// The files of the system, by their paths. It shows none of them to contracts.
///
/// A directory is made with the parents that it lacks. What is there already, a file or a link too,
/// is a clash where a directory is to be made, and what isn't there is one where a file is to be
/// written or renamed. Any other error is a fault: a path through a file, a directory that can't be
/// written in, a device without room, a name that is too long. So is want of memory, since part of
/// the call may be done by then. Counts stand still at their type's last value.
#[derive(Drop)]
pub struct HostFiles<R: fs::Files + AllocGlobal + Drop> {
    rt: R,
    faults: u64,
    clashes: u64,
}

impl<R: fs::Files + AllocGlobal + Drop> Model for HostFiles<R> {
    ghost use Rattle.std.specs.Prelude.{None};
    ghost use Rattle.sc_base.specs.Outside.{FilesState, files_state, files_state_code};

    ghost Value = { FilesState };

    ghost coded = { files_state_code };

    ghost view = { λ h. files_state None h.faults h.clashes };
}

impl<R: fs::Files + AllocGlobal + Drop> Files for HostFiles<R> {
    ghost use Rattle.std.specs.Prelude.{◌≡◌};
    ghost use Rattle.sc_base.specs.Outside.{IsLaterFiles};
    ghost use Rattle.sc_files.specs.Calls.{IsMakeCause, IsRemoveCause, IsRenameCause, IsWriteCause, counts_of};
    ghost use Rattle.sc_files.specs.Host.{EndsUnseen, MakesUnseen};

    ghost state = { λ h. h };

    fn counts(&self) -> Counts
        ensures { result ≡ counts_of self.now }
    {
        Counts {
            faults: self.faults,
            clashes: self.clashes,
        }
    }

    fn make(&mut self, dir: &Name) -> MakeAnswer
        ensures later { IsLaterFiles self.old self.new }
        ensures cause { IsMakeCause self.old self.new dir.now result }
        ensures by_one { MakesUnseen self.old self.new result }
    {
        let made = make_with_parents(&self.rt, dir.as_str());
        self.settle_make(made)
    }

    fn write(&mut self, path: &Name, bytes: &[u8]) -> FileAnswer
        ensures later { IsLaterFiles self.old self.new }
        ensures cause { IsWriteCause self.old self.new path.now bytes.now result }
        ensures by_one { EndsUnseen self.old self.new result }
    {
        match fs::create(&self.rt, path.as_str()) {
            Ok(mut file) => {
                let answer = self.put(&mut CountedWriter::new(&mut file), bytes);
                match answer {
                    FileAnswer::Done => self.close(file.sync_data()),
                    _ => answer,
                }
            }
            Err(error) => self.refuse_write(error.kind()),
        }
    }

    fn rename(&mut self, from: &Name, to: &Name) -> FileAnswer
        ensures later { IsLaterFiles self.old self.new }
        ensures cause { IsRenameCause self.old self.new from.now to.now result }
        ensures by_one { EndsUnseen self.old self.new result }
    {
        let renamed = fs::rename(&self.rt, from.as_str(), to.as_str());
        self.settle_rename(renamed)
    }

    fn remove_tree(&mut self, dir: &Name) -> FileAnswer
        ensures later { IsLaterFiles self.old self.new }
        ensures cause { IsRemoveCause self.old self.new dir.now result }
        ensures by_one { EndsUnseen self.old self.new result }
    {
        let removed = fs::remove_dir_all(&self.rt, dir.as_str());
        self.settle_removal(removed)
    }
}

impl<R: fs::Files + AllocGlobal + Drop> HostFiles<R> {
    /// The files that this handle reaches, and nothing counted.
    pub fn new(rt: R) -> Self
        ensures { result ≡ unseen_tree }
    {
        HostFiles {
            rt,
            faults: 0,
            clashes: 0,
        }
    }

    /// Counts how it ended to make a directory.
    fn settle_make(&mut self, made: io::Result<()>) -> MakeAnswer
        ensures later { IsLaterFiles self.old self.new }
        ensures by_one { MakesUnseen self.old self.new result }
        ensures told { SettlesMake made result }
    {
        match made {
            Ok(()) => MakeAnswer::Made,
            Err(error) => match error.kind() {
                io::ErrorKind::AlreadyExists => {
                    self.clashes = self.clashes.saturating_add(1);
                    MakeAnswer::Exists
                }
                _ => {
                    self.faults = self.faults.saturating_add(1);
                    MakeAnswer::Failed
                }
            },
        }
    }

    /// Counts that a file couldn't be opened for an error of this kind.
    fn refuse_write(&mut self, kind: io::ErrorKind) -> FileAnswer
        ensures later { IsLaterFiles self.old self.new }
        ensures by_one { EndsUnseen self.old self.new result }
        ensures told { RefusesWrite kind result }
    {
        match kind {
            io::ErrorKind::NotFound => {
                self.clashes = self.clashes.saturating_add(1);
                FileAnswer::NoDir
            }
            _ => {
                self.faults = self.faults.saturating_add(1);
                FileAnswer::Failed
            }
        }
    }

    /// Puts all bytes into a file that was opened, and counts where that failed.
    fn put<W: Write + Drop>(&mut self, writer: &mut CountedWriter<W>, bytes: &[u8]) -> FileAnswer
        ensures later { IsLaterFiles self.old self.new }
        ensures by_one { EndsUnseen self.old self.new result }
        ensures put { Puts writer.old writer.new bytes.now result }
    {
        match write_whole(writer, bytes) {
            Ok(()) => FileAnswer::Done,
            Err(_) => {
                self.faults = self.faults.saturating_add(1);
                FileAnswer::Failed
            }
        }
    }

    /// Counts how it ended to send all bytes of a file to its device. To close it tells nothing
    /// more, and this tells what that would.
    fn close(&mut self, synced: io::Result<()>) -> FileAnswer
        ensures later { IsLaterFiles self.old self.new }
        ensures by_one { EndsUnseen self.old self.new result }
        ensures told { Closes synced result }
    {
        match synced {
            Ok(()) => FileAnswer::Done,
            Err(_) => {
                self.faults = self.faults.saturating_add(1);
                FileAnswer::Failed
            }
        }
    }

    /// Counts how it ended to rename a file.
    fn settle_rename(&mut self, renamed: io::Result<()>) -> FileAnswer
        ensures later { IsLaterFiles self.old self.new }
        ensures by_one { EndsUnseen self.old self.new result }
        ensures told { SettlesRename renamed result }
    {
        match renamed {
            Ok(()) => FileAnswer::Done,
            Err(error) => match error.kind() {
                io::ErrorKind::NotFound => {
                    self.clashes = self.clashes.saturating_add(1);
                    FileAnswer::NoFile
                }
                _ => {
                    self.faults = self.faults.saturating_add(1);
                    FileAnswer::Failed
                }
            },
        }
    }

    /// Counts how it ended to remove a directory.
    fn settle_removal(&mut self, removed: io::Result<()>) -> FileAnswer
        ensures later { IsLaterFiles self.old self.new }
        ensures by_one { EndsUnseen self.old self.new result }
        ensures told { SettlesRemoval removed result }
    {
        match removed {
            Ok(()) => FileAnswer::Done,
            Err(error) => match error.kind() {
                io::ErrorKind::NotFound => FileAnswer::Done,
                _ => {
                    self.faults = self.faults.saturating_add(1);
                    FileAnswer::Failed
                }
            },
        }
    }
}

/// Makes a directory, and the parents that it lacks. Where these can't be made, the error is that
/// they are missing: what is there already is only ever the directory itself.
fn make_with_parents<R: fs::Files>(rt: &R, dir: &str) -> io::Result<()> {
    let Err(error) = fs::create_dir(rt, dir) else {
        return Ok(());
    };
    if error.kind() != io::ErrorKind::NotFound {
        return Err(error);
    }
    match dir.rsplit_once('/') {
        Some((parent, _)) if fs::create_dir_all(rt, parent).is_ok() => fs::create_dir(rt, dir),
        _ => Err(error),
    }
}
