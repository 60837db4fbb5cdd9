//! The parts that attempts write.
#![tactic(auto)]

ghost use Rattle.std.specs.Prelude.{◌≡◌, IfOk, IfSome, OnErr};
ghost use Rattle.sc_base.specs.Outside.{IsLaterFiles};
ghost use Rattle.sc_output.specs.Calls.{IsOpen, rename_call, write_call};
ghost use Rattle.sc_staging.specs.Parts.{EndsPart, Tells, part_rename, part_write};

use crate::staging::Staging;
use sc_files::{FileAnswer, Files};
use sc_ids::{AttemptId, Counts, Fault};
use sc_output::{committed_name, is_within_types, staged_name};
use sc_value::Name;
use std::alloc::{AllocError, Global};

/// How it ended to write a part, or to rename it.
#[derive(Clone, Copy, Debug, PartialEq, Eq)]
pub enum Written {
    /// It was done.
    Done,
    /// The call on the files failed.
    Failed(Fault),
}

impl<F: Files> Staging<F> {
    /// Writes the part of an attempt into the staging area.
    ///
    /// Where the call failed, the old file of that name stands there, or none, or one with a front
    /// of the text.
    pub fn write_part(
        &mut self,
        alloc: Global,
        attempt: AttemptId,
        text: &[u8],
    ) -> Result<Written, AllocError>
        ensures dir { self.new.dir ≡ self.old.dir }
        ensures later { IsLaterFiles self.old.files self.new.files }
        ensures ends { IfOk result
            (EndsPart (part_write self.old.dir attempt text.now) self.old.files self.new.files) }
        ensures unchanged { OnErr result (self.new ≡ self.old) }
    {
        is_within_types(attempt);
        let path = staged_name(alloc, &self.dir, attempt)?;
        write_file(&mut self.files, &path, text)
    }

    /// Gives the part that an attempt wrote the name of a committed one.
    ///
    /// Where the call failed, this was done or nothing was.
    pub fn rename_part(&mut self, alloc: Global, attempt: AttemptId) -> Result<Written, AllocError>
        requires staged { IfSome self.old.files.shown (IsOpen (part_rename self.old.dir attempt)) }
        ensures dir { self.new.dir ≡ self.old.dir }
        ensures later { IsLaterFiles self.old.files self.new.files }
        ensures ends { IfOk result
            (EndsPart (part_rename self.old.dir attempt) self.old.files self.new.files) }
        ensures unchanged { OnErr result (self.new ≡ self.old) }
    {
        let from = staged_name(alloc, &self.dir, attempt)?;
        let to = committed_name(alloc, &self.dir, attempt)?;
        rename_file(&mut self.files, &from, &to)
    }
}

/// Writes a file.
fn write_file<F: Files>(files: &mut F, path: &Name, text: &[u8]) -> Result<Written, AllocError>
    requires { IfSome (F.state files.old).shown (IsOpen (write_call path.now text.now)) }
    ensures later { IsLaterFiles (F.state files.old) (F.state files.new) }
    ensures ends { IfOk result
        (EndsPart (write_call path.now text.now) (F.state files.old) (F.state files.new)) }
    ensures unchanged { OnErr result (F.state files.new ≡ F.state files.old) }
{
    let before = files.counts();
    let answer = files.write(path, text);
    told(answer, before, files.counts())
}

/// Renames a file.
fn rename_file<F: Files>(files: &mut F, from: &Name, to: &Name) -> Result<Written, AllocError>
    requires { IfSome (F.state files.old).shown (IsOpen (rename_call from.now to.now)) }
    ensures later { IsLaterFiles (F.state files.old) (F.state files.new) }
    ensures ends { IfOk result
        (EndsPart (rename_call from.now to.now) (F.state files.old) (F.state files.new)) }
    ensures unchanged { OnErr result (F.state files.new ≡ F.state files.old) }
{
    let before = files.counts();
    let answer = files.rename(from, to);
    told(answer, before, files.counts())
}

/// What is told of a call for a part, of which all counts from before and after it are given.
fn told(answer: FileAnswer, before: Counts, after: Counts) -> Result<Written, AllocError>
    ensures { Tells answer before after result }
{
    match answer {
        FileAnswer::Done => Ok(Written::Done),
        FileAnswer::NoDir | FileAnswer::NoFile | FileAnswer::Failed => {
            Ok(Written::Failed(Fault { before, after }))
        }
        FileAnswer::OutOfMemory => Err(AllocError),
    }
}
