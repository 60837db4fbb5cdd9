//! The files of the system.
#![tactic(auto)]

ghost use Rattle.std.specs.Prelude.{◌≡◌};
ghost use Rattle.sc_base.specs.Outside.{IsLaterSource};
ghost use Rattle.sc_input.specs.Host.{Refuses, TakesIn, unseen_files};

use crate::readers::CountedReader;
use crate::source::{ReadAnswer, Source};
use crate::whole::read_limited;
use sc_base::OrMemory;
use sc_value::Name;
use std::fs::{self, Files, OpenFile};
use std::io::{self, Read};
use std::marker::Model;

/// The most bytes that a file may have: 1 GiB.
const LIMIT: usize = 1_073_741_824;

/// The files of the system, by their paths. It shows neither them nor the names that it was asked
/// for to contracts.
///
/// A path where there is no file is a miss. A file of more than 1 GiB, one that can't be read to
/// its end, as a folder can't, and one that can't be opened for another reason are faults. Counts
/// stand still at their type's last value.
#[derive(Drop)]
pub struct HostSource<R: Files + AllocGlobal + Drop> {
    rt: R,
    faults: u64,
    misses: u64,
}

impl<R: Files + AllocGlobal + Drop> Model for HostSource<R> {
    ghost use Rattle.std.specs.Prelude.{None};
    ghost use Rattle.sc_base.specs.Outside.{SourceState};

    ghost Value = { SourceState };

    ghost view = { λ s. record {
      shown = None;
      asked = None;
      faults = s.faults;
      misses = s.misses;
    } };
}

impl<R: Files + AllocGlobal + Drop> Source for HostSource<R> {
    ghost use Rattle.sc_base.specs.Outside.{IsLaterSource};
    ghost use Rattle.sc_input.specs.Host.{ReadsFile};
    ghost use Rattle.sc_input.specs.Reading.{AsksOnce, IsReadCause};

    ghost state = { λ s. s };

    fn read(&mut self, name: &Name) -> ReadAnswer
        ensures later { IsLaterSource self.old self.new }
        ensures asked { AsksOnce self.old self.new name.now result }
        ensures cause { IsReadCause self.old self.new name.now result }
        ensures by_one { ReadsFile self.old self.new result }
    {
        match fs::open(&self.rt, name.as_str()) {
            Ok(file) => {
                let awaited = file
                    .metadata()
                    .map_or(0, |metadata| metadata.len() as usize);
                self.take_in(&mut CountedReader::new(file), awaited)
            }
            Err(error) => self.refuse(error.kind()),
        }
    }
}

impl<R: Files + AllocGlobal + Drop> HostSource<R> {
    /// The files that this handle reaches, and nothing counted.
    pub fn new(rt: R) -> Self
        ensures { result ≡ unseen_files }
    {
        HostSource {
            rt,
            faults: 0,
            misses: 0,
        }
    }

    /// Answers with the bytes of a file that was opened, of which so many are awaited.
    fn take_in<F: Read + Drop>(
        &mut self,
        reader: &mut CountedReader<F>,
        awaited: usize,
    ) -> ReadAnswer
        ensures later { IsLaterSource self.old self.new }
        ensures taken { TakesIn self.old self.new reader.old reader.new result }
    {
        match read_limited(self.rt.alloc(), reader, LIMIT, awaited) {
            Ok(bytes) => ReadAnswer::Bytes(bytes),
            Err(refusal) => match refusal {
                OrMemory::Fault(_) => {
                    self.faults = self.faults.saturating_add(1);
                    ReadAnswer::Failed
                }
                OrMemory::OutOfMemory => ReadAnswer::OutOfMemory,
            },
        }
    }

    /// Answers for a file that couldn't be opened for an error of this kind.
    fn refuse(&mut self, kind: io::ErrorKind) -> ReadAnswer
        ensures later { IsLaterSource self.old self.new }
        ensures told { Refuses self.old self.new kind result }
    {
        match kind {
            io::ErrorKind::NotFound => {
                self.misses = self.misses.saturating_add(1);
                ReadAnswer::NoFile
            }
            io::ErrorKind::OutOfMemory => ReadAnswer::OutOfMemory,
            _ => {
                self.faults = self.faults.saturating_add(1);
                ReadAnswer::Failed
            }
        }
    }
}
