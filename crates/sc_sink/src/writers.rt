//! A writer whose failed calls are counted.
#![tactic(auto)]

ghost use Rattle.std.specs.Prelude.{◌≡◌, ◌<◌, false, length};
ghost use Rattle.sc_base.specs.Counts.{counted};
ghost use Rattle.sc_sink.specs.Writers.{Flushes, Settles, WritesSome, fresh_writer};

use std::io::{self, Write};
use std::marker::Model;

/// A write or a flush failed.
#[derive(Clone, Copy, Debug, Drop, PartialEq, Eq)]
pub struct WriteFailed;

/// A writer that counts its failed calls, so that a contract can say why writing ended, and knows
/// whether all that it took was flushed. The count stands still at its type's last value.
#[derive(Drop)]
pub struct CountedWriter<W: Write + Drop> {
    inner: W,
    is_flushed: bool,
    faults: u64,
}

impl<W: Write + Drop> Model for CountedWriter<W> {
    ghost use Rattle.sc_sink.specs.Writers.{WriterState};

    ghost Value = { WriterState };

    ghost view = { λ w. record {
      taken = W.contents w.inner;
      is_flushed = w.is_flushed;
      faults = w.faults;
    } };
}

impl<W: Write + Drop> CountedWriter<W> {
    /// A writer of which no call failed so far.
    pub fn new(inner: W) -> Self
        ensures { result ≡ fresh_writer (W.contents inner) }
    {
        CountedWriter {
            inner,
            is_flushed: false,
            faults: 0,
        }
    }

    /// Writes some of the bytes, and tells how many. One that takes none of them failed, and so did
    /// one that was interrupted.
    pub fn write_some(&mut self, bytes: &[u8]) -> Result<usize, WriteFailed>
        requires { 0 < length bytes.now }
        ensures wrote { WritesSome self.old self.new bytes.now result }
        ensures not_flushed { self.new.is_flushed ≡ false }
    {
        self.is_flushed = false;
        match self.inner.write(bytes) {
            Ok(count) if count > 0 => Ok(count),
            _ => Err(self.count_fault()),
        }
    }

    /// Sends on what was taken.
    pub fn flush(&mut self) -> Result<(), WriteFailed>
        ensures { Flushes self.old self.new result }
    {
        let flushed = self.inner.flush();
        self.settle(flushed)
    }

    /// Takes note of how a flush of the writer inside ended.
    fn settle(&mut self, flushed: io::Result<()>) -> Result<(), WriteFailed>
        ensures { Settles self.old self.new flushed result }
    {
        match flushed {
            Ok(()) => {
                self.is_flushed = true;
                Ok(())
            }
            Err(_) => Err(self.count_fault()),
        }
    }

    /// Counts a call that failed.
    fn count_fault(&mut self) -> WriteFailed
        ensures { self.new ≡ record self.old { faults = counted self.old.faults } }
    {
        self.faults = self.faults.saturating_add(1);
        WriteFailed
    }
}
