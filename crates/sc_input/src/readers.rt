//! A reader whose failed reads are counted.
#![tactic(auto)]

ghost use Rattle.std.specs.Prelude.{◌≡◌};
ghost use Rattle.sc_input.specs.Readers.{ReadsSome, fresh_reader};

use std::io::Read;
use std::marker::Model;

/// A read failed.
#[derive(Clone, Copy, Debug, Drop, PartialEq, Eq)]
pub struct ReadFailed;

/// A reader that counts its failed reads, so that a contract can say why reading ended. The count
/// stands still at its type's last value.
#[derive(Drop)]
pub struct CountedReader<R: Read + Drop> {
    inner: R,
    faults: u64,
}

impl<R: Read + Drop> Model for CountedReader<R> {
    ghost use Rattle.sc_input.specs.Readers.{ReaderState};

    ghost Value = { ReaderState };

    ghost view = { λ r. record { left = R.remaining r.inner; faults = r.faults } };
}

impl<R: Read + Drop> CountedReader<R> {
    /// A reader of which no read failed so far.
    pub fn new(inner: R) -> Self
        ensures { result ≡ fresh_reader (R.remaining inner) }
    {
        CountedReader { inner, faults: 0 }
    }

    /// Fills the front of a buffer, and tells how many bytes it gave: none only at the end. A read
    /// that was interrupted failed.
    pub fn read_some(&mut self, buf: &mut [u8]) -> Result<usize, ReadFailed>
        ensures { ReadsSome self.old self.new buf.new result }
    {
        match self.inner.read(buf) {
            Ok(count) => Ok(count),
            Err(_) => {
                self.faults = self.faults.saturating_add(1);
                Err(ReadFailed)
            }
        }
    }
}
