//! The standard output.
#![tactic(auto)]

ghost use Rattle.std.specs.Prelude.{◌≡◌, ◌≤◌};
ghost use Rattle.sc_sink.specs.Host.{PutsOut, unseen_pieces};

use crate::sink::{Sink, SinkAnswer};
use crate::whole::write_whole;
use crate::writers::CountedWriter;
use std::io::{self, Print, Write};
use std::marker::Model;

/// The standard output. It shows none of its bytes to contracts.
///
/// A write that is cut short is a fault, as is one of which nothing was taken. No write wants
/// memory. The count stands still at its type's last value.
#[derive(Drop)]
pub struct StdSink<R: Print + Drop> {
    rt: R,
    faults: u64,
}

impl<R: Print + Drop> Model for StdSink<R> {
    ghost use Rattle.std.specs.Prelude.{None};
    ghost use Rattle.sc_base.specs.Outside.{SinkState};

    ghost Value = { SinkState };

    ghost view = { λ s. record { pieces = None; faults = s.faults } };
}

impl<R: Print + Drop> Sink for StdSink<R> {
    ghost use Rattle.std.specs.Prelude.{◌≤◌, ◌≢◌};
    ghost use Rattle.sc_sink.specs.Host.{WritesOut};
    ghost use Rattle.sc_sink.specs.Writing.{IsWriteCause};

    ghost state = { λ s. s };

    fn write(&mut self, bytes: &[u8]) -> SinkAnswer
        ensures faults { self.old.faults ≤ self.new.faults }
        ensures cause { IsWriteCause self.old self.new bytes.now result }
        ensures by_one { WritesOut self.old self.new result }
        ensures needs_no_memory { result ≢ SinkAnswer.OutOfMemory }
    {
        let mut writer = CountedWriter::new(io::writer(&self.rt));
        put_out(&mut writer, bytes, &mut self.faults)
    }
}

impl<R: Print + Drop> StdSink<R> {
    /// The output that this handle reaches, and no fault counted.
    pub fn new(rt: R) -> Self
        ensures { result ≡ unseen_pieces }
    {
        StdSink { rt, faults: 0 }
    }
}

/// Puts some bytes out through a writer, and counts where it failed.
fn put_out<W: Write + Drop>(
    writer: &mut CountedWriter<W>,
    bytes: &[u8],
    faults: &mut u64,
) -> SinkAnswer
    ensures later { faults.old ≤ faults.new }
    ensures put { PutsOut faults.old faults.new writer.old writer.new bytes.now result }
{
    match write_whole(writer, bytes) {
        Ok(()) => SinkAnswer::Written,
        Err(_) => {
            *faults = faults.saturating_add(1);
            SinkAnswer::Failed
        }
    }
}
