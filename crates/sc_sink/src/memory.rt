//! A sink in memory.
#![tactic(auto)]

ghost use Rattle.std.specs.Prelude.{◌≡◌, Some, if◌then◌else◌, is_ok, IfOk, map};
ghost use Rattle.sc_base.specs.Outside.{bytes_taken};
ghost use Rattle.sc_sink.specs.Memory.{failing_after, no_pieces, shown_pieces, with_failing_call, with_piece};

use crate::sink::{Sink, SinkAnswer};
use std::alloc::{AllocError, Global};
use std::marker::Model;

/// Pieces in memory, one for each write, which are all shown to contracts.
///
/// Calls are counted from 1, and those that [`MemSink::fail_at`] names fail after some of their
/// bytes. Counts stand still at their type's last value.
#[derive(Drop)]
pub struct MemSink {
    bytes: Vec<u8>,
    lens: Vec<usize>,
    failing: Vec<(u64, usize)>,
    calls: u64,
    faults: u64,
}

impl Model for MemSink {
    ghost use Rattle.sc_sink.specs.Memory.{HeldPieces};
    ghost use Rattle.sc_sink.specs.Pieces.{pieces_of, AreLengths};

    ghost Value = { HeldPieces };

    ghost view = { λ s. record {
      pieces = pieces_of s.lens.items s.bytes.items;
      failing = s.failing.items;
      calls = s.calls;
      faults = s.faults;
    } };

    ghost invariant = { λ s. AreLengths s.lens.items s.bytes.items };
}

impl Sink for MemSink {
    ghost use Rattle.std.specs.Prelude.{◌≤◌};
    ghost use Rattle.sc_sink.specs.Memory.{WritesHeldPieces, shown_pieces};
    ghost use Rattle.sc_sink.specs.Writing.{IsWriteCause};

    ghost state = { shown_pieces };

    fn write(&mut self, bytes: &[u8]) -> SinkAnswer
        ensures faults { self.old.faults ≤ self.new.faults }
        ensures cause { IsWriteCause
            (shown_pieces self.old) (shown_pieces self.new) bytes.now result }
        ensures planned { WritesHeldPieces self.old self.new bytes.now result }
    {
        let call = self.calls.saturating_add(1);
        match find(&self.failing, call) {
            None => {
                if self.keep(bytes).is_err() {
                    return SinkAnswer::OutOfMemory;
                }
                self.calls = call;
                SinkAnswer::Written
            }
            Some(count) => {
                if self.keep(&bytes[..count.min(bytes.len())]).is_err() {
                    return SinkAnswer::OutOfMemory;
                }
                self.calls = call;
                self.faults = self.faults.saturating_add(1);
                SinkAnswer::Failed
            }
        }
    }
}

impl MemSink {
    /// No pieces, and no calls that fail.
    pub fn new(alloc: Global) -> Self
        ensures { result ≡ no_pieces }
    {
        MemSink {
            bytes: Vec::new(alloc),
            lens: Vec::new(alloc),
            failing: Vec::new(alloc),
            calls: 0,
            faults: 0,
        }
    }

    /// Makes the call of this number fail after so many of its bytes, or after all of them where it
    /// has fewer; the first call of all has the number 1.
    pub fn fail_at(&mut self, call: u64, bytes: usize) -> Result<(), AllocError>
        ensures { self.new
            ≡ (if is_ok result then with_failing_call self.old call bytes else self.old) }
    {
        self.failing.push((call, bytes))?;
        Ok(())
    }

    /// The bytes that were taken so far.
    pub fn bytes(&self) -> &[u8]
        ensures { bytes_taken (shown_pieces self.now) ≡ Some result.now }
    {
        &self.bytes
    }

    /// The pieces that were taken so far, one for each write.
    pub fn pieces(&self, alloc: Global) -> Result<Vec<&[u8]>, AllocError>
        ensures { IfOk result (λ v. map (λ piece. piece.now) v.items ≡ self.now.pieces) }
    {
        let mut pieces = Vec::with_capacity(alloc, self.lens.len())?;
        let mut rest = self.bytes.as_slice();
        for len in &self.lens {
            let (piece, after) = rest.split_at(*len);
            pieces.push(piece)?;
            rest = after;
        }
        Ok(pieces)
    }

    /// Keeps one more piece.
    fn keep(&mut self, piece: &[u8]) -> Result<(), AllocError>
        ensures { self.new ≡ (if is_ok result then with_piece self.old piece.now else self.old) }
    {
        self.lens.reserve(1)?;
        self.bytes.extend_from_slice(piece)?;
        self.lens.push_reserved(piece.len());
        Ok(())
    }
}

/// After how many bytes a call is to fail.
fn find(failing: &[(u64, usize)], call: u64) -> Option<usize>
    ensures { result ≡ failing_after failing.now call }
{
    for (number, count) in failing {
        if *number == call {
            return Some(*count);
        }
    }
    None
}
