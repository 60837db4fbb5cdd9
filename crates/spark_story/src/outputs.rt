//! The output of a run, beside a line that shows how far it is.
#![tactic(auto)]

use crate::gates::ShowingGate;
use sc_sink::{Sink, SinkAnswer};

/// A sink. What the gate shows is blotted out before each write, since both may go to one terminal.
#[derive(Drop)]
pub(crate) struct ClearedOutput<'a, K: Sink + Drop, R: Eprint + AllocGlobal> {
    sink: K,
    gate: &'a ShowingGate<R>,
}

impl<'a, K: Sink + Drop, R: Eprint + AllocGlobal> ClearedOutput<'a, K, R> {
    /// A sink beside what a gate shows.
    pub(crate) fn new(sink: K, gate: &'a ShowingGate<R>) -> Self {
        ClearedOutput { sink, gate }
    }
}

impl<K: Sink + Drop, R: Eprint + AllocGlobal> Sink for ClearedOutput<'_, K, R> {
    ghost state = { λ s. K.state s.sink };

    fn write(&mut self, bytes: &[u8]) -> SinkAnswer {
        self.gate.clear();
        self.sink.write(bytes)
    }
}
