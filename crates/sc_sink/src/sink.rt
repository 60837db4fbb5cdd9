//! A sink for bytes.
#![tactic(auto)]

ghost use Rattle.std.specs.Prelude.{◌≤◌};
ghost use Rattle.sc_base.specs.Outside.{SinkState};
ghost use Rattle.sc_sink.specs.Writing.{IsWriteCause};

/// How a write ended.
#[derive(Clone, Copy, Debug, PartialEq, Eq)]
pub enum SinkAnswer {
    /// All bytes were taken.
    Written,
    /// The sink failed after a prefix of the bytes, and counted it.
    Failed,
    /// Memory ran out; nothing was taken, and nothing was counted.
    OutOfMemory,
}

/// Where the text of a run goes.
pub trait Sink {
    /// What was taken of each write, where the sink shows it, and how often it failed.
    ghost state: { Self → SinkState };

    /// Writes all bytes as one piece, or a prefix of them with a risen count, or nothing for want
    /// of memory. `Failed` comes exactly where the count rose in this call.
    fn write(&mut self, bytes: &[u8]) -> SinkAnswer
        ensures faults { (state self.old).faults ≤ (state self.new).faults }
        ensures cause { IsWriteCause (state self.old) (state self.new) bytes.now result };
}
