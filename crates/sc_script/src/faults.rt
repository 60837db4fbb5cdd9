//! Why bytes are no script.
#![tactic(auto)]

ghost use Rattle.std.specs.Prelude.{◌≡◌};
ghost use Rattle.sc_script.specs.Faults.{or_fault as other_fault};

use sc_base::OrMemory;

/// What is wrong with a line.
#[derive(Clone, Copy, Debug, PartialEq, Eq)]
pub enum FaultKind {
    /// The script isn't UTF-8.
    NotText,
    /// Something is too long, too many, too deep or too large.
    Limit,
    /// The line isn't of the grammar, or its arguments don't have the operation's number and shape.
    Syntax,
    /// An operation, an action, a head, a node or a variable that isn't known where it stands.
    UnknownName,
    /// A name that is defined already.
    Twice,
    /// A node or an action whose rows have no type.
    IllTyped,
}

/// The fault of a script: the line, counted from 1, and what is wrong with it. Line 0 is the script
/// as a whole.
#[derive(Clone, Copy, Debug, PartialEq, Eq)]
pub struct ScriptFault {
    /// The number of the line.
    pub line: u32,
    /// What is wrong.
    pub kind: FaultKind,
}

/// Why a line was refused.
pub type LineError = OrMemory<FaultKind>;

/// Why no script was read.
pub type ParseError = OrMemory<ScriptFault>;

/// The fault of a line, for another one.
pub(crate) fn or_fault<F: Copy>(kind: FaultKind, error: OrMemory<F>) -> LineError
    ensures { result ≡ other_fault kind error }
{
    match error {
        OrMemory::Fault(_) => LineError::Fault(kind),
        OrMemory::OutOfMemory => LineError::OutOfMemory,
    }
}
