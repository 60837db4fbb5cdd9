//! From bytes to a script.
#![tactic(auto)]

ghost use Rattle.std.specs.Prelude.{◌≡◌, ◌≤◌, IfErr, IfOk, length};
ghost use Rattle.sc_script.specs.Defining.{defined_data_of};
ghost use Rattle.sc_script.specs.Faults.{IsAnswer, at_line as fault_at};
ghost use Rattle.sc_script.specs.Limits.{script_limit};
ghost use Rattle.sc_script.specs.Lines.{nothing_defined};
ghost use Rattle.sc_script.specs.Parsing.{IsParseCause};
ghost use Rattle.sc_script.specs.Scripts.{ReadsLines, ReadsScript};
ghost use Rattle.sc_base.specs.declared.refusals.OrMemory.TheVariants.{Fault};

use crate::defined::Defined;
use crate::faults::{FaultKind, LineError, ParseError, ScriptFault};
use crate::limits::SCRIPT_LIMIT;
use crate::lines::read_line;
use sc_base::OrMemory;
use sc_lineage::Script;
use sc_value::{NotText, Octets, Texts, lines};
use std::alloc::Global;

/// The script that the bytes are. Its lines lie in them and aren't copied.
///
/// # Errors
///
/// The fault of the first line that has one, exactly where the grammar gives it, unless memory runs
/// out. Every input is a script or has a fault, and never both.
pub fn parse(alloc: Global, bytes: &Octets) -> Result<Script, ParseError>
    ensures script { IfOk result (ReadsScript bytes.now) }
    ensures fault { IfErr result (IsParseCause bytes.now) }
{
    if bytes.len() > SCRIPT_LIMIT {
        return Err(whole(FaultKind::Limit));
    }
    match lines(alloc, bytes) {
        Ok(lines) => {
            let defined = defined_by(alloc, &lines)?;
            Ok(defined.script)
        }
        Err(error) => match error {
            OrMemory::Fault(NotText) => Err(whole(FaultKind::NotText)),
            OrMemory::OutOfMemory => Err(ParseError::OutOfMemory),
        },
    }
}

/// A fault of the script as a whole.
fn whole(kind: FaultKind) -> ParseError
    ensures { result ≡ Fault (record { line = 0; kind = kind }) }
{
    ParseError::Fault(ScriptFault { line: 0, kind })
}

/// What the lines of a script define.
fn defined_by(alloc: Global, lines: &Texts) -> Result<Defined, ParseError>
    requires { length lines.now ≤ script_limit }
    ensures { IsAnswer defined_data_of (ReadsLines nothing_defined 1 lines.now) result }
{
    let mut defined = Defined::new(alloc);
    for i in 0..lines.len() {
        match read_line(alloc, defined, lines.get(i)) {
            Ok(after) => defined = after,
            Err(error) => return Err(at_line(i as u32 + 1, error)),
        }
    }
    Ok(defined)
}

/// Why no script was read, by what a line of a number answered.
fn at_line(line: u32, error: LineError) -> ParseError
    ensures { result ≡ fault_at line error }
{
    match error {
        LineError::Fault(kind) => ParseError::Fault(ScriptFault { line, kind }),
        LineError::OutOfMemory => ParseError::OutOfMemory,
    }
}
