//! The script of a run.
#![tactic(auto)]

ghost use Rattle.std.specs.Prelude.{◌≡◌};
ghost use Rattle.sc_base.specs.Outside.{IsLaterSource};
ghost use Rattle.sc_read.specs.Scripts.{TakesAsScript, script_stop};

use crate::files::read_file;
use crate::reads::{Read, Role};
use crate::stops::ScriptStop;
use sc_base::OrMemory;
use sc_input::Source;
use sc_lineage::Script;
use sc_script::{ParseError, parse};
use sc_value::Name;
use std::alloc::Global;

/// Reads the script of this name, keeps what was read, and parses it.
///
/// # Errors
///
/// The script's file gave no bytes, or its bytes have a fault.
pub fn read_script<S: Source>(
    alloc: Global,
    source: &mut S,
    name: &Name,
    reads: &mut Vec<Read>,
) -> Result<Script, OrMemory<ScriptStop>>
    ensures later { IsLaterSource (S.state source.old) (S.state source.new) }
    ensures script { TakesAsScript (S.state source.old) (S.state source.new) name.now
        reads.old.items reads.new.items result }
{
    reads.reserve(1)?;
    match read_file(source, name) {
        Ok(bytes) => {
            let parsed = parse(alloc, &bytes);
            let role = Role::Script;
            reads.push(Read { role, bytes }).unwrap();
            as_script(parsed)
        }
        Err(error) => match error {
            OrMemory::Fault(why) => Err(OrMemory::Fault(ScriptStop::Unreadable(why))),
            OrMemory::OutOfMemory => Err(OrMemory::OutOfMemory),
        },
    }
}

/// What the parser gave, as the end of a reading.
fn as_script(parsed: Result<Script, ParseError>) -> Result<Script, OrMemory<ScriptStop>>
    ensures { result ≡ script_stop parsed }
{
    match parsed {
        Ok(script) => Ok(script),
        Err(error) => match error {
            OrMemory::Fault(fault) => Err(OrMemory::Fault(ScriptStop::Faulty(fault))),
            OrMemory::OutOfMemory => Err(OrMemory::OutOfMemory),
        },
    }
}
