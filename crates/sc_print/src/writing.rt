//! What is written of an action.
#![tactic(auto)]

ghost use Rattle.std.specs.Prelude.{◌≡◌, ◌≤◌};
ghost use Rattle.sc_print.specs.Printing.{IsValue, Writes, WritesValue};

use crate::faults::PrintFault;
use sc_base::OrMemory;
use sc_compute::Evaluated;
use sc_sink::{Sink, SinkAnswer};
use sc_value::Octets;

/// Writes the text that the action of this number gave, where it gave one.
pub(crate) fn write_value<K: Sink>(
    action: u32,
    value: &Evaluated,
    sink: &mut K,
) -> Result<(), OrMemory<PrintFault>>
    requires { IsValue value.now }
    ensures later { (K.state sink.old).faults ≤ (K.state sink.new).faults }
    ensures value { WritesValue action value.now (K.state sink.old) (K.state sink.new) result }
{
    match value {
        Evaluated::Prints(text) => write(text, sink),
        Evaluated::Saves => Ok(()),
        Evaluated::Faults(fault) => Err(OrMemory::Fault(PrintFault::Driver {
            action,
            fault: *fault,
        })),
        Evaluated::Never { .. } => unreachable!(),
    }
}

/// Writes a text by one write, unless it is empty.
fn write<K: Sink>(text: &Octets, sink: &mut K) -> Result<(), OrMemory<PrintFault>>
    ensures later { (K.state sink.old).faults ≤ (K.state sink.new).faults }
    ensures text { Writes text.now (K.state sink.old) (K.state sink.new) result }
{
    if text.len() == 0 {
        return Ok(());
    }
    match sink.write(text.as_slice()) {
        SinkAnswer::Written => Ok(()),
        SinkAnswer::Failed => Err(OrMemory::Fault(PrintFault::Write)),
        SinkAnswer::OutOfMemory => Err(OrMemory::OutOfMemory),
    }
}
