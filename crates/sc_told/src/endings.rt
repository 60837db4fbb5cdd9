//! What helps where a run ends otherwise than by an abort.
#![tactic(auto)]

use sc_core::Abort;
use sc_lineage::DriverFault;
use sc_plan::PlanFault;
use sc_script::ScriptFault;
use sc_story::ScriptText;
use std::alloc::AllocError;

/// How a run ended, as far as more is told of it.
#[derive(Drop)]
pub enum HowEnded<'a> {
    /// All is said by what the run did.
    Plain,
    /// The script has a fault.
    Script(ScriptFault),
    /// The plan has a fault.
    Plan(PlanFault),
    /// A job was aborted.
    Aborted(Abort),
    /// An input of this name isn't there.
    Missing(&'a str),
    /// An input of this name can't be read.
    Unreadable(&'a str),
    /// An input of this name isn't UTF-8.
    NotText(&'a str),
    /// The results of the action of a number have no value together.
    Driver(u32, DriverFault),
    /// An action saves to a directory that is there.
    Exists(&'a str),
    /// A call on the files failed, for this path.
    Device(&'a str),
    /// The standard output took no more.
    Unwritten,
    /// Memory ran out.
    OutOfMemory,
}

/// Writes what a run's ending means and what may be done, where that isn't said elsewhere.
pub(crate) fn write_ending(
    out: &mut String,
    ending: &HowEnded<'_>,
    text: Option<&ScriptText>,
) -> Result<(), AllocError> {
    match ending {
        HowEnded::Missing(name) | HowEnded::Unreadable(name) | HowEnded::NotText(name) => {
            write_input(out, name, text)?;
        }
        HowEnded::Driver(action, _) => write_action(out, *action, text)?,
        HowEnded::Exists(path) | HowEnded::Device(path) => write_save(out, path, text)?,
        _ => {}
    }
    out.push_str(advice(ending))
}

/// Writes the first line that reads an input.
fn write_input(out: &mut String, name: &str, text: Option<&ScriptText>) -> Result<(), AllocError> {
    match text {
        Some(text) => text.write_input(out, name),
        None => Ok(()),
    }
}

/// Writes the line of an action.
fn write_action(
    out: &mut String,
    action: u32,
    text: Option<&ScriptText>,
) -> Result<(), AllocError> {
    match text {
        Some(text) => text.write_action(out, action as usize),
        None => Ok(()),
    }
}

/// Writes the line of the action that saves to a path.
fn write_save(out: &mut String, path: &str, text: Option<&ScriptText>) -> Result<(), AllocError> {
    match text {
        Some(text) => text.write_save(out, path),
        None => Ok(()),
    }
}

/// What may be done.
pub(crate) fn advice(ending: &HowEnded<'_>) -> &'static str {
    match ending {
        HowEnded::Plain | HowEnded::Script(_) | HowEnded::Plan(_) | HowEnded::Aborted(_) => "",
        HowEnded::Missing(_) => {
            "  names are looked up from the folder in which the program runs\n"
        }
        HowEnded::Unreadable(_) => {
            "  it is there and can't be read: is it a folder, or for others?\n"
        }
        HowEnded::NotText(_) => {
            "  an input is lines of UTF-8: is it packed, or of another encoding?\n"
        }
        HowEnded::Driver(_, DriverFault::EmptyCollection) => {
            "  there is no row to reduce: count the rows, or add one of your own\n"
        }
        HowEnded::Driver(_, DriverFault::Raised(_)) => {
            "  its expression raises where the partitions' results are put together\n"
        }
        HowEnded::Exists(_) => {
            "  a directory that is there is never written to: remove it, or save to another\n"
        }
        HowEnded::Device(_) => "  is the directory writable, and is there room on the disk?\n",
        HowEnded::Unwritten => {
            "  the standard output took no more: is it closed, or its disk full?\n"
        }
        HowEnded::OutOfMemory => {
            "  each input is held whole: give the run more memory, or less to read\n"
        }
    }
}
