//! The files of a check.
#![tactic(auto)]

use crate::checks::{CheckFinding, Checked, Checking};
use crate::endings::{HowEnded, advice};
use crate::sizes::sizes_of;
use sc_base::OrMemory;
use sc_misuse::explain_words;
use sc_value::{Name, Octets};
use sc_words::{Command, read_words};
use std::alloc::{AllocError, Global};
use std::rt::Runtime;
use std::{fs, io};

/// Reads the script that words name, and its plan, and tells their faults, the definitions that no
/// action reads, those that make many partitions of few rows, and the lines of the plan that can't
/// come due.
pub fn check<R: Runtime + AllocGlobal>(rt: &R, words: &[String]) -> io::Result<Checked> {
    let alloc = rt.alloc();
    let as_run = run_words(alloc, words)?;
    match read_words(alloc, as_run.as_slice()) {
        Ok(command) => {
            let checked = check_command(rt, &command);
            drop(command);
            checked
        }
        Err(OrMemory::Fault(_)) => Ok(refuse(alloc, words)?),
        Err(OrMemory::OutOfMemory) => Err(io::Error::from(AllocError)),
    }
}

/// The same words with `run` as the first.
fn run_words(alloc: Global, words: &[String]) -> Result<Vec<String>, AllocError> {
    let mut as_run = Vec::new(alloc);
    as_run.push(String::from_str(alloc, "run")?)?;
    for word in words.iter().skip(1) {
        as_run.push(word.clone()?)?;
    }
    Ok(as_run)
}

/// What is found of words that are no command.
fn refuse(alloc: Global, words: &[String]) -> Result<Checked, AllocError> {
    let text = explain_words(alloc, words)?;
    let finding = CheckFinding::Usage;
    Ok(Checked::Read { finding, text })
}

/// What is found of a command.
fn check_command<R: Runtime + AllocGlobal>(rt: &R, command: &Command) -> io::Result<Checked> {
    match file_of(rt, &command.script) {
        Ok(script) => check_script(rt, command, &script),
        Err(error) => unread(rt.alloc(), &command.script, error.kind()),
    }
}

/// What is found of a command whose script is read.
fn check_script<R: Runtime + AllocGlobal>(
    rt: &R,
    command: &Command,
    script: &Octets,
) -> io::Result<Checked> {
    let sizes = sizes_of(rt, script)?;
    let checking = Checking {
        command,
        script,
        sizes: sizes.as_slice(),
    };
    let Some(name) = &command.plan else {
        return Ok(checking.finish(rt.alloc(), None)?);
    };
    match file_of(rt, name) {
        Ok(plan) => Ok(checking.finish(rt.alloc(), Some(&plan))?),
        Err(error) => unread(rt.alloc(), name, error.kind()),
    }
}

/// The bytes of a file.
pub(crate) fn file_of<R: Runtime + AllocGlobal>(rt: &R, name: &Name) -> io::Result<Octets> {
    let bytes = fs::read(rt, name.as_str())?;
    Ok(Octets::new(rt.alloc(), bytes)?)
}

/// What is found where a file can't be read, for an error of this kind.
fn unread(alloc: Global, name: &Name, kind: io::ErrorKind) -> io::Result<Checked> {
    let (missing, ending) = match kind {
        io::ErrorKind::OutOfMemory => return Err(io::Error::from(AllocError)),
        io::ErrorKind::NotFound => (true, HowEnded::Missing("")),
        _ => (false, HowEnded::Unreadable("")),
    };
    Ok(Checked::Unread {
        name: name.copy(alloc)?,
        missing,
        advice: advice(&ending),
    })
}
