//! How many lines the inputs of a script have.
#![tactic(auto)]

use crate::files::file_of;
use sc_base::OrMemory;
use sc_lineage::{Node, Script};
use sc_script::parse;
use sc_story::has_many;
use sc_value::{Name, Octets, lines};
use std::alloc::AllocError;
use std::rt::Runtime;
use std::{fs, io};

/// How many bytes an input has at most that is looked at.
const SMALL: u64 = 1_048_576;

/// For each node of the script that bytes are how many lines it reads, where that is known. An
/// input is looked at only where a definition makes many partitions, and where it is a small file.
pub(crate) fn sizes_of<R: Runtime + AllocGlobal>(
    rt: &R,
    bytes: &Octets,
) -> io::Result<Vec<Option<u64>>> {
    match parse(rt.alloc(), bytes) {
        Ok(script) => {
            let sizes = sizes_in(rt, &script);
            drop(script);
            sizes
        }
        Err(OrMemory::Fault(_)) => Ok(Vec::new(rt.alloc())),
        Err(OrMemory::OutOfMemory) => Err(io::Error::from(AllocError)),
    }
}

/// The same of a script.
fn sizes_in<R: Runtime + AllocGlobal>(rt: &R, script: &Script) -> io::Result<Vec<Option<u64>>> {
    let mut sizes = Vec::new(rt.alloc());
    if has_many(script) {
        for node in script.nodes() {
            sizes.push(size_of(rt, node)?)?;
        }
    }
    Ok(sizes)
}

/// How many lines a node reads, where that is known.
fn size_of<R: Runtime + AllocGlobal>(rt: &R, node: &Node) -> io::Result<Option<u64>> {
    match node {
        Node::Text { input, .. } if is_small(rt, input) => line_count(rt, input),
        _ => Ok(None),
    }
}

/// Whether a small file has this name.
fn is_small<R: Runtime + AllocGlobal>(rt: &R, name: &Name) -> bool {
    match fs::metadata(rt, name.as_str()) {
        Ok(known) => known.is_file() && known.len() <= SMALL,
        Err(_) => false,
    }
}

/// How many lines a file has, where it can be read and is text.
fn line_count<R: Runtime + AllocGlobal>(rt: &R, name: &Name) -> io::Result<Option<u64>> {
    match file_of(rt, name) {
        Ok(bytes) => match lines(rt.alloc(), &bytes) {
            Ok(lines) => Ok(Some(lines.len() as u64)),
            Err(OrMemory::Fault(_)) => Ok(None),
            Err(OrMemory::OutOfMemory) => Err(io::Error::from(AllocError)),
        },
        Err(error) => match error.kind() {
            io::ErrorKind::OutOfMemory => Err(error),
            _ => Ok(None),
        },
    }
}
