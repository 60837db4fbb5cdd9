//! A run over what is outside in memory, where calls may fail, and what was seen of it.
#![tactic(auto)]

use crate::veiled::Veiled;
use sc_app::{Ran, fault_text, run};
use sc_clock::{Clock, StepClock};
use sc_core::JobHistory;
use sc_exec::Gate;
use sc_files::MemFiles;
use sc_input::MemSource;
use sc_logs::ExecLog;
use sc_sink::MemSink;
use std::process::Abort;
use std::sync::Wait;
use std::thread::Threads;
use std::{str, time};

/// A clock that stands still.
pub const STILL: StepClock = StepClock { time: 0, step: 0 };

/// What is outside of a run: the files that it reads, what it writes to, and where it saves.
#[derive(Drop)]
pub struct Outside {
    /// The script, the plan and the inputs.
    pub source: MemSource,
    /// What it writes to.
    pub sink: MemSink,
    /// The directories and files that it makes.
    pub files: Veiled,
}

impl Outside {
    /// These files to read, and nothing written or saved. No call fails.
    pub fn of<R: AllocGlobal>(rt: &R, source: MemSource) -> Outside {
        Outside {
            source,
            sink: MemSink::new(rt.alloc()),
            files: Veiled {
                files: MemFiles::new(rt.alloc()),
                calls: 0,
                wanting: 0,
            },
        }
    }
}

/// What was seen of a run.
#[derive(Drop)]
pub struct Seen {
    /// The number of how it ended.
    pub number: u8,
    /// What was written, and on a last line what is told of how it ended, if anything is.
    pub all: String,
    /// How many files it says that it read.
    pub reads: usize,
    /// How its jobs went, in order.
    pub histories: Vec<JobHistory>,
    /// What the executors of each job wrote down.
    pub logs: Vec<Vec<ExecLog>>,
    /// What is outside behind it.
    pub outside: Outside,
}

/// What is seen of the run of some words, where each attempt passes a gate, and a clock tells how
/// long it takes. No job is given up.
pub fn seen_of<
    G: Gate + Sync,
    C: Clock + Send + Drop,
    R: Abort + AllocGlobal + Threads + Wait + time::Clock + Sync,
>(rt: &R, words: &[String], outside: Outside, gate: &G, clock: C) -> Seen {
    let alloc = rt.alloc();
    let Outside {
        mut source,
        mut sink,
        files,
    } = outside;
    let Ran {
        status,
        read,
        history,
        logs,
        gave_up,
        files,
        clock: _,
    } = run(rt, alloc, words, &mut source, &mut sink, files, gate, clock);
    assert_eq!(rt; gave_up.len(), 0, "given up");
    let text = str::from_utf8(sink.bytes()).unwrap_or("(no text)");
    let told = fault_text(alloc, &status).expect(rt, "memory");
    let end = if told.is_empty() { "" } else { "\n" };
    let all = format!(in alloc; "{text}{told}{end}").expect(rt, "memory");
    Seen {
        number: status.number(),
        all,
        reads: read.len(),
        histories: history,
        logs,
        outside: Outside {
            source,
            sink,
            files,
        },
    }
}
