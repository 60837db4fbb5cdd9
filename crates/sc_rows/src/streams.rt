//! What a node gives, with the raise that ends it: a run tells only that there is one.
#![tactic(auto)]

use crate::works::work_of;
use sc_columns::Rows;
use sc_lineage::Stream;
use sc_ops::run_node;
use std::process::Abort;
use std::thread::Threads;

/// The first partition of the last node of a script, of which each node reads the one before: its
/// rows, and the word for the raise that ends them, or no word for none.
pub fn last_stream<R: Abort + AllocGlobal + Threads + Sync>(
    rt: &R,
    script: &str,
    input: &str,
) -> (Rows, &'static str) {
    let work = work_of(rt, script, "", "", input);
    let mut inputs = Vec::new(rt.alloc());
    for (i, _) in work.script().nodes().iter().enumerate() {
        let node = u32::try_from(i).expect(rt, "a number of a node");
        let stream = run_node(rt.alloc(), &work, node, 0, &inputs).expect(rt, "memory");
        inputs.clear();
        inputs.push(stream).expect(rt, "memory");
    }
    let Stream { rows, raise } = inputs.pop().expect(rt, "a node");
    match raise {
        Some(raise) => (rows, raise.name()),
        None => (rows, ""),
    }
}
