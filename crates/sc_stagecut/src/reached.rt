//! Which nodes are reached from one.
#![tactic(auto)]

ghost use Rattle.std.specs.Prelude.{◌≡◌, ◌<◌, IfOk, length, slice_set, true};
ghost use Rattle.sc_lineage.specs.ScriptData.{IsSoundScript};
ghost use Rattle.sc_stagecut.specs.Marking.{AreMarked, AreReached, is_marked, marked_by};
ghost use Rattle.sc_stagecut.specs.Reaching.{followed_from};

use crate::reads::{Follow, Read, read_at};
use sc_lineage::{NodeId, Script};
use std::alloc::{AllocError, Global};

/// A mark at each node that is reached from one, by the dependencies that are followed. Parents
/// come before their nodes, so one pass down from that node finds them all.
pub(crate) fn reached(
    alloc: Global,
    script: &Script,
    from: NodeId,
    follow: Follow,
) -> Result<Vec<bool>, AllocError>
    requires { from < length script.now.nodes }
    ensures { IfOk result (λ v. AreReached (followed_from follow script.now.nodes) from v.items) }
{
    script.is_sound();
    let mut marks = vec![in alloc; false; script.nodes().len()]?;
    mark(&mut marks, from as usize);
    let mut node = from as usize + 1;
    while node > 0 {
        node -= 1;
        if is_marked(marks.as_slice(), node) {
            mark_parents(&mut marks, script, node, follow);
        }
    }
    Ok(marks)
}

/// Whether a node is marked; one that there is no mark for isn't.
pub(crate) fn is_marked(marks: &[bool], node: usize) -> bool
    ensures { result ≡ is_marked marks.now node }
{
    match marks.get(node) {
        Some(mark) => *mark,
        None => false,
    }
}

/// Marks what a node reads by the dependencies that are followed.
fn mark_parents(marks: &mut Vec<bool>, script: &Script, node: usize, follow: Follow)
    requires same { length marks.old.items ≡ length script.now.nodes }
    requires sound { IsSoundScript script.now }
    ensures { AreMarked (followed_from follow script.now.nodes node)
        marks.old.items marks.new.items }
{
    mark_read(marks, read_at(script, node, 0), follow);
    mark_read(marks, read_at(script, node, 1), follow);
}

/// Marks what a side reads, where it is followed.
fn mark_read(marks: &mut Vec<bool>, read: Option<Read>, follow: Follow)
    ensures { marks.new.items ≡ marked_by follow read marks.old.items }
{
    if let Some(read) = read {
        if read.is_followed(follow) {
            mark(marks, read.parent as usize);
        }
    }
}

/// Marks a node, where there is a mark for it.
fn mark(marks: &mut Vec<bool>, node: usize)
    ensures { marks.new.items ≡ slice_set marks.old.items node true }
{
    if node < marks.len() {
        marks[node] = true;
    }
}
