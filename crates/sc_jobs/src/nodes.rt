//! The node that a job is for.
#![tactic(auto)]

ghost use Rattle.std.specs.Prelude.{◌≡◌, ◌<◌, length};
ghost use Rattle.sc_compute.specs.Stages.{mapped_in};
ghost use Rattle.sc_lineage.specs.ScriptData.{node_of_action};
ghost use Rattle.sc_lineage.specs.Views.{action_data_of, node_data_of};
ghost use Rattle.sc_jobs.specs.JobData.{IsGoal, goal_node};

use crate::goals::Goal;
use sc_lineage::{Action, Node, NodeId, Work};

/// The node that a job of a goal begins at.
pub(crate) fn goal_node(work: &Work, goal: Goal) -> NodeId
    ensures { result ≡ goal_node work.now goal }
{
    let script = work.script();
    match goal {
        Goal::Action { number } => match script.actions().get(number as usize) {
            Some(action) => node_of(action),
            None => 0,
        },
        Goal::Bounds { sort } => match script.nodes().get(sort as usize) {
            Some(node) => first_parent(node),
            None => 0,
        },
    }
}

/// The node that a job of a goal begins at is there. A call does nothing.
pub(crate) fn goal_is_known(work: &Work, goal: Goal)
    requires { IsGoal work.now goal }
    ensures { goal_node work.now goal < length work.now.script.nodes }
{
    let _ = goal;
    work.is_sound();
}

/// The node of an action.
fn node_of(action: &Action) -> NodeId
    ensures { result ≡ node_of_action (action_data_of action.now) }
{
    match action {
        Action::Collect { node } => *node,
        Action::Count { node } => *node,
        Action::Reduce { node, .. } | Action::Save { node, .. } => *node,
    }
}

/// The only or left parent of a node, and 0 where it has none.
fn first_parent(node: &Node) -> NodeId
    ensures { result ≡ mapped_in (node_data_of node.now) 0 }
{
    match node {
        Node::Text { .. } | Node::Parallelize { .. } => 0,
        Node::Each { parent, .. } | Node::Cache { parent } => *parent,
        Node::Coalesce { parent, .. } | Node::Shuffle { parent, .. } => *parent,
        Node::Union { left, .. } | Node::Meet { left, .. } => *left,
    }
}
