//! The inputs that a script names.
#![tactic(auto)]

ghost use Rattle.std.specs.Prelude.{◌≡◌, [], ◌∷◌, IfOk, OnOk};
ghost use Rattle.std.specs.List.{list_any};
ghost use Rattle.std.specs.Str.{bytes_eq};
ghost use Rattle.sc_lineage.specs.ScriptData.{input_names, names_of_node};
ghost use Rattle.sc_lineage.specs.Views.{node_data_of};
ghost use Rattle.sc_read.specs.Naming.{with_names};

use sc_lineage::{Node, Script};
use sc_value::Name;
use std::alloc::{AllocError, Global};

/// The inputs that a script names, each once, in the order in which it names them first.
pub(crate) fn names_of(alloc: Global, script: &Script) -> Result<Vec<Name>, AllocError>
    ensures { IfOk result (λ v. v.items ≡ input_names script.now) }
{
    let mut names = Vec::new(alloc);
    for node in script.nodes() {
        note_names(alloc, &mut names, node)?;
    }
    Ok(names)
}

/// Adds the names of a node, unless they are there.
fn note_names(alloc: Global, names: &mut Vec<Name>, node: &Node) -> Result<(), AllocError>
    ensures { OnOk result
        (names.new.items ≡ with_names names.old.items (names_of_node (node_data_of node.now))) }
{
    match node {
        Node::Text { input, .. } => note(alloc, names, input),
        Node::Parallelize { .. }
        | Node::Each { .. }
        | Node::Union { .. }
        | Node::Coalesce { .. }
        | Node::Cache { .. }
        | Node::Shuffle { .. }
        | Node::Meet { .. } => Ok(()),
    }
}

/// Adds a name, unless it is there.
fn note(alloc: Global, names: &mut Vec<Name>, name: &Name) -> Result<(), AllocError>
    ensures { OnOk result (names.new.items ≡ with_names names.old.items (name.now ∷ [])) }
{
    if !has(names, name) {
        names.push(name.copy(alloc)?)?;
    }
    Ok(())
}

/// Whether a name is there.
fn has(names: &[Name], name: &Name) -> bool
    ensures { result ≡ list_any (bytes_eq name.now) names.now }
{
    for known in names {
        if name == known {
            return true;
        }
    }
    false
}
