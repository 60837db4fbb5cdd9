//! From arguments to the node or the action that they make. What an argument holds is moved.
#![tactic(auto)]

ghost use Rattle.std.specs.Prelude.{◌≡◌, ◌<◌, IfOk, length, map, true};
ghost use Rattle.sc_base.specs.Answers.{Finds};
ghost use Rattle.sc_lineage.specs.ScriptData.{IsCount, ReadsBefore, count_step, declared_counts, node_of_action, partition_limit};
ghost use Rattle.sc_lineage.specs.Views.{action_data_of, node_data_of, shuffling_data_of};
ghost use Rattle.sc_script.specs.Defining.{defined_data_of};
ghost use Rattle.sc_script.specs.Items.{action_from, node_from, shuffle_from};
ghost use Rattle.sc_script.specs.Lines.{union_fits};
ghost use Rattle.sc_script.specs.Views.{arg_data_of, args_left, args_of};
ghost use Rattle.sc_script.specs.declared.tables.Operation.TheVariants.{Meet, ReduceByKey};

use crate::arguments::{ItemError, Place, count_arg, expr_arg, literals_of, node_arg, text_arg};
use crate::defined::Defined;
use crate::tables::{ActionName, Operation};
use crate::trees::Arg;
use sc_lineage::{Action, Meeting, Node, Shuffling};
use sc_value::Name;
use std::alloc::Global;
use std::vec::IntoIter;

/// The node that an operation makes of arguments.
pub(crate) fn node_of(
    alloc: Global,
    defined: &Defined,
    operation: Operation,
    args: Vec<Arg>,
) -> Result<Node, ItemError>
    requires { union_fits (defined_data_of defined.now) operation
        (args_of (map arg_data_of args.items)) ≡ true }
    ensures node { Finds node_data_of result (node_from (partition_limit defined.now.script)
        defined.now.names.items operation (args_of (map arg_data_of args.items))) }
    ensures before { IfOk result
        (λ node. ReadsBefore (length defined.now.script.nodes) (node_data_of node)) }
    ensures count { IfOk result (λ node. IsCount (partition_limit defined.now.script)
        (count_step (declared_counts defined.now.script.nodes) (node_data_of node))) }
{
    let mut args = args.into_iter();
    match operation {
        Operation::Text => {
            let input = text_arg(&mut args)?;
            let slices = count_arg(defined, &mut args)?;
            let input = Name::new(alloc, input.as_str())?;
            Ok(Node::Text { input, slices })
        }
        Operation::Parallelize => {
            let slices = count_arg(defined, &mut args)?;
            let literals = literals_of(alloc, args)?;
            Ok(Node::Parallelize { literals, slices })
        }
        Operation::Each(kind) => {
            let parent = node_arg(defined, &mut args)?;
            let expr = expr_arg(alloc, Place::Row, &mut args)?;
            Ok(Node::Each { kind, parent, expr })
        }
        Operation::Union => {
            let left = node_arg(defined, &mut args)?;
            let right = node_arg(defined, &mut args)?;
            Ok(Node::Union { left, right })
        }
        Operation::Coalesce => {
            let parent = node_arg(defined, &mut args)?;
            let partitions = count_arg(defined, &mut args)?;
            Ok(Node::Coalesce { parent, partitions })
        }
        Operation::Repartition => shuffle_of(defined, Shuffling::Repartition, args),
        Operation::Cache => {
            let parent = node_arg(defined, &mut args)?;
            Ok(Node::Cache { parent })
        }
        Operation::ReduceByKey => reduced_of(alloc, defined, args),
        Operation::GroupByKey => shuffle_of(defined, Shuffling::GroupByKey, args),
        Operation::SortByKey => shuffle_of(defined, Shuffling::SortByKey, args),
        Operation::Meet(kind) => meet_of(defined, kind, args),
    }
}

/// The shuffle that arguments make where it takes no expression.
fn shuffle_of(
    defined: &Defined,
    kind: Shuffling,
    mut args: IntoIter<Arg>,
) -> Result<Node, ItemError>
    ensures node { Finds node_data_of result (shuffle_from (partition_limit defined.now.script)
        defined.now.names.items (shuffling_data_of kind) (args_left args)) }
    ensures before { IfOk result
        (λ node. ReadsBefore (length defined.now.script.nodes) (node_data_of node)) }
    ensures count { IfOk result (λ node. IsCount (partition_limit defined.now.script)
        (count_step (declared_counts defined.now.script.nodes) (node_data_of node))) }
{
    let parent = node_arg(defined, &mut args)?;
    let partitions = count_arg(defined, &mut args)?;
    Ok(Node::Shuffle {
        kind,
        parent,
        partitions,
    })
}

/// The shuffle that arguments make which puts the values under each key together.
fn reduced_of(alloc: Global, defined: &Defined, mut args: IntoIter<Arg>) -> Result<Node, ItemError>
    ensures node { Finds node_data_of result (node_from (partition_limit defined.now.script)
        defined.now.names.items ReduceByKey (args_left args)) }
    ensures before { IfOk result
        (λ node. ReadsBefore (length defined.now.script.nodes) (node_data_of node)) }
    ensures count { IfOk result (λ node. IsCount (partition_limit defined.now.script)
        (count_step (declared_counts defined.now.script.nodes) (node_data_of node))) }
{
    let parent = node_arg(defined, &mut args)?;
    let partitions = count_arg(defined, &mut args)?;
    let expr = expr_arg(alloc, Place::Two, &mut args)?;
    Ok(Node::Shuffle {
        kind: Shuffling::ReduceByKey { expr },
        parent,
        partitions,
    })
}

/// The node that arguments make where rows of two parents meet.
fn meet_of(defined: &Defined, kind: Meeting, mut args: IntoIter<Arg>) -> Result<Node, ItemError>
    ensures node { Finds node_data_of result (node_from (partition_limit defined.now.script)
        defined.now.names.items (Meet kind) (args_left args)) }
    ensures before { IfOk result
        (λ node. ReadsBefore (length defined.now.script.nodes) (node_data_of node)) }
    ensures count { IfOk result (λ node. IsCount (partition_limit defined.now.script)
        (count_step (declared_counts defined.now.script.nodes) (node_data_of node))) }
{
    let left = node_arg(defined, &mut args)?;
    let right = node_arg(defined, &mut args)?;
    let partitions = count_arg(defined, &mut args)?;
    Ok(Node::Meet {
        kind,
        left,
        right,
        partitions,
    })
}

/// The action that is done with arguments.
pub(crate) fn action_of(
    alloc: Global,
    defined: &Defined,
    action: ActionName,
    args: Vec<Arg>,
) -> Result<Action, ItemError>
    ensures action { Finds action_data_of result (action_from
        defined.now.names.items action (args_of (map arg_data_of args.items))) }
    ensures before { IfOk result
        (λ action. node_of_action (action_data_of action) < length defined.now.script.nodes) }
{
    let mut args = args.into_iter();
    let node = node_arg(defined, &mut args)?;
    match action {
        ActionName::Collect => Ok(Action::Collect { node }),
        ActionName::Count => Ok(Action::Count { node }),
        ActionName::Reduce => {
            let expr = expr_arg(alloc, Place::Two, &mut args)?;
            Ok(Action::Reduce { node, expr })
        }
        ActionName::Save => {
            let dir = text_arg(&mut args)?;
            let dir = Name::new(alloc, dir.as_str())?;
            Ok(Action::Save { node, dir })
        }
    }
}
