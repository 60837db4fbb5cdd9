//! The types of rows.
#![tactic(auto)]

ghost use Rattle.std.specs.Prelude.{◌≡◌, Some, map, slice_get};
ghost use Rattle.sc_base.specs.Answers.{Finds};
ghost use Rattle.sc_value.specs.Types.{pair_type};
ghost use Rattle.sc_value.specs.Views.{type_data_of};
ghost use Rattle.sc_expr.specs.Views.{expr_data_of};
ghost use Rattle.sc_lineage.specs.declared.nodes.Elementwise.TheVariants.{Filter};
ghost use Rattle.sc_lineage.specs.RowTypes.{row_type as type_of_rows, action_type as type_of_action, each_type as type_of_each, item_type as type_of_items, folds_type, items_over, literals_type as type_of_literals, over_value, type_over, where_same as where_equal};
ghost use Rattle.sc_lineage.specs.Views.{action_data_of, node_data_of};

use crate::keyed_types::{met_type, shuffled_type};
use crate::nodes::{Action, Elementwise, Node, NodeId};
use sc_base::OrMemory;
use sc_columns::Rows;
use sc_expr::{Expr, IllTyped, TypeEnv, TypeError, type_of};
use sc_value::{Ty, Value, is_same_type};
use std::alloc::Global;

/// The type of a node's rows, where `types` has those of the nodes before it.
///
/// # Errors
///
/// `IllTyped` exactly where the node has no type there, unless memory runs out.
pub fn row_type(alloc: Global, types: &[Ty], node: &Node) -> Result<Ty, TypeError>
    ensures { Finds type_data_of result
        (type_of_rows (map type_data_of types.now) (node_data_of node.now)) }
{
    match node {
        Node::Text { .. } => Ok(Ty::Text),
        Node::Parallelize { literals, .. } => literals_type(alloc, literals),
        Node::Each { kind, parent, expr } => {
            let row = type_at(types, *parent)?;
            each_type(alloc, *kind, expr, row)
        }
        Node::Union { left, right } => {
            let first = type_at(types, *left)?;
            let second = type_at(types, *right)?;
            where_same(alloc, first, second)
        }
        Node::Coalesce { parent, .. } | Node::Cache { parent } => {
            Ok(type_at(types, *parent)?.copy(alloc)?)
        }
        Node::Shuffle { kind, parent, .. } => {
            let row = type_at(types, *parent)?;
            shuffled_type(alloc, kind, row)
        }
        Node::Meet {
            kind,
            left,
            right,
            ..
        } => {
            let first = type_at(types, *left)?;
            let second = type_at(types, *right)?;
            met_type(alloc, *kind, first, second)
        }
    }
}

/// The type of what an action puts together, where `types` has those of the nodes' rows.
///
/// # Errors
///
/// `IllTyped` exactly where it may not be done with such rows, unless memory runs out.
pub fn action_type(alloc: Global, types: &[Ty], action: &Action) -> Result<Ty, TypeError>
    ensures { Finds type_data_of result
        (type_of_action (map type_data_of types.now) (action_data_of action.now)) }
{
    match action {
        Action::Collect { node } | Action::Count { node } | Action::Save { node, .. } => {
            Ok(type_at(types, *node)?.copy(alloc)?)
        }
        Action::Reduce { node, expr } => {
            let row = type_at(types, *node)?;
            fold_type(alloc, expr, row)
        }
    }
}

/// The type of a node's rows, where it is known.
fn type_at(types: &[Ty], node: NodeId) -> Result<&Ty, TypeError>
    ensures { Finds (λ t. type_data_of t.now) result
        (slice_get (map type_data_of types.now) node) }
{
    match types.get(node as usize) {
        Some(row) => Ok(row),
        None => Err(OrMemory::Fault(IllTyped)),
    }
}

/// The type of literals, by the first of them.
fn literals_type(alloc: Global, literals: &Rows) -> Result<Ty, TypeError>
    ensures { Finds type_data_of result (type_of_literals literals.now) }
{
    if literals.is_empty() {
        return Err(OrMemory::Fault(IllTyped));
    }
    match literals.row(alloc, 0)? {
        Value::Int(_) => Ok(Ty::Int),
        Value::Text(_) => Ok(Ty::Text),
        Value::Bool(_) | Value::Pair(_, _) | Value::List(_) => Err(OrMemory::Fault(IllTyped)),
    }
}

/// The type of the rows that an operation gives of rows of a type.
fn each_type(alloc: Global, kind: Elementwise, expr: &Expr, row: &Ty) -> Result<Ty, TypeError>
    ensures { Finds type_data_of result
        (type_of_each kind (expr_data_of expr.now) (type_data_of row.now)) }
{
    match kind {
        Elementwise::Map => type_of(alloc, expr, TypeEnv::One(row)),
        Elementwise::Filter => kept_type(alloc, expr, row),
        Elementwise::FlatMap => flat_type(alloc, expr, row),
        Elementwise::MapValues => values_type(alloc, expr, row),
        Elementwise::FlatMapValues => flat_values_type(alloc, expr, row),
    }
}

/// The type of the rows that are kept where an expression holds.
fn kept_type(alloc: Global, expr: &Expr, row: &Ty) -> Result<Ty, TypeError>
    ensures { Finds type_data_of result
        (type_of_each Filter (expr_data_of expr.now) (type_data_of row.now)) }
{
    match type_of(alloc, expr, TypeEnv::One(row))? {
        Ty::Bool => Ok(row.copy(alloc)?),
        Ty::Int | Ty::Text | Ty::Pair(_, _) | Ty::List(_) => Err(OrMemory::Fault(IllTyped)),
    }
}

/// The type of the items of the lists that an expression gives.
fn flat_type(alloc: Global, expr: &Expr, row: &Ty) -> Result<Ty, TypeError>
    ensures { Finds type_data_of result
        (items_over (expr_data_of expr.now) (type_data_of row.now)) }
{
    match type_of(alloc, expr, TypeEnv::One(row))? {
        Ty::List(item) => Ok(Box::into_inner(item)),
        Ty::Int | Ty::Bool | Ty::Text | Ty::Pair(_, _) => Err(OrMemory::Fault(IllTyped)),
    }
}

/// The type of pairs of a key with what an expression gives at the value.
fn values_type(alloc: Global, expr: &Expr, row: &Ty) -> Result<Ty, TypeError>
    ensures { Finds type_data_of result
        (over_value (type_over (expr_data_of expr.now)) (type_data_of row.now)) }
{
    match row {
        Ty::Pair(key, value) => {
            let given = type_of(alloc, expr, TypeEnv::One(value))?;
            with_key(alloc, key, given)
        }
        Ty::Int | Ty::Bool | Ty::Text | Ty::List(_) => Err(OrMemory::Fault(IllTyped)),
    }
}

/// The type of pairs of a key with the items of what an expression gives at the value.
fn flat_values_type(alloc: Global, expr: &Expr, row: &Ty) -> Result<Ty, TypeError>
    ensures { Finds type_data_of result
        (over_value (items_over (expr_data_of expr.now)) (type_data_of row.now)) }
{
    match row {
        Ty::Pair(key, value) => {
            let given = flat_type(alloc, expr, value)?;
            with_key(alloc, key, given)
        }
        Ty::Int | Ty::Bool | Ty::Text | Ty::List(_) => Err(OrMemory::Fault(IllTyped)),
    }
}

/// The type of pairs of a key and a value.
fn with_key(alloc: Global, key: &Ty, value: Ty) -> Result<Ty, TypeError>
    ensures { Finds type_data_of result
        (Some (pair_type (type_data_of key.now) (type_data_of value))) }
{
    let key = key.copy(alloc)?;
    Ok(Ty::Pair(Box::new(alloc, key)?, Box::new(alloc, value)?))
}

/// The type of what an expression gives of two rows, where it is theirs.
pub(crate) fn fold_type(alloc: Global, expr: &Expr, row: &Ty) -> Result<Ty, TypeError>
    ensures { Finds type_data_of result
        (folds_type (expr_data_of expr.now) (type_data_of row.now)) }
{
    let given = type_of(alloc, expr, TypeEnv::Two(row, row))?;
    where_same(alloc, row, &given)
}

/// A type again, where another one is the same.
pub(crate) fn where_same(alloc: Global, a: &Ty, b: &Ty) -> Result<Ty, TypeError>
    ensures { Finds type_data_of result
        (where_equal (type_data_of a.now) (type_data_of b.now)) }
{
    if is_same_type(a, b) {
        Ok(a.copy(alloc)?)
    } else {
        Err(OrMemory::Fault(IllTyped))
    }
}
