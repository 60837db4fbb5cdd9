//! The types of rows under keys.
#![tactic(auto)]

ghost use Rattle.std.specs.Prelude.{◌≡◌, IfOk, Some};
ghost use Rattle.sc_base.specs.Answers.{Finds};
ghost use Rattle.sc_value.specs.Types.{list_type, pair_type};
ghost use Rattle.sc_value.specs.Views.{type_data_of};
ghost use Rattle.sc_lineage.specs.RowTypes.{beside_key, by_key, key_type as type_of_key, kept_type as type_of_kept, met_type as type_of_met, shuffled_type as type_of_shuffled};
ghost use Rattle.sc_lineage.specs.Views.{shuffling_data_of};

use crate::nodes::{Meeting, Shuffling};
use crate::types::{fold_type, where_same};
use sc_base::OrMemory;
use sc_expr::{IllTyped, TypeError};
use sc_value::Ty;
use std::alloc::{AllocError, Global};

/// The type of the rows that a shuffle gives of rows of a type.
pub(crate) fn shuffled_type(alloc: Global, kind: &Shuffling, row: &Ty) -> Result<Ty, TypeError>
    ensures { Finds type_data_of result
        (type_of_shuffled (shuffling_data_of kind.now) (type_data_of row.now)) }
{
    match kind {
        Shuffling::ReduceByKey { .. } | Shuffling::GroupByKey | Shuffling::SortByKey => {
            pairs_type(alloc, kind, row)
        }
        Shuffling::Repartition => Ok(row.copy(alloc)?),
    }
}

/// The type of pairs of a key with what a shuffle leaves under it.
fn pairs_type(alloc: Global, kind: &Shuffling, row: &Ty) -> Result<Ty, TypeError>
    ensures { Finds type_data_of result
        (by_key (type_of_kept (shuffling_data_of kind.now)) (type_data_of row.now)) }
{
    match row {
        Ty::Pair(key, value) => {
            let key = key_type(alloc, key)?;
            let kept = kept_type(alloc, kind, value)?;
            Ok(pair_of(alloc, key, kept)?)
        }
        Ty::Int | Ty::Bool | Ty::Text | Ty::List(_) => Err(OrMemory::Fault(IllTyped)),
    }
}

/// The type of what a shuffle leaves under a key, of values of a type.
fn kept_type(alloc: Global, kind: &Shuffling, value: &Ty) -> Result<Ty, TypeError>
    ensures { Finds type_data_of result
        (type_of_kept (shuffling_data_of kind.now) (type_data_of value.now)) }
{
    match kind {
        Shuffling::ReduceByKey { expr } => fold_type(alloc, expr, value),
        Shuffling::GroupByKey => Ok(list_of(alloc, value)?),
        Shuffling::SortByKey | Shuffling::Repartition => Ok(value.copy(alloc)?),
    }
}

/// The type of the rows where those of two types meet.
pub(crate) fn met_type(alloc: Global, kind: Meeting, left: &Ty, right: &Ty) -> Result<Ty, TypeError>
    ensures { Finds type_data_of result
        (type_of_met kind (type_data_of left.now) (type_data_of right.now)) }
{
    match left {
        Ty::Pair(key, value) => match right {
            Ty::Pair(other, beside) => pair_met(alloc, kind, (key, value), (other, beside)),
            Ty::Int | Ty::Bool | Ty::Text | Ty::List(_) => Err(OrMemory::Fault(IllTyped)),
        },
        Ty::Int | Ty::Bool | Ty::Text | Ty::List(_) => Err(OrMemory::Fault(IllTyped)),
    }
}

/// The type of the rows where pairs of two types meet.
fn pair_met(
    alloc: Global,
    kind: Meeting,
    left: (&Ty, &Ty),
    right: (&Ty, &Ty),
) -> Result<Ty, TypeError>
    ensures { Finds type_data_of result (type_of_met kind
        (pair_type (type_data_of left.entry.0.now) (type_data_of left.entry.1.now))
        (pair_type (type_data_of right.entry.0.now) (type_data_of right.entry.1.now))) }
{
    let key = where_same(alloc, left.0, right.0)?;
    let key = key_type(alloc, &key)?;
    let beside = beside(alloc, kind, left.1, right.1)?;
    Ok(pair_of(alloc, key, beside)?)
}

/// The type of what stands beside a key where rows of two parents meet.
fn beside(alloc: Global, kind: Meeting, left: &Ty, right: &Ty) -> Result<Ty, AllocError>
    ensures { IfOk result (λ t. type_data_of t
        ≡ beside_key kind (type_data_of left.now) (type_data_of right.now)) }
{
    match kind {
        Meeting::Cogroup => {
            let first = list_of(alloc, left)?;
            let second = list_of(alloc, right)?;
            pair_of(alloc, first, second)
        }
        Meeting::Join => {
            let first = left.copy(alloc)?;
            let second = right.copy(alloc)?;
            pair_of(alloc, first, second)
        }
    }
}

/// A type again, where it is one of keys: of numbers or of texts.
fn key_type(alloc: Global, key: &Ty) -> Result<Ty, TypeError>
    ensures { Finds type_data_of result (type_of_key (type_data_of key.now)) }
{
    match key {
        Ty::Int | Ty::Text => Ok(key.copy(alloc)?),
        Ty::Bool | Ty::Pair(_, _) | Ty::List(_) => Err(OrMemory::Fault(IllTyped)),
    }
}

/// The type of pairs of two types.
fn pair_of(alloc: Global, first: Ty, second: Ty) -> Result<Ty, AllocError>
    ensures { IfOk result
        (λ t. type_data_of t ≡ pair_type (type_data_of first) (type_data_of second)) }
{
    Ok(Ty::Pair(Box::new(alloc, first)?, Box::new(alloc, second)?))
}

/// The type of lists of a type.
fn list_of(alloc: Global, item: &Ty) -> Result<Ty, AllocError>
    ensures { IfOk result (λ t. type_data_of t ≡ list_type (type_data_of item.now)) }
{
    let item = item.copy(alloc)?;
    Ok(Ty::List(Box::new(alloc, item)?))
}
