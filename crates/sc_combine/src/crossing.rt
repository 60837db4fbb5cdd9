//! Values of two sides, each of the one beside each of the other.
#![tactic(auto)]

ghost use Rattle.std.specs.Prelude.{◌≡◌, ◌≤◌, ◌++◌, IfOk, OnOk, length, replicate};
ghost use Rattle.std.specs.List.{flat_map};
ghost use Rattle.sc_base.specs.Limits.{count_limit};
ghost use Rattle.sc_combine.specs.Crossings.{crossed as crossed_of};

use crate::sides::Side;
use sc_base::COUNT_LIMIT;
use sc_columns::Rows;
use std::alloc::{AllocError, Global};

/// What stands beside one another: a group, a place on the left and one on the right, each in a
/// column of its own.
#[derive(Drop)]
struct Crossing {
    groups: Vec<u32>,
    left: Vec<u32>,
    right: Vec<u32>,
}

/// Each value of the left with each of the right, beside the key of their group.
///
/// # Errors
///
/// Memory is wanting, or there are more than [`COUNT_LIMIT`] keys.
pub fn crossed(alloc: Global, keys: &Rows, left: &Side, right: &Side) -> Result<Rows, AllocError>
    requires left_level { length left.now ≡ length keys.now }
    requires right_level { length right.now ≡ length keys.now }
    ensures are { IfOk result (λ r. r ≡ crossed_of keys.now left.now right.now) }
    ensures within { IfOk result (λ r. length keys.now ≤ count_limit) }
{
    if keys.len() > COUNT_LIMIT {
        return Err(AllocError);
    }
    let mut all = Crossing {
        groups: Vec::new(alloc),
        left: Vec::new(alloc),
        right: Vec::new(alloc),
    };
    for j in 0..keys.len() {
        cross(
            j as u32,
            left.places.places(j),
            right.places.places(j),
            &mut all,
        )?;
    }
    let keys = keys.picked(alloc, &all.groups)?;
    let first = left.values.picked(alloc, &all.left)?;
    let second = right.values.picked(alloc, &all.right)?;
    let values = Rows::pairs(alloc, first, second)?;
    let rows = Rows::pairs(alloc, keys, values)?;
    Ok(rows)
}

/// Adds each of some places on the left beside each of some on the right.
fn cross(group: u32, left: &[u32], right: &[u32], all: &mut Crossing) -> Result<(), AllocError>
    ensures groups { OnOk result (all.new.groups.items ≡ all.old.groups.items
        ++ flat_map (λ p. replicate (length right.now) group) left.now) }
    ensures left { OnOk result (all.new.left.items ≡ all.old.left.items
        ++ flat_map (λ p. replicate (length right.now) p) left.now) }
    ensures right { OnOk result (all.new.right.items ≡ all.old.right.items
        ++ flat_map (λ p. right.now) left.now) }
{
    for p in left {
        repeat(&mut all.groups, group, right.len())?;
        repeat(&mut all.left, *p, right.len())?;
        all.right.extend_from_slice(right)?;
    }
    Ok(())
}

/// Adds a number so many times.
fn repeat(out: &mut Vec<u32>, number: u32, count: usize) -> Result<(), AllocError>
    ensures { OnOk result (out.new.items ≡ out.old.items ++ replicate count number) }
{
    match out.len().checked_add(count) {
        Some(len) => out.resize(len, number),
        None => Err(AllocError),
    }
}
