//! Rows of two sides that have the same keys.
#![tactic(auto)]

ghost use Rattle.std.specs.Prelude.{◌≡◌, IfOk, List};
ghost use Rattle.sc_lineage.specs.Keyed.{met};
ghost use Rattle.sc_lineage.specs.declared.nodes.Meeting.TheVariants.{Cogroup};
ghost use Rattle.sc_value.specs.Datum.{Datum};
ghost use Rattle.sc_combine.specs.Groupings.{AreSides};

use crate::crossing::crossed;
use crate::grouping::group;
use crate::sides::Side;
use sc_batch::halves;
use sc_columns::Rows;
use sc_lineage::Meeting;
use std::alloc::{AllocError, Global};

/// The keys of two sides, each once, with the values that each side has under them.
#[derive(Drop)]
pub struct Sides {
    /// The keys.
    pub keys: Rows,
    /// The values of the left side.
    pub left: Side,
    /// The values of the right side.
    pub right: Side,
}

/// What the rows of two sides give that have the same keys.
pub fn meet(alloc: Global, kind: Meeting, left: &Rows, right: &Rows) -> Result<Rows, AllocError>
    ensures { IfOk result (λ r. r ≡ met kind left.now right.now) }
{
    let sides = sides_of(alloc, left, right)?;
    match kind {
        Meeting::Cogroup => {
            let rows = gathered(alloc, sides)?;
            Ok(rows)
        }
        Meeting::Join => {
            let rows = crossed(alloc, &sides.keys, &sides.left, &sides.right)?;
            Ok(rows)
        }
    }
}

/// The keys of two sides, with the values of each.
fn sides_of(alloc: Global, left: &Rows, right: &Rows) -> Result<Sides, AllocError>
    ensures { IfOk result (AreSides left.now right.now) }
{
    let left = halves(alloc, left)?;
    let right = halves(alloc, right)?;
    let few = left.first.len();
    let runs = Rows::concat(alloc, left.first, right.first)?;
    let firsts = runs.joined(alloc)?;
    let groups = group(alloc, &firsts)?;
    let (front, back) = groups.numbers.split_at(few);
    let left = Side::of(alloc, left.second, front, groups.count)?;
    let right = Side::of(alloc, right.second, back, groups.count)?;
    Ok(Sides {
        keys: groups.keys,
        left,
        right,
    })
}

/// Each key with the values of both sides, gathered.
fn gathered(alloc: Global, sides: Sides) -> Result<Rows, AllocError>
    ensures { IfOk result (λ r. (left right : List Datum) → AreSides left right sides
        → r ≡ met Cogroup left right) }
{
    let first = sides.left.lists(alloc)?;
    let second = sides.right.lists(alloc)?;
    let values = Rows::pairs(alloc, first, second)?;
    let rows = Rows::pairs(alloc, sides.keys, values)?;
    Ok(rows)
}
