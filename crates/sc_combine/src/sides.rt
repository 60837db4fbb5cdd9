//! Values by group.
#![tactic(auto)]

ghost use Rattle.std.specs.Prelude.{◌≡◌, ◌<◌, ◌≤◌, IfOk, length, map};
ghost use Rattle.std.specs.List.{All, concat};
ghost use Rattle.sc_base.specs.Limits.{count_limit};
ghost use Rattle.sc_base.specs.Lists.{numbers_below};
ghost use Rattle.sc_expr.specs.Heads.{list_value};
ghost use Rattle.sc_keys.specs.Splits.{places_of};
ghost use Rattle.sc_value.specs.Picked.{ArePlaces, picked};
ghost use Rattle.sc_combine.specs.Spans.{span_places};

use sc_base::COUNT_LIMIT;
use sc_columns::Rows;
use sc_keys::{Split, range_law};
use sc_value::Span;
use std::alloc::{AllocError, Global};
use std::marker::Model;

/// Values by group. Contracts see them as the values of each group, in order.
#[derive(Drop)]
pub struct Side {
    /// All values.
    pub(crate) values: Rows,
    /// The places of the values of each group.
    pub(crate) places: Split,
}

impl Model for Side {
    ghost use Rattle.std.specs.Prelude.{List, map};
    ghost use Rattle.std.specs.Coded.{coded_list};
    ghost use Rattle.std.specs.List.{concat};
    ghost use Rattle.sc_value.specs.Datum.{Datum};
    ghost use Rattle.sc_value.specs.DatumCode.{datum_code};
    ghost use Rattle.sc_value.specs.Picked.{ArePlaces, picked};

    ghost Value = { List (List Datum) };

    ghost coded = { coded_list (coded_list datum_code) };

    ghost view = { λ s. map (picked s.values) s.places };

    ghost invariant = { λ s. ArePlaces s.values (concat s.places) };
}

impl Side {
    /// Values, where each has a group.
    pub fn of(alloc: Global, values: Rows, numbers: &[u32], count: u32) -> Result<Side, AllocError>
        requires level { length numbers.now ≡ length values }
        requires below { All (λ n. n < count) numbers.now }
        ensures { IfOk result
            (λ s. s ≡ map (λ j. picked values (places_of j numbers.now)) (numbers_below count)) }
    {
        let places = Split::of(alloc, numbers, count)?;
        Ok(Side { values, places })
    }

    /// The values of each group as a list.
    pub fn lists(&self, alloc: Global) -> Result<Rows, AllocError>
        ensures { IfOk result (λ r. r ≡ map list_value self.now) }
    {
        range_law();
        let items = self.values.picked(alloc, self.places.order())?;
        let spans = spans_of(alloc, &self.places)?;
        let lists = Rows::of_lists(alloc, spans, items)?;
        Ok(lists)
    }
}

/// Where the places of each number lie among all. More than [`COUNT_LIMIT`] places are answered as
/// want of memory.
fn spans_of(alloc: Global, places: &Split) -> Result<Vec<Span>, AllocError>
    ensures are { IfOk result (λ v. map (span_places places.now) v.items ≡ places.now) }
    ensures within { IfOk result (λ v. length (concat places.now) ≤ count_limit) }
{
    if places.order().len() > COUNT_LIMIT {
        return Err(AllocError);
    }
    let mut spans = Vec::with_capacity(alloc, places.len())?;
    for j in 0..places.len() {
        let (from, to) = places.range(j);
        spans.push(Span {
            from: from as u32,
            to: to as u32,
        })?;
    }
    Ok(spans)
}
