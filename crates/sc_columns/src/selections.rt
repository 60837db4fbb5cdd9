//! Some of the rows.
#![tactic(auto)]

ghost use Rattle.std.specs.Prelude.{◌≡◌, IfOk, slice_range};
ghost use Rattle.sc_value.specs.Kept.{kept};
ghost use Rattle.sc_value.specs.Picked.{ArePlaces, picked as items_picked};

use crate::chains::joined;
use crate::filters::filtered;
use crate::parts::part;
use crate::picks::picked;
use crate::rows::Rows;
use std::alloc::{AllocError, Global};

impl Rows {
    /// The rows from one place up to, not including, another, as far as there are rows; none is
    /// copied.
    pub fn part(&self, alloc: Global, from: usize, to: usize) -> Result<Rows, AllocError>
        ensures { IfOk result (λ r. r ≡ slice_range self.now from to) }
    {
        if from == 0 && to >= self.len() {
            return self.share();
        }
        Rows::of_column(part(alloc, self.column(), from, to)?)
    }

    /// The rows whose place is marked.
    pub fn filter(&self, alloc: Global, marks: &[bool]) -> Result<Rows, AllocError>
        ensures { IfOk result (λ r. r ≡ kept marks.now self.now) }
    {
        Rows::of_column(filtered(alloc, self.column(), marks)?)
    }

    /// The rows at some places, in their order. Rows in several runs are joined first.
    pub fn picked(&self, alloc: Global, places: &[u32]) -> Result<Rows, AllocError>
        requires { ArePlaces self.now places.now }
        ensures { IfOk result (λ r. r ≡ items_picked self.now places.now) }
    {
        let column = joined(alloc, self.column())?;
        Rows::of_column(picked(alloc, &column, places)?)
    }
}
