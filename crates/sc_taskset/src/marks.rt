//! Which rows of a set may be handed out.
#![tactic(auto)]

ghost use Rattle.std.specs.Prelude.{◌<◌, ◌+◌, ◌^◌, [], IfOk};
ghost use Rattle.sc_taskset.specs.Marks.{AreMarked, IsMarked, MarksFit};

use crate::flags::{flags_for, put_flag};
use crate::rows::Row;
use std::alloc::{AllocError, Global};

/// Which rows are to be handed out, and of which one attempt runs alone: flags by their places.
#[derive(Drop)]
pub struct Marks {
    pub pending: Vec<u64>,
    pub single: Vec<u64>,
}

impl Marks {
    /// Room for the marks of so many rows, none of which is there.
    pub fn new(alloc: Global, rows: usize) -> Result<Marks, AllocError>
        requires { rows < 2 ^ 63 }
        ensures none { IfOk result (λ marks. AreMarked marks []) }
        ensures fit { IfOk result (λ marks. MarksFit marks rows) }
    {
        Ok(Marks {
            pending: flags_for(alloc, rows)?,
            single: flags_for(alloc, rows)?,
        })
    }

    /// Marks the row at a place.
    pub fn put(&mut self, place: usize, row: Row)
        requires { MarksFit self.old (place + 1) }
        ensures { IsMarked self.old self.new place row }
    {
        put_flag(&mut self.pending, place, row.is_pending());
        put_flag(&mut self.single, place, row.is_single());
    }
}
