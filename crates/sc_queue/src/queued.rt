//! Which queue it is, as proofs know it.
#![tactic(auto)]

ghost use Rattle.atomic_table.specs.Seated.{TableId};
ghost use Rattle.sc_queue.specs.Names.{no_queue};

use std::marker::Brand;

/// A type that stands for a queue. It has no bytes.
pub trait Queued {
    ghost queue: { TableId };
}

/// Any queue: who makes one says which it is for its brand.
impl Queued for Brand {
    ghost queue = { no_queue };
}
