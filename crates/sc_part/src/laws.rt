//! What sorts and bounds are.
#![tactic(auto)]

ghost use Rattle.sc_part.specs.Laws.{BoundsAreLawful, RowsAreSorted};

/// The law of sorts by key. A call does nothing.
pub fn rows_are_sorted()
    ensures { RowsAreSorted }
{}

/// The law of bounds. A call does nothing.
pub fn bounds_are_lawful()
    ensures { BoundsAreLawful }
{}
