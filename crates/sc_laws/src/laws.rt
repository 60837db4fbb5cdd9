//! The laws, on functions that do nothing.
#![tactic(auto)]

ghost use Rattle.sc_laws.specs.Coalesces.{CoalesceLaw};
ghost use Rattle.sc_laws.specs.Combines.{CombineLaw, LeaderLaw};
ghost use Rattle.sc_laws.specs.Skips.{OutcomeLaw, SkipLaw};
ghost use Rattle.sc_laws.specs.SortBounds.{BoundsLaw};
ghost use Rattle.sc_laws.specs.Spreads.{NeversAreByRaises, OwnRaisesSpread, RaisesSpread, RaisesSpreadAlong};

/// Where a shuffle is skipped: the sequential and the local meaning of each node raise in some
/// partition both or neither, and where neither does they are equal.
pub fn skip_law()
    ensures { SkipLaw }
{}

/// What the partitions of an action's node give as they are computed, put together, is what the
/// action gives by the sequential meaning.
pub fn outcome_law()
    ensures { OutcomeLaw }
{}

/// The bounds that are found from what tasks compute of a sort's parent are those of the sequential
/// meaning.
pub fn bounds_law()
    ensures { BoundsLaw }
{}

/// Rows put together under their keys: each key once, in order of first appearance, with the left
/// fold of its values in order, exactly where none of these folds raises.
pub fn combine_law()
    ensures { CombineLaw }
{}

/// The distinct keys of rows, in order, are those of the rows whose key no row before them has.
pub fn leader_law()
    ensures { LeaderLaw }
{}

/// The partitions of a coalesce of a union, one after another, are the left parent's and then the
/// right's, where nothing raises.
pub fn coalesce_law()
    ensures { CoalesceLaw }
{}

/// A raise spreads: where a partition of a node raises that another node reads, by a shuffle or
/// without, some partition of the other raises.
pub fn raises_spread()
    ensures { RaisesSpread }
{}

/// A raise spreads along a path: where a node raises that another reads directly or by way of
/// others, the other raises.
pub fn raises_spread_along()
    ensures { RaisesSpreadAlong }
{}

/// A raise of the map side of a partition, its own or one of `reduceByKey`'s values put together,
/// is a raise of the node that shuffles it.
pub fn own_raises_spread()
    ensures { OwnRaisesSpread }
{}

/// An action has no outcome exactly where the result of some partition of its node raises; and so
/// wherever its node raises.
pub fn nevers_are_by_raises()
    ensures { NeversAreByRaises }
{}
