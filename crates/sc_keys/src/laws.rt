//! What groups, buckets and places are.
#![tactic(auto)]

ghost use Rattle.sc_keys.specs.Laws.{BucketLaw, DistinctLaw, GroupLaw, RangeLaw, SplitLaw};

/// The law of distinct keys. A call does nothing.
pub fn distinct_law()
    ensures { DistinctLaw }
{}

/// The law of the rows of a group. A call does nothing.
pub fn group_law()
    ensures { GroupLaw }
{}

/// The law of the rows of a bucket. A call does nothing.
pub fn bucket_law()
    ensures { BucketLaw }
{}

/// The law of the places of a split. A call does nothing.
pub fn split_law()
    ensures { SplitLaw }
{}

/// The law of a range of the rows at some places. A call does nothing.
pub fn range_law()
    ensures { RangeLaw }
{}
