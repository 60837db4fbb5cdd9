//! The table of the kinds of lines: a further one is one more line in each `match`.
#![tactic(auto)]

ghost use Rattle.std.specs.Prelude.{◌≡◌};
ghost use Rattle.sc_plan.specs.Tables.{kind_named as kind_spelled, number_count as numbers_taken};

/// What a line may be of.
#[derive(Clone, Copy, Debug, PartialEq, Eq)]
pub enum LineKind {
    /// An attempt reports a failure.
    Fail,
    /// The report of an attempt comes late.
    Late,
    /// The report of an attempt comes twice.
    Twice,
    /// The store of an executor is wiped.
    Drop,
    /// The store of an executor is wiped, and later the executor is told lost.
    Lose,
    /// The cache of an executor lets a block go.
    Evict,
}

/// The kind that is written so.
pub(crate) fn kind_named(word: &str) -> Option<LineKind>
    ensures { result ≡ kind_spelled word.now }
{
    match word {
        "fail" => Some(LineKind::Fail),
        "late" => Some(LineKind::Late),
        "twice" => Some(LineKind::Twice),
        "drop" => Some(LineKind::Drop),
        "lose" => Some(LineKind::Lose),
        "evict" => Some(LineKind::Evict),
        _ => None,
    }
}

/// How many numbers a line of a kind has.
pub(crate) fn number_count(kind: LineKind) -> usize
    ensures { result ≡ numbers_taken kind }
{
    match kind {
        LineKind::Fail | LineKind::Twice | LineKind::Lose => 3,
        LineKind::Late => 4,
        LineKind::Drop | LineKind::Evict => 2,
    }
}
