//! Which hand-outs are the same.
#![tactic(auto)]

ghost use Rattle.std.specs.Prelude.{◌≡◌};
ghost use Rattle.std.specs.Cmp.Lexicographic.{pointwise};
ghost use Rattle.sc_net.specs.Equality.{same_hand_out, same_last, same_location};
ghost use Rattle.sc_core.specs.Posts.{is_same_loc};

use sc_core::HandOut;
use sc_ids::Loc;
use sc_tracker::Location;

/// Whether the same was handed out twice.
pub(crate) fn same_hand_out(a: &HandOut, b: &HandOut) -> bool
    ensures { result ≡ same_hand_out a.now b.now }
{
    a.attempt() == b.attempt() && a.epoch() == b.epoch() && same_inputs(a.inputs(), b.inputs())
}

/// Whether inputs lie, or lay, at the same places.
fn same_inputs(a: &[Location], b: &[Location]) -> bool
    ensures { result ≡ pointwise same_location a.now b.now }
{
    if a.len() != b.len() {
        return false;
    }
    for i in 0..a.len() {
        if !same_location(a[i], b[i]) {
            return false;
        }
    }
    true
}

/// Whether two inputs lie, or lay, at the same place.
fn same_location(a: Location, b: Location) -> bool
    ensures { result ≡ same_location a b }
{
    match (a, b) {
        (Location::Here(a), Location::Here(b)) => same_loc(a, b),
        (Location::Missing { last: a }, Location::Missing { last: b }) => same_last(a, b),
        _ => false,
    }
}

/// Whether two blocks lay at the same place last, or never did.
fn same_last(a: Option<Loc>, b: Option<Loc>) -> bool
    ensures { result ≡ same_last a b }
{
    match (a, b) {
        (None, None) => true,
        (Some(a), Some(b)) => same_loc(a, b),
        _ => false,
    }
}

/// Whether two locations are one.
fn same_loc(a: Loc, b: Loc) -> bool
    ensures { result ≡ is_same_loc a b }
{
    a.exec == b.exec && a.generation == b.generation
}
