//! Even slices of a list.
#![tactic(auto)]

ghost use Rattle.std.specs.Prelude.{◌≡◌, ◌+◌, ◌<◌, ◌≤◌};
ghost use Rattle.sc_input.specs.Slices.{AreEvenSlices, slice_start};

/// Where slice `i` of `n` slices of a list of this length begins, and where it ends.
///
/// The slices lie one behind the other, and their lengths differ by one at most.
pub fn slice(len: u64, n: u64, i: u64) -> (u64, u64)
    requires { i < n }
    ensures start { result.0 ≡ slice_start len n i }
    ensures end { result.1 ≡ slice_start len n (i + 1) }
    ensures ordered { result.0 ≤ result.1 }
    ensures within { result.1 ≤ len }
{
    (start_of(len, n, i), start_of(len, n, i + 1))
}

/// The slices of a list are the whole list, one behind the other, and their lengths differ by one
/// at most.
pub fn slices_cover<T>(items: &[T], n: u64)
    requires { 0 < n }
    ensures { AreEvenSlices items.now n }
{}

/// Where slice `i` begins; the end of the last slice for `n` itself. The product needs 128 bits.
fn start_of(len: u64, n: u64, i: u64) -> u64
    requires some_slices { 0 < n }
    requires known_slice { i ≤ n }
    ensures start { result ≡ slice_start len n i }
    ensures within { result ≤ len }
{
    (u128::from(i) * u128::from(len) / u128::from(n)) as u64
}
