//! Numbers divided by one number, without the machine's division for each of them.
#![tactic(auto)]

ghost use Rattle.std.specs.Prelude.{◌≡◌, ◌<◌, ◌≤◌, ◌+◌, ◌*◌, ◌/◌, ◌%◌, ◌^◌, pos, int_rem, IfSome, map};
ghost use Rattle.std.specs.Int.{w64, int_wrapping_div};
ghost use Rattle.sc_batch.specs.Divisors.{IsDivisor, signed};
ghost use Rattle.sc_batch.specs.Items.{divided};

/// A number above 1 that others are divided by.
#[derive(Clone, Copy)]
pub(crate) struct Divisor {
    /// The number.
    pub number: u64,
    /// 2^64 divided by it, rounded up: a number times this, over 2^64, guesses its quotient.
    pub factor: u64,
}

/// A quotient, and what is left.
#[derive(Clone, Copy)]
struct Parts {
    quotient: u64,
    rest: u64,
}

/// A number as a divisor, where it is above 1.
pub(crate) fn divisor_of(number: i64) -> Option<Divisor>
    ensures divisor { IfSome result IsDivisor }
    ensures number { IfSome result (λ by. number ≡ pos by.number) }
{
    if number < 2 {
        return None;
    }
    let number = number as u64;
    Some(Divisor {
        number,
        factor: u64::MAX / number + 1,
    })
}

/// Puts in the place of each number its remainder or else its quotient by a divisor.
pub(crate) fn divide_each(rest: bool, numbers: &mut [i64], by: Divisor)
    requires { IsDivisor by }
    ensures { numbers.new ≡ map (λ m. divided rest m (pos by.number)) numbers.old }
{
    for number in numbers.iter_mut() {
        *number = divided_by(rest, *number, by);
    }
}

/// The remainder of a number or else its quotient by a divisor.
#[inline(always)]
#[tactic(auto, unfolding(crate::specs::Items::divided))]
fn divided_by(rest: bool, m: i64, by: Divisor) -> i64
    requires { IsDivisor by }
    ensures { result ≡ divided rest m (pos by.number) }
{
    if rest {
        remainder_by(m, by)
    } else {
        quotient_by(m, by)
    }
}

/// The remainder of a number by a divisor, with the sign of the number.
#[inline(always)]
fn remainder_by(m: i64, by: Divisor) -> i64
    requires { IsDivisor by }
    ensures { result ≡ int_rem m (pos by.number) }
{
    with_sign_of(m, parts_by(m.unsigned_abs(), by).rest)
}

/// The truncated quotient of a number by a divisor.
#[inline(always)]
fn quotient_by(m: i64, by: Divisor) -> i64
    requires { IsDivisor by }
    ensures { result ≡ int_wrapping_div w64 m (pos by.number) }
{
    with_sign_of(m, parts_by(m.unsigned_abs(), by).quotient)
}

/// A number of this size, with the sign of another.
#[inline(always)]
fn with_sign_of(m: i64, size: u64) -> i64
    requires { size < 2 ^ 63 }
    ensures { result ≡ signed m size }
{
    if m < 0 { -(size as i64) } else { size as i64 }
}

/// The quotient of a number by a divisor, and what is left.
#[inline(always)]
fn parts_by(m: u64, by: Divisor) -> Parts
    requires divisor { IsDivisor by }
    requires small { m ≤ 2 ^ 63 }
    ensures quotient { result.quotient ≡ m / by.number }
    ensures rest { result.rest ≡ m % by.number }
    ensures small_quotient { result.quotient < 2 ^ 63 }
    ensures small_rest { result.rest < 2 ^ 63 }
{
    let guess = guessed(m, by);
    if guess.rest < by.number {
        guess
    } else {
        Parts {
            quotient: m / by.number,
            rest: m % by.number,
        }
    }
}

/// A guess at the quotient of a number by a divisor, and what is left then: right, where that is
/// less than the divisor.
#[inline(always)]
fn guessed(m: u64, by: Divisor) -> Parts
    requires divisor { IsDivisor by }
    requires small { m ≤ 2 ^ 63 }
    ensures { result.rest < by.number → result.quotient * by.number + result.rest ≡ m }
{
    let quotient = ((u128::from(m) * u128::from(by.factor)) >> 64) as u64;
    Parts {
        quotient,
        rest: m.wrapping_sub(quotient * by.number),
    }
}
