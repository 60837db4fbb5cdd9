//! Sums, differences and products in place.
#![tactic(auto)]

ghost use Rattle.std.specs.Prelude.{◌≡◌, ◌≤◌, length, map};
ghost use Rattle.sc_columns.specs.Columns.{zip_with};
ghost use Rattle.sc_batch.specs.Items.{int_value, list_in};

use crate::items::Items;
use sc_expr::Head;

/// Puts in the place of each number what a head gives of it and the one beside it.
pub(crate) fn put_beside(head: Head, numbers: &mut [i64], others: Items<'_, i64>)
    requires { length numbers.old ≤ length (list_in others) }
    ensures { numbers.new ≡ zip_with (int_value head) numbers.old (list_in others.entry) }
{
    match others {
        Items::Each(all) => with_each(head, numbers, all),
        Items::Same(other, _) => with_number(head, numbers, *other),
    }
}

/// Puts in the place of each number what a head gives of it and another.
fn with_number(head: Head, numbers: &mut [i64], other: i64)
    ensures { numbers.new ≡ map (λ m. int_value head m other) numbers.old }
{
    for number in numbers.iter_mut() {
        *number = value_of(head, *number, other);
    }
}

/// The same, where there is another beside each.
fn with_each(head: Head, numbers: &mut [i64], others: &[i64])
    requires { length numbers.old ≤ length others.now }
    ensures { numbers.new ≡ zip_with (int_value head) numbers.old others.now }
{
    for i in 0..numbers.len() {
        numbers[i] = value_of(head, numbers[i], others[i]);
    }
}

/// The number that a head gives of two numbers.
#[inline(always)]
#[tactic(auto, unfolding(crate::specs::Items::int_value))]
fn value_of(head: Head, m: i64, n: i64) -> i64
    ensures { result ≡ int_value head m n }
{
    match head {
        Head::Add => m.wrapping_add(n),
        Head::Sub => m.wrapping_sub(n),
        Head::Mul => m.wrapping_mul(n),
        _ => 0,
    }
}
