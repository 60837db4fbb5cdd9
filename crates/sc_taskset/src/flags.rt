//! Flags of numbers, in words of 64.
#![tactic(auto)]

ghost use Rattle.std.specs.Prelude.{◌≡◌, ◌<◌, ◌≤◌, ◌+◌, ◌*◌, ◌^◌, ℕ, [], IfOk, false, length, min, true};
ghost use Rattle.sc_taskset.specs.Flags.{HaveRoom, HoldFlags, IsLowest, IsPut, is_set};
ghost use Rattle.sc_taskset.specs.Looks.{words_for};

use sc_base::Steps;
use std::alloc::{AllocError, Global};
use std::sync::ledger::{Blank, Ledger};

/// How many flags a word has.
const BITS: usize = 64;

/// Words for so many flags, none of which is set.
pub fn flags_for(alloc: Global, many: usize) -> Result<Vec<u64>, AllocError>
    requires { many < 2 ^ 63 }
    ensures none { IfOk result (λ words. HoldFlags words.items []) }
    ensures room { IfOk result (λ words. HaveRoom words.items many) }
{
    vec![in alloc; 0; (many + 63) / BITS]
}

/// Sets or clears a flag.
pub fn put_flag(words: &mut Vec<u64>, place: usize, flag: bool)
    requires { place < 64 * length words.old.items }
    ensures { IsPut words.old.items words.new.items place flag }
{
    if flag {
        words[place / BITS] |= 1 << (place % BITS);
    } else {
        words[place / BITS] &= !(1 << (place % BITS));
    }
}

/// The first flag that is set from a place on, or a place past the so many first ones. A step is a
/// word that is come to: one that was left at a flag, and is gone on with, was a step before.
pub fn next_flag<L: Ledger>(words: &[u64], from: usize, many: usize, steps: &mut Steps<L>) -> usize
    requires room { many ≤ 64 * length words.now }
    requires small { 64 * length words.now < 2 ^ 64 }
    ensures from { from ≤ result }
    ensures none { (k : ℕ) → from ≤ k → k < result → is_set words.now k ≡ false }
    ensures set { result < many → is_set words.now result ≡ true }
    ensures looked { steps.new + words_for (min from many)
        ≡ steps.old + words_for (min (result + 1) many) }
{
    if many <= from {
        return from;
    }
    let mut at = from / BITS;
    if from % BITS == 0 {
        steps.tick();
    }
    let mut word = words[at] & (u64::MAX << (from % BITS));
    while word == 0 {
        at += 1;
        if many <= at * BITS {
            return at * BITS;
        }
        steps.tick();
        word = words[at];
    }
    at * BITS + lowest(word)
}

/// The same where nobody counts the steps.
pub fn next_flag_in<L: Ledger>(words: &[u64], from: usize, many: usize, blank: Blank) -> usize
    requires room { many ≤ 64 * length words.now }
    requires small { 64 * length words.now < 2 ^ 64 }
    requires name { blank.name ≡ L.name }
    requires parts { blank.parts ≡ L.parts }
    requires some { 0 < blank.parts }
    ensures from { from ≤ result }
    ensures none { (k : ℕ) → from ≤ k → k < result → is_set words.now k ≡ false }
    ensures set { result < many → is_set words.now result ≡ true }
{
    let mut steps = Steps::<L>::new(blank);
    next_flag(words, from, many, &mut steps)
}

/// The lowest flag that is set in a word.
fn lowest(word: u64) -> usize
    requires { 0 < word }
    ensures { IsLowest word result }
{
    word.trailing_zeros() as usize
}
