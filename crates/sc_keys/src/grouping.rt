//! The groups of rows of one key.
#![tactic(auto)]

ghost use Rattle.std.specs.Prelude.{◌≡◌, ◌≤◌, IfOk, length, map};
ghost use Rattle.std.specs.List.{All};
ghost use Rattle.std.specs.Ordering.{int_eq};
ghost use Rattle.std.specs.Str.{bytes_eq};
ghost use Rattle.sc_base.specs.Limits.{count_limit};
ghost use Rattle.sc_keys.specs.Groups.{AreGroups};
ghost use Rattle.sc_part.specs.Bounds.{is_same_key};
ghost use Rattle.sc_value.specs.Views.{key_data_of};

use crate::codes::{NARROW, WIDE, are_short, coded, longest, narrow_code, wide_code};
use crate::keyed::Keys;
use crate::lending::{LentKey, lent};
use indexmap::IndexSet;
use sc_base::COUNT_LIMIT;
use sc_value::{Key, Texts};
use std::alloc::{AllocError, Global};

/// The groups of rows of one key, counted from 0 in order of first appearance.
#[derive(Drop)]
pub struct Groups {
    /// The number of each row's group.
    pub numbers: Vec<u32>,
    /// How many groups there are.
    pub count: u32,
}

impl Keys {
    /// The group of each key.
    ///
    /// # Errors
    ///
    /// Memory is wanting, or there are more than [`COUNT_LIMIT`] keys.
    pub fn groups(&self, alloc: Global) -> Result<Groups, AllocError>
        ensures { IfOk result (λ g. AreGroups is_same_key self.now g.numbers.items g.count) }
    {
        if let Some(ints) = self.ints() {
            return group_ints(alloc, ints);
        }
        if let Some(texts) = self.texts() {
            return group_texts(alloc, texts);
        }
        let keys = self.each(alloc)?;
        group_keys(alloc, &keys)
    }
}

/// The groups of numbers.
fn group_ints(alloc: Global, keys: &[i64]) -> Result<Groups, AllocError>
    ensures { IfOk result (λ g. AreGroups int_eq keys.now g.numbers.items g.count) }
{
    if keys.len() > COUNT_LIMIT {
        return Err(AllocError);
    }
    let mut known: IndexSet<i64> = IndexSet::new(alloc);
    let mut numbers = Vec::with_capacity(alloc, keys.len())?;
    for i in 0..keys.len() {
        let (group, _) = known.insert_full(keys[i])?;
        numbers.push(group as u32)?;
    }
    let count = known.len() as u32;
    Ok(Groups { numbers, count })
}

/// The groups of texts.
fn group_texts(alloc: Global, keys: &Texts) -> Result<Groups, AllocError>
    ensures { IfOk result (λ g. AreGroups bytes_eq keys.now g.numbers.items g.count) }
{
    if keys.len() > COUNT_LIMIT {
        return Err(AllocError);
    }
    let longest = longest(keys);
    if longest <= NARROW {
        group_narrow(alloc, keys)
    } else if longest <= WIDE {
        group_wide(alloc, keys)
    } else if are_short(keys) {
        group_coded(alloc, keys)
    } else {
        group_slices(alloc, keys)
    }
}

/// The groups of texts of at most seven bytes: the table has their codes alone.
fn group_narrow(alloc: Global, keys: &Texts) -> Result<Groups, AllocError>
    requires short { All (λ text. length text ≤ 7) keys.now }
    requires few { length keys.now ≤ count_limit }
    ensures { IfOk result (λ g. AreGroups bytes_eq keys.now g.numbers.items g.count) }
{
    let mut known: IndexSet<u64> = IndexSet::new(alloc);
    let mut numbers = Vec::with_capacity(alloc, keys.len())?;
    for i in 0..keys.len() {
        let code = narrow_code(keys.get(i).as_bytes());
        let (group, _) = known.insert_full(code)?;
        numbers.push(group as u32)?;
    }
    let count = known.len() as u32;
    Ok(Groups { numbers, count })
}

/// The groups of texts of at most fifteen bytes: the table has their codes alone.
fn group_wide(alloc: Global, keys: &Texts) -> Result<Groups, AllocError>
    requires short { All (λ text. length text ≤ 15) keys.now }
    requires few { length keys.now ≤ count_limit }
    ensures { IfOk result (λ g. AreGroups bytes_eq keys.now g.numbers.items g.count) }
{
    let mut known: IndexSet<u128> = IndexSet::new(alloc);
    let mut numbers = Vec::with_capacity(alloc, keys.len())?;
    for i in 0..keys.len() {
        let code = wide_code(keys.get(i).as_bytes());
        let (group, _) = known.insert_full(code)?;
        numbers.push(group as u32)?;
    }
    let count = known.len() as u32;
    Ok(Groups { numbers, count })
}

/// The groups of texts, most of which are short: the table has their first bytes as numbers.
fn group_coded(alloc: Global, keys: &Texts) -> Result<Groups, AllocError>
    requires { length keys.now ≤ count_limit }
    ensures { IfOk result (λ g. AreGroups bytes_eq keys.now g.numbers.items g.count) }
{
    let mut known: IndexSet<(u128, &[u8])> = IndexSet::new(alloc);
    let mut numbers = Vec::with_capacity(alloc, keys.len())?;
    for i in 0..keys.len() {
        let (group, _) = known.insert_full(coded(keys.get(i)))?;
        numbers.push(group as u32)?;
    }
    let count = known.len() as u32;
    Ok(Groups { numbers, count })
}

/// The groups of texts of any length.
fn group_slices(alloc: Global, keys: &Texts) -> Result<Groups, AllocError>
    requires { length keys.now ≤ count_limit }
    ensures { IfOk result (λ g. AreGroups bytes_eq keys.now g.numbers.items g.count) }
{
    let mut known: IndexSet<&str> = IndexSet::new(alloc);
    let mut numbers = Vec::with_capacity(alloc, keys.len())?;
    for i in 0..keys.len() {
        let (group, _) = known.insert_full(keys.get(i))?;
        numbers.push(group as u32)?;
    }
    let count = known.len() as u32;
    Ok(Groups { numbers, count })
}

/// The groups of keys of any kind.
fn group_keys(alloc: Global, keys: &[Key]) -> Result<Groups, AllocError>
    ensures { IfOk result
        (λ g. AreGroups is_same_key (map key_data_of keys.now) g.numbers.items g.count) }
{
    if keys.len() > COUNT_LIMIT {
        return Err(AllocError);
    }
    let mut known: IndexSet<LentKey<'_>> = IndexSet::new(alloc);
    let mut numbers = Vec::with_capacity(alloc, keys.len())?;
    for i in 0..keys.len() {
        let key = lent(&keys[i]);
        let (group, _) = known.insert_full(key)?;
        numbers.push(group as u32)?;
    }
    let count = known.len() as u32;
    Ok(Groups { numbers, count })
}
