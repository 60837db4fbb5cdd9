//! The keys of rows.
#![tactic(auto)]

ghost use Rattle.std.specs.Prelude.{◌≡◌, ◌==◌, IfOk, IfSome, length, map, replicate};
ghost use Rattle.sc_keys.specs.Keyed.{key_in, keys_in};
ghost use Rattle.sc_value.specs.Keys.{number_key, text_key};
ghost use Rattle.sc_value.specs.Views.{datum_of, key_data_of};

use sc_columns::Rows;
use sc_value::{Key, Texts, TextsBuilder, Value, copy};
use std::alloc::{AllocError, Global};
use std::marker::Model;

/// The keys of some rows, in one column. Contracts see them as a list of keys.
///
/// The rows of a checked script have keys of one kind, and then these are numbers or texts as they
/// lie in the rows' column, which is shared. Rows of another shape are read one by one, and only
/// then a key is copied.
#[derive(Drop)]
pub struct Keys {
    rows: Rows,
}

impl Model for Keys {
    ghost use Rattle.std.specs.Prelude.{List};
    ghost use Rattle.sc_keys.specs.Keyed.{keys_in};
    ghost use Rattle.sc_value.specs.Keys.{KeyData};

    ghost Value = { List KeyData };

    ghost view = { λ k. keys_in k.rows };
}

impl Keys {
    /// The keys of rows that are keys: no key is copied where the rows lie in one column. Rows in
    /// several runs are copied into one, and a value that is held once is repeated.
    pub fn of(alloc: Global, rows: &Rows) -> Result<Keys, AllocError>
        ensures { IfOk result (λ k. k ≡ keys_in rows.now) }
    {
        let joined = rows.joined(alloc)?;
        let rows = spread(alloc, &joined)?;
        Ok(Keys { rows })
    }

    /// How many keys there are.
    pub fn len(&self) -> usize
        ensures { result ≡ length self.now }
    {
        self.rows.len()
    }

    /// Whether there is no key.
    pub fn is_empty(&self) -> bool
        ensures { result ≡ (length self.now == 0) }
    {
        self.rows.is_empty()
    }

    /// The keys as numbers, where they are held so. None is always a right answer.
    pub(crate) fn ints(&self) -> Option<&[i64]>
        ensures { IfSome result (λ s. self.now ≡ map number_key s.now) }
    {
        self.rows.as_ints()
    }

    /// The keys as texts, where they are held so. None is always a right answer.
    pub(crate) fn texts(&self) -> Option<&Texts>
        ensures { IfSome result (λ t. self.now ≡ map text_key t.now) }
    {
        self.rows.as_texts()
    }

    /// A copy of each key.
    pub(crate) fn each(&self, alloc: Global) -> Result<Vec<Key>, AllocError>
        ensures { IfOk result (λ v. map key_data_of v.items ≡ self.now) }
    {
        let mut out = Vec::with_capacity(alloc, self.rows.len())?;
        for i in 0..self.rows.len() {
            out.push(key_of(self.rows.row(alloc, i)?))?;
        }
        Ok(out)
    }
}

/// The key that a value is.
fn key_of(value: Value) -> Key
    ensures { key_data_of result ≡ key_in (datum_of value) }
{
    match value {
        Value::Int(n) => Key::Int(n),
        Value::Text(text) => Key::Text(text),
        _ => Key::Int(0),
    }
}

/// Rows of the same keys, of which none is held once for many rows.
fn spread(alloc: Global, rows: &Rows) -> Result<Rows, AllocError>
    ensures { IfOk result (λ r. keys_in r ≡ keys_in rows.now) }
{
    match rows.as_repeated() {
        Some(value) => {
            let key = key_of(copy(alloc, value)?);
            let out = repeated(alloc, &key, rows.len())?;
            Ok(out)
        }
        None => rows.share(),
    }
}

/// A key as so many rows.
fn repeated(alloc: Global, key: &Key, n: usize) -> Result<Rows, AllocError>
    ensures { IfOk result (λ r. keys_in r ≡ replicate n (key_data_of key.now)) }
{
    match key {
        Key::Int(k) => Rows::of_ints(alloc, vec![in alloc; *k; n]?),
        Key::Text(text) => Rows::of_texts(alloc, copies(alloc, text.as_str(), n)?),
    }
}

/// A text so many times, which lies in the same bytes each time.
fn copies(alloc: Global, text: &str, n: usize) -> Result<Texts, AllocError>
    ensures { IfOk result (λ t. t ≡ replicate n text.now) }
{
    let mut one = TextsBuilder::new(alloc);
    one.push(text)?;
    let places = vec![in alloc; 0; n]?;
    let one = one.finish(alloc)?;
    one.picked(alloc, &places)
}
