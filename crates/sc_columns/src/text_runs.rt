//! Texts that are being added.
#![tactic(auto)]

ghost use Rattle.std.specs.Prelude.{◌≡◌, ◌++◌, [], ◌∷◌, if◌then◌else◌, IfOk, OnOk, is_ok, length, replicate};

use sc_value::{Texts, TextsBuilder};
use std::alloc::{AllocError, Global};
use std::marker::Model;

/// Texts that are being added one by one, or many at once, all of them or none. Contracts see them
/// as a list.
#[derive(Drop)]
pub struct TextRun {
    texts: TextsBuilder,
}

impl Model for TextRun {
    ghost use Rattle.std.specs.Prelude.{◌≡◌, [], List, ℕ};

    ghost Value = { List (List ℕ) };

    ghost view = { λ r. r.texts.texts };

    ghost invariant = { λ r. r.texts.open_text ≡ [] };
}

impl TextRun {
    /// No texts.
    pub fn new(alloc: Global) -> TextRun
        ensures { result ≡ [] }
    {
        TextRun {
            texts: TextsBuilder::new(alloc),
        }
    }

    /// How many texts there are.
    pub fn len(&self) -> usize
        ensures { result ≡ length self.now }
    {
        self.texts.len()
    }

    /// Adds a text.
    pub fn push(&mut self, text: &str) -> Result<(), AllocError>
        ensures { self.new ≡ (if is_ok result then self.old ++ text.now ∷ [] else self.old) }
    {
        self.texts.push(text)
    }

    /// Adds texts.
    pub fn append(&mut self, texts: &Texts) -> Result<(), AllocError>
        ensures { self.new ≡ (if is_ok result then self.old ++ texts.now else self.old) }
    {
        self.texts.append(texts)
    }

    /// Adds a text so many times.
    pub fn push_copies(&mut self, alloc: Global, text: &str, n: usize) -> Result<(), AllocError>
        ensures { self.new ≡ (if is_ok result then self.old ++ replicate n text.now else self.old) }
    {
        let copies = copies_of(alloc, text, n)?;
        self.texts.append(&copies)
    }

    /// The texts, to be shared.
    pub fn finish(self, alloc: Global) -> Result<Texts, AllocError>
        ensures { IfOk result (λ t. t ≡ self) }
    {
        let TextRun { texts } = self;
        texts.finish(alloc)
    }
}

/// A text so many times.
fn copies_of(alloc: Global, text: &str, n: usize) -> Result<Texts, AllocError>
    ensures { IfOk result (λ t. t ≡ replicate n text.now) }
{
    let mut out = TextRun::new(alloc);
    for _ in 0..n {
        out.push(text)?;
    }
    out.finish(alloc)
}
