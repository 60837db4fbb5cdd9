//! Texts that are being made.
#![tactic(auto)]

ghost use Rattle.std.specs.Prelude.{◌≡◌, ◌==◌, ◌≤◌, ◌+◌, ◌++◌, [], ◌∷◌, if◌then◌else◌, IfOk, OnOk, is_ok, length, take};
ghost use Rattle.std.specs.List.{concat};
ghost use Rattle.sc_base.specs.Limits.{count_limit};
ghost use Rattle.sc_value.specs.Spans.{IsPart, part_at};

use crate::blocks::append_part;
use crate::octets::Octets;
use crate::texts::{Span, Texts};
use sc_base::COUNT_LIMIT;
use std::alloc::{AllocError, Global};
use std::marker::Model;

/// Texts that are being written one after another, each of them piece by piece.
#[derive(Drop)]
pub struct TextsBuilder {
    bytes: Vec<u8>,
    spans: Vec<Span>,
    open_from: usize,
}

impl Model for TextsBuilder {
    ghost use Rattle.std.specs.Prelude.{map, drop, length};
    ghost use Rattle.sc_value.specs.Spans.{IsOpen, part_at, Written};

    ghost Value = { Written };

    ghost view = { λ b. record {
      texts = map (part_at b.bytes.items) b.spans.items;
      open_text = drop b.open_from b.bytes.items;
      taken = length b.bytes.items;
    } };

    ghost invariant = { λ b. IsOpen b.bytes.items b.spans.items b.open_from };
}

impl TextsBuilder {
    /// No texts.
    pub fn new(alloc: Global) -> TextsBuilder
        ensures texts { result.texts ≡ [] }
        ensures open_text { result.open_text ≡ [] }
        ensures taken { result.taken ≡ 0 }
    {
        TextsBuilder {
            bytes: Vec::new(alloc),
            spans: Vec::new(alloc),
            open_from: 0,
        }
    }

    /// No texts, with room for some of so many bytes in all.
    pub fn with_capacity(
        alloc: Global,
        texts: usize,
        bytes: usize,
    ) -> Result<TextsBuilder, AllocError>
        ensures texts { IfOk result (λ b. b.texts ≡ []) }
        ensures open_text { IfOk result (λ b. b.open_text ≡ []) }
        ensures taken { IfOk result (λ b. b.taken ≡ 0) }
    {
        Ok(TextsBuilder {
            bytes: Vec::with_capacity(alloc, bytes)?,
            spans: Vec::with_capacity(alloc, texts)?,
            open_from: 0,
        })
    }

    /// How many texts were ended.
    pub fn len(&self) -> usize
        ensures { result ≡ length self.now.texts }
    {
        self.spans.len()
    }

    /// Whether no text was ended.
    pub fn is_empty(&self) -> bool
        ensures { result ≡ (length self.now.texts == 0) }
    {
        self.len() == 0
    }

    /// Writes a piece of the text that is open.
    ///
    /// # Errors
    ///
    /// Memory is wanting, or the texts would take more than [`COUNT_LIMIT`] bytes in all.
    pub fn write(&mut self, piece: &str) -> Result<(), AllocError>
        ensures texts { self.new.texts ≡ self.old.texts }
        ensures open_text { self.new.open_text
            ≡ (if is_ok result then self.old.open_text ++ piece.now else self.old.open_text) }
        ensures taken { self.new.taken
            ≡ (if is_ok result then self.old.taken + length piece.now else self.old.taken) }
        ensures within { OnOk result (self.new.taken ≤ count_limit) }
    {
        append(&mut self.bytes, piece.as_bytes())
    }

    /// Ends the open text; the next one is empty.
    pub fn end(&mut self) -> Result<(), AllocError>
        ensures texts { self.new.texts
            ≡ (if is_ok result then self.old.texts ++ self.old.open_text ∷ [] else self.old.texts) }
        ensures open_text { self.new.open_text ≡ (if is_ok result then [] else self.old.open_text) }
        ensures taken { self.new.taken ≡ self.old.taken }
    {
        let to = self.bytes.len();
        self.spans.push(Span {
            from: self.open_from as u32,
            to: to as u32,
        })?;
        self.open_from = to;
        Ok(())
    }

    /// Writes a last piece and ends the open text: where nothing is open, a whole text.
    ///
    /// # Errors
    ///
    /// Memory is wanting, or the texts would take more than [`COUNT_LIMIT`] bytes in all.
    pub fn push(&mut self, piece: &str) -> Result<(), AllocError>
        ensures texts { self.new.texts ≡ (if is_ok result
            then self.old.texts ++ (self.old.open_text ++ piece.now) ∷ [] else self.old.texts) }
        ensures open_text { self.new.open_text ≡ (if is_ok result then [] else self.old.open_text) }
        ensures taken { self.new.taken
            ≡ (if is_ok result then self.old.taken + length piece.now else self.old.taken) }
        ensures within { OnOk result (self.new.taken ≤ count_limit) }
    {
        if piece.len() > COUNT_LIMIT {
            return Err(AllocError);
        }
        let to = piece.len() as u32;
        self.push_part(piece.as_bytes(), Span { from: 0, to })
    }

    // The same of a part of some bytes.
    #[inline(always)]
    fn push_part(&mut self, bytes: &[u8], part: Span) -> Result<(), AllocError>
        requires { IsPart bytes.now part }
        ensures texts { self.new.texts ≡ (if is_ok result
            then self.old.texts ++ (self.old.open_text ++ part_at bytes.now part) ∷ []
            else self.old.texts) }
        ensures open_text { self.new.open_text ≡ (if is_ok result then [] else self.old.open_text) }
        ensures taken { self.new.taken ≡ (if is_ok result
            then self.old.taken + length (part_at bytes.now part) else self.old.taken) }
        ensures within { OnOk result (self.new.taken ≤ count_limit) }
    {
        let written = self.bytes.len();
        append_within(&mut self.bytes, bytes, part)?;
        let to = self.bytes.len();
        let span = Span {
            from: self.open_from as u32,
            to: to as u32,
        };
        match self.spans.push(span) {
            Ok(()) => {
                self.open_from = to;
                Ok(())
            }
            Err(_) => {
                self.bytes.truncate(written);
                Err(AllocError)
            }
        }
    }

    /// Adds whole texts behind those that were ended, all of them or none.
    ///
    /// # Errors
    ///
    /// Memory is wanting, or the texts would take more than [`COUNT_LIMIT`] bytes in all.
    pub fn append(&mut self, texts: &Texts) -> Result<(), AllocError>
        requires { self.old.open_text ≡ [] }
        ensures texts { self.new.texts
            ≡ (if is_ok result then self.old.texts ++ texts.now else self.old.texts) }
        ensures open_text { self.new.open_text ≡ [] }
        ensures taken { OnOk result
            (self.new.taken ≡ self.old.taken + length (concat texts.now)) }
        ensures spent { self.new.taken ≤ self.old.taken + length (concat texts.now) }
        ensures within { OnOk result (self.new.taken ≤ count_limit) }
    {
        let count = self.spans.len();
        for i in 0..texts.len() {
            let (bytes, part) = texts.place(i);
            match self.push_part(bytes, part) {
                Ok(()) => {}
                Err(_) => {
                    self.truncate(count);
                    return Err(AllocError);
                }
            }
        }
        Ok(())
    }

    // Forgets the texts that were ended behind the first so many. Their bytes stay taken.
    fn truncate(&mut self, count: usize)
        ensures texts { self.new.texts ≡ take count self.old.texts }
        ensures open_text { self.new.open_text ≡ self.old.open_text }
        ensures taken { self.new.taken ≡ self.old.taken }
    {
        self.spans.truncate(count);
    }

    /// The texts that were ended, to be shared.
    pub fn finish(self, alloc: Global) -> Result<Texts, AllocError>
        ensures { IfOk result (λ t. t ≡ self.texts) }
    {
        let TextsBuilder { bytes, spans, .. } = self;
        Texts::of_spans(alloc, Octets::new(alloc, bytes)?, spans)
    }
}

/// Appends bytes.
///
/// # Errors
///
/// Memory is wanting, or there would be more than [`COUNT_LIMIT`] bytes.
fn append(bytes: &mut Vec<u8>, more: &[u8]) -> Result<(), AllocError>
    requires { length bytes.old.items ≤ count_limit }
    ensures items { bytes.new.items
        ≡ (if is_ok result then bytes.old.items ++ more.now else bytes.old.items) }
    ensures within { length bytes.new.items ≤ count_limit }
{
    if more.len() > COUNT_LIMIT - bytes.len() {
        return Err(AllocError);
    }
    bytes.extend_from_slice(more)
}

/// Appends a part of other bytes.
///
/// # Errors
///
/// Memory is wanting, or there would be more than [`COUNT_LIMIT`] bytes.
#[inline(always)]
fn append_within(bytes: &mut Vec<u8>, others: &[u8], part: Span) -> Result<(), AllocError>
    requires small { length bytes.old.items ≤ count_limit }
    requires part { IsPart others.now part }
    ensures items { bytes.new.items ≡ (if is_ok result
        then bytes.old.items ++ part_at others.now part else bytes.old.items) }
    ensures within { length bytes.new.items ≤ count_limit }
{
    if part.to as usize - part.from as usize > COUNT_LIMIT - bytes.len() {
        return Err(AllocError);
    }
    append_part(others, part, bytes)
}
