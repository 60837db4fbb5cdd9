//! Texts as places in shared bytes.
#![tactic(auto)]

ghost use Rattle.std.specs.Prelude.{◌≡◌, ◌==◌, ◌<◌, ◌≤◌, ◌++◌, [], ◌∷◌, if◌then◌else◌, is_ok, IfOk, IfSome, Some, length, map, slice_get, slice_range};
ghost use Rattle.std.specs.List.{All};
ghost use Rattle.std.specs.Str.{IsUtf8};
ghost use Rattle.sc_value.specs.Kept.{kept as items_kept};
ghost use Rattle.sc_base.specs.Limits.{count_limit};
ghost use Rattle.sc_value.specs.Picked.{ArePlaces, picked as items_picked};
ghost use Rattle.sc_value.specs.Spans.{IsPart, part_at};
ghost use Rattle.sc_value.specs.Words.{cut_at, nth_piece as piece_at, nth_word as word_at, range_of, until_none, words_of};

use crate::blocks::append_part;
use crate::cuts::{nth_pieces_at, pieces_at};
use crate::held::{Held, kept_items, picked_items};
use crate::octets::Octets;
use crate::pieces::Pieces;
use crate::words::{nth_words_at, words_at};
use std::alloc::{AllocError, Global};
use std::marker::Model;
use std::str;

/// From one place up to, not including, another: in bytes, where a text lies, or in a list.
#[derive(Clone, Copy)]
pub struct Span {
    pub from: u32,
    pub to: u32,
}

impl Span {
    /// The text at this place of some bytes.
    #[inline(always)]
    pub fn text_in(self, bytes: &[u8]) -> &str
        requires { IsPart bytes.now self }
        ensures { result.now ≡ part_at bytes.now self }
    {
        let part = &bytes[self.from as usize..self.to as usize];
        unsafe { str::from_utf8_unchecked(part) }
    }
}

/// Texts that lie in shared bytes, seen by contracts as the list of their UTF-8 bytes.
///
/// A text costs eight bytes beside its own. To share them, or a range of them, copies nothing.
#[derive(Drop)]
pub struct Texts {
    bytes: Octets,
    spans: Held<Span>,
}

impl Model for Texts {
    ghost use Rattle.std.specs.Prelude.{List, ℕ, map};
    ghost use Rattle.std.specs.List.{All};
    ghost use Rattle.sc_value.specs.Spans.{IsPart, part_at};

    ghost Value = { List (List ℕ) };

    ghost view = { λ t. map (part_at t.bytes) t.spans };

    ghost invariant = { λ t. All (IsPart t.bytes) t.spans };
}

/// Lists of texts: the texts of all of them, and for each list a range of these.
#[derive(Drop)]
pub struct TextLists {
    pub items: Texts,
    pub lists: Vec<Span>,
}

impl Texts {
    /// The parts of some bytes at some places, which copies none of them.
    pub fn of_spans(alloc: Global, bytes: Octets, spans: Vec<Span>) -> Result<Texts, AllocError>
        requires { All (IsPart bytes) spans.items }
        ensures { IfOk result (λ t. t ≡ map (part_at bytes) spans.items) }
    {
        let spans = Held::new(alloc, spans)?;
        Ok(Texts { bytes, spans })
    }

    /// How many texts there are.
    pub fn len(&self) -> usize
        ensures { result ≡ length self.now }
    {
        self.spans.len()
    }

    /// Whether there is no text.
    pub fn is_empty(&self) -> bool
        ensures { result ≡ (length self.now == 0) }
    {
        self.len() == 0
    }

    /// The text at a place.
    pub fn get(&self, i: usize) -> &str
        requires { i < length self.now }
        ensures { slice_get self.now i ≡ Some result.now }
    {
        let (bytes, place) = self.place(i);
        place.text_in(bytes)
    }

    /// Writes the text at a place behind some bytes, or nothing where memory runs out.
    #[inline(always)]
    pub fn append_to(&self, i: usize, out: &mut Vec<u8>) -> Result<(), AllocError>
        requires { i < length self.now }
        ensures bytes { IfSome (slice_get self.now i) (λ t. out.new.items
            ≡ (if is_ok result then out.old.items ++ t else out.old.items)) }
        ensures utf8 { IfSome (slice_get self.now i) IsUtf8 }
    {
        let (bytes, place) = self.place(i);
        append_part(bytes, place, out)
    }

    /// The bytes that the text at a place lies in, and where.
    #[inline(always)]
    pub(crate) fn place(&self, i: usize) -> (&[u8], Span)
        requires { i < length self.now }
        ensures part { IsPart result.0.now result.1 }
        ensures text { slice_get self.now i ≡ Some (part_at result.0.now result.1) }
    {
        (self.bytes.as_slice(), self.spans.as_slice()[i])
    }

    /// The bytes that all texts lie in, and where each lies, so that a loop over many looks these
    /// up once ([`Span::text_in`]).
    #[inline(always)]
    pub fn parts(&self) -> (&[u8], &[Span])
        ensures parts { All (IsPart result.0.now) result.1.now }
        ensures texts { map (part_at result.0.now) result.1.now ≡ self.now }
    {
        (self.bytes.as_slice(), self.spans.as_slice())
    }

    /// About how many bytes the texts take, from where the first begins to where the last ends: a
    /// guess, for a reservation.
    pub fn extent(&self) -> usize {
        match self.spans.as_slice() {
            [] => 0,
            [one] => (one.to as usize).saturating_sub(one.from as usize),
            [first, .., last] => (last.to as usize).saturating_sub(first.from as usize),
        }
    }

    /// The same texts again, which copies none of them.
    pub fn share(&self) -> Result<Texts, AllocError>
        ensures { IfOk result (λ t. t ≡ self.now) }
    {
        let spans = self.spans.share()?;
        Ok(Texts {
            bytes: self.bytes.share()?,
            spans,
        })
    }

    /// The texts from one place up to, not including, another, which copies none of them.
    pub fn part(&self, from: usize, to: usize) -> Result<Texts, AllocError>
        requires ordered { from ≤ to }
        requires within { to ≤ length self.now }
        ensures { IfOk result (λ t. t ≡ slice_range self.now from to) }
    {
        let bytes = self.bytes.share()?;
        Ok(Texts {
            bytes,
            spans: self.spans.part(from, to)?,
        })
    }

    /// The texts whose place is marked, which copies none of their bytes.
    pub fn kept(&self, alloc: Global, marks: &[bool]) -> Result<Texts, AllocError>
        ensures { IfOk result (λ t. t ≡ items_kept marks.now self.now) }
    {
        let spans = kept_items(alloc, self.spans.as_slice(), marks)?;
        Texts::of_spans(alloc, self.bytes.share()?, spans)
    }

    /// The texts at some places, of which each has one. It copies none of their bytes.
    pub fn picked(&self, alloc: Global, places: &[u32]) -> Result<Texts, AllocError>
        requires { ArePlaces self.now places.now }
        ensures { IfOk result (λ t. t ≡ items_picked self.now places.now) }
    {
        let spans = picked_items(alloc, self.spans.as_slice(), places)?;
        Texts::of_spans(alloc, self.bytes.share()?, spans)
    }

    /// The words of each text, which lie in the same bytes.
    ///
    /// # Errors
    ///
    /// Memory is wanting, or there are more than [`sc_base::COUNT_LIMIT`] words in all.
    pub fn words(&self, alloc: Global) -> Result<TextLists, AllocError>
        ensures words { IfOk result
            (λ w. map (range_of w.items) w.lists.items ≡ map words_of self.now) }
        ensures within { IfOk result (λ w. length w.items ≤ count_limit) }
    {
        let bytes = self.bytes.share()?;
        let found = words_at(alloc, self.bytes.as_slice(), self.spans.as_slice())?;
        let Pieces { items, lists } = found;
        Ok(TextLists {
            items: Texts::of_spans(alloc, bytes, items)?,
            lists,
        })
    }

    /// The pieces of each text between the occurrences of an ASCII character, which lie in the same
    /// bytes. Empty pieces are kept.
    ///
    /// # Errors
    ///
    /// Memory is wanting, or there are more than [`sc_base::COUNT_LIMIT`] pieces in all.
    pub fn cut(&self, alloc: Global, separator: u8) -> Result<TextLists, AllocError>
        requires { separator < 128 }
        ensures cut { IfOk result (λ w. map (range_of w.items) w.lists.items
            ≡ map (cut_at (separator ∷ [])) self.now) }
        ensures within { IfOk result (λ w. length w.items ≤ count_limit) }
    {
        let bytes = self.bytes.share()?;
        let found = pieces_at(
            alloc,
            self.bytes.as_slice(),
            self.spans.as_slice(),
            separator,
        )?;
        let Pieces { items, lists } = found;
        Ok(TextLists {
            items: Texts::of_spans(alloc, bytes, items)?,
            lists,
        })
    }

    /// A word of each text up to the first text that has fewer, which copies none of them.
    pub fn nth_words(&self, alloc: Global, k: usize) -> Result<Texts, AllocError>
        ensures { IfOk result (λ t. t ≡ until_none (word_at k) self.now) }
    {
        let bytes = self.bytes.share()?;
        let places = nth_words_at(alloc, self.bytes.as_slice(), self.spans.as_slice(), k)?;
        Texts::of_spans(alloc, bytes, places)
    }

    /// A piece of each text, cut at an ASCII character, up to the first text that has fewer, which
    /// copies none of them.
    pub fn nth_cuts(&self, alloc: Global, separator: u8, k: usize) -> Result<Texts, AllocError>
        requires { separator < 128 }
        ensures { IfOk result (λ t. t ≡ until_none (piece_at (separator ∷ []) k) self.now) }
    {
        let bytes = self.bytes.share()?;
        let places = nth_pieces_at(
            alloc,
            self.bytes.as_slice(),
            self.spans.as_slice(),
            separator,
            k,
        )?;
        Texts::of_spans(alloc, bytes, places)
    }
}
