//! The values that scripts compute, the texts that they are made of, and how both are printed.
//!
//! A [`Value`] is a number, a truth value, a text, a pair or a list. Contracts see it as plain data
//! (`Datum` of `specs/Datum.antt`), so a copy is the same data, and nothing is said of pointers and
//! capacities. [`print`] gives its printed text, [`Key`] and [`order`] its order in a sort.
//!
//! [`Octets`] are bytes that are shared and never change, [`Held`] is a shared range of items of
//! any type. [`Texts`] are places in shared bytes, never a string for each text: [`lines`] finds
//! the lines of a file so, and the words of texts, their pieces, a range of them and those at some
//! places lie in the same bytes. A [`TextsBuilder`] makes texts one by one. [`append_part`] copies
//! bytes, of which few go in a block. [`parse_int`] reads the number that a text writes.
//!
//! Shared bytes of texts end at 4 GiB. Rows and columns stand in `sc_columns`, expressions in
//! `sc_expr`; below is `sc_base` alone.
#![tactic(auto)]

mod blanks;
mod blocks;
mod builder;
mod cuts;
mod held;
mod keys;
mod laws;
mod line_ends;
mod name;
mod numbers;
mod octets;
mod pieces;
mod printing;
mod text;
mod texts;
mod types;
mod values;
mod words;

pub use blocks::append_part;
pub use builder::TextsBuilder;
pub use cuts::cut_in;
pub use held::{Held, kept_items, picked_items};
pub use keys::{Key, keys_are_ordered, order};
pub use laws::{laws_of_lines, laws_of_numbers, laws_of_words};
pub use line_ends::{NotText, line_spans, lines};
pub use name::Name;
pub use numbers::{NumberFault, is_digits, is_number, parse_int};
pub use octets::Octets;
pub use printing::{print, print_to, truth_word};
pub use text::Text;
pub use texts::{Span, TextLists, Texts};
pub use types::{Ty, is_same_type};
pub use values::{Value, copy, is_same};
pub use words::{nth_word, word_count, words_in};
