//! Expressions over whole columns.
//!
//! [`eval_rows`] gives what an expression gives at each row of a batch, up to the first raise: the
//! same stream as `sc_expr`'s evaluation row by row, which is its definition and its slow path.
//! Each argument is evaluated over the rows that the one before it left, and each branch of an `if`
//! over its own rows, so an earlier raise hides what comes behind it.
//!
//! A head goes through whole columns where they are numbers, truth values, texts, pairs or lists,
//! and row by row elsewhere: a further head with no way of its own costs nothing here. Words and
//! pieces of texts are ranges of the same bytes; their number, or one of them, is found without the
//! lists.
//!
//! For those who put rows together, [`halves`] lends pairs as two columns, [`int_fold`] says what a
//! simple expression does with two numbers, and [`int_at`] finds the number that any gives of two.
//! [`put_next`] puts the next value to one, in place where it is a text that only grows.
//!
//! It knows one batch of rows. Which batches there are is chosen by `sc_ops`; below stand the rows
//! of `sc_columns` and the meaning of `sc_expr`.
#![tactic(auto)]

mod at_ints;
mod by_rows;
mod choices;
mod columns;
mod constants;
mod divisors;
mod evaluation;
mod growing;
mod heads;
mod in_place;
mod int_folds;
mod items;
mod lists;
mod merges;
mod numbers;
mod pairs;
mod parsing;
mod picks;
mod pieces;
mod text_tests;
mod texts;
mod unary;
mod words;

pub use at_ints::{Stop, TwoInts, int_at};
pub use evaluation::eval_rows;
pub use growing::put_next;
pub use int_folds::{IntFold, int_fold};
pub use pairs::halves;
