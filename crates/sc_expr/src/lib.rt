//! Expressions: what a script computes from a row, or from two values that are put together.
//!
//! An [`Expr`] is a literal, a variable, or a [`Head`] with its arguments. [`type_of`] finds its
//! type or that it has none, [`eval`] its value or its first [`Raise`] from the left, [`apply`] the
//! value of a head at values. All go by tables: `specs/Schemes.antt` has a line for the types that
//! each head takes and one for the type that it gives, read by one matcher; `specs/Heads.antt` has
//! a line for the value of each head. A further head is a variant and these three lines, in the
//! definitions and in the code, and its place among the groups of `specs/HeadGroups.antt`.
//!
//! Contracts see expressions as plain data (`ExprData`). The meaning is total: it gives every
//! expression an outcome, also one with no type, so that nothing above has to carry types.
//!
//! It knows one row at a time: rows and columns stand in the crates above, values in `sc_value`.
#![tactic(auto)]

mod arguments;
mod comparisons;
mod evaluation;
mod exprs;
mod heads;
mod lists;
mod numbers;
mod schemes;
mod texts;
mod typing;

pub use evaluation::{Env, EvalError, eval};
pub use exprs::{Expr, Head, Raise, Variable};
pub use heads::{apply, is_lazy};
pub use schemes::Pattern;
pub use typing::{IllTyped, TypeEnv, TypeError, type_of};
