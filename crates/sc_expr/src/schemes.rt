//! The types that each head takes and gives, as data.
#![tactic(auto)]

ghost use Rattle.std.specs.Prelude.{◌≡◌};
ghost use Rattle.sc_expr.specs.Schemes.{head_takes as takes_of, head_gives as gives_of};

use crate::exprs::Head;

/// What a type may be in the scheme of a head.
#[derive(Clone, Copy, Debug, PartialEq, Eq)]
pub enum Pattern {
    /// A number.
    Int,
    /// A truth value.
    Bool,
    /// A text.
    Text,
    /// The type T, one of those that `==` compares.
    Plain,
    /// The type T, one of those that `<` compares.
    Ordered,
    /// The type T.
    T,
    /// The type U.
    U,
    /// A pair of T and U.
    PairTU,
    /// A list of T.
    ListT,
    /// The type T for each argument to the end.
    EachT,
    /// A list of numbers.
    ListInt,
    /// A list of texts.
    ListText,
}

/// The types of a head's arguments.
pub(crate) fn head_takes(head: Head) -> &'static [Pattern]
    ensures { result.now ≡ takes_of head }
{
    match head {
        Head::Add | Head::Sub | Head::Mul | Head::Div | Head::Rem => &[Pattern::Int, Pattern::Int],
        Head::Eq => &[Pattern::Plain, Pattern::Plain],
        Head::Lt | Head::Le => &[Pattern::Ordered, Pattern::Ordered],
        Head::And | Head::Or => &[Pattern::Bool, Pattern::Bool],
        Head::Not => &[Pattern::Bool],
        Head::If => &[Pattern::Bool, Pattern::T, Pattern::T],
        Head::Pair => &[Pattern::T, Pattern::U],
        Head::Fst | Head::Snd => &[Pattern::PairTU],
        Head::List => &[Pattern::T, Pattern::EachT],
        Head::Len => &[Pattern::ListT],
        Head::Nth => &[Pattern::ListT, Pattern::Int],
        Head::Sum => &[Pattern::ListInt],
        Head::Words | Head::Int => &[Pattern::Text],
        Head::Text => &[Pattern::T],
        Head::Cut | Head::Concat => &[Pattern::Text, Pattern::Text],
    }
}

/// The type that a head gives.
pub(crate) fn head_gives(head: Head) -> Pattern
    ensures { result ≡ gives_of head }
{
    match head {
        Head::Add | Head::Sub | Head::Mul | Head::Div | Head::Rem => Pattern::Int,
        Head::Len | Head::Sum | Head::Int => Pattern::Int,
        Head::Eq | Head::Lt | Head::Le | Head::And | Head::Or | Head::Not => Pattern::Bool,
        Head::If | Head::Fst | Head::Nth => Pattern::T,
        Head::Snd => Pattern::U,
        Head::Pair => Pattern::PairTU,
        Head::List => Pattern::ListT,
        Head::Words | Head::Cut => Pattern::ListText,
        Head::Text | Head::Concat => Pattern::Text,
    }
}
