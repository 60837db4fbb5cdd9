//! Expressions.
#![tactic(auto)]

ghost use Rattle.std.specs.Prelude.{◌≡◌};
ghost use Rattle.sc_expr.specs.RaiseTexts.{raise_text};

use sc_value::Text;
use thiserror::Error;

/// A variable of an expression.
#[derive(Clone, Copy, Debug, PartialEq, Eq)]
pub enum Variable {
    /// The row, or the value of its pair.
    X,
    /// The first of two values that are put together.
    A,
    /// The second of two values that are put together.
    B,
}

/// The head of a call. `specs/Schemes.antt` has the types of each, `specs/Heads.antt` its value.
#[derive(Clone, Copy, Debug, PartialEq, Eq)]
pub enum Head {
    /// The sum of two numbers, which wraps at 64 bits as the next two do.
    Add,
    /// The difference of two numbers.
    Sub,
    /// The product of two numbers.
    Mul,
    /// The quotient of two numbers, truncated; a division by zero raises.
    Div,
    /// The remainder of two numbers, with the sign of the first; a division by zero raises.
    Rem,
    /// Whether two numbers, truth values or texts are equal.
    Eq,
    /// Whether a number or a text comes before another, texts by their UTF-8 bytes.
    Lt,
    /// Whether a number or a text comes before another or is the same.
    Le,
    /// Whether both hold; the second is evaluated only where the first holds.
    And,
    /// Whether one of two holds; the second is evaluated only where the first doesn't hold.
    Or,
    /// Whether a truth value doesn't hold.
    Not,
    /// The second argument where the first holds, else the third; only that one is evaluated.
    If,
    /// A pair.
    Pair,
    /// The first part of a pair.
    Fst,
    /// The second part of a pair.
    Snd,
    /// A list of its arguments, one or more.
    List,
    /// How many items a list has.
    Len,
    /// The item of a list at a place from 0; a place outside the list raises.
    Nth,
    /// The sum of a list of numbers, which wraps at 64 bits.
    Sum,
    /// The words of a text: its longest runs of characters other than space and tab.
    Words,
    /// The pieces of a text between the occurrences of a character; empty ones are kept.
    Cut,
    /// The number that a text writes; a text that writes none, or one past 64 bits, raises.
    Int,
    /// The printed text of a value.
    Text,
    /// Two texts, one behind the other.
    Concat,
}

/// An expression.
#[derive(Drop)]
pub enum Expr {
    /// A whole number of 64 bits.
    Int(i64),
    /// A truth value.
    Bool(bool),
    /// A text.
    Text(Text),
    /// A variable.
    Variable(Variable),
    /// A head with its arguments.
    Call(Head, Vec<Expr>),
}

/// Why an expression has no value.
#[derive(Clone, Copy, Debug, PartialEq, Eq, Error)]
pub enum Raise {
    /// A division by zero.
    #[error("DivideByZero")]
    DivideByZero,
    /// A text that should write a number and doesn't.
    #[error("NotANumber")]
    NotANumber,
    /// A place outside a list, or a number past 64 bits.
    #[error("OutOfRange")]
    OutOfRange,
}

impl Raise {
    /// Its name, as it stands in texts.
    pub fn name(self) -> &'static str
        ensures { result.now ≡ raise_text self }
    {
        match self {
            Raise::DivideByZero => "DivideByZero",
            Raise::NotANumber => "NotANumber",
            Raise::OutOfRange => "OutOfRange",
        }
    }
}
