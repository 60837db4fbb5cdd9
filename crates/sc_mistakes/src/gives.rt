//! What expressions are to give, and what heads take.
#![tactic(auto)]

use crate::signs::meaning_in;
use sc_value::{Ty, is_same_type};

/// What an expression is to give.
#[derive(Clone, Copy)]
pub(crate) enum Gives {
    Anything,
    Truth,
    List,
    /// What it is over.
    TheSame,
}

/// Whether a type is as wanted of an expression over a row.
pub(crate) fn is_given(gives: Gives, ty: &Ty, row: &Ty) -> bool {
    match gives {
        Gives::Anything => true,
        Gives::Truth => matches!(ty, Ty::Bool),
        Gives::List => matches!(ty, Ty::List(_)),
        Gives::TheSame => is_same_type(ty, row),
    }
}

/// What an expression is to give, in words.
pub(crate) fn wanted_word(gives: Gives) -> &'static str {
    match gives {
        Gives::Anything => "a value",
        Gives::Truth => "a truth value",
        Gives::List => "a list",
        Gives::TheSame => "a value of the type that it takes",
    }
}

/// What heads take, in words.
const TAKEN: [(&str, &str); 13] = [
    ("+ - * / %", "two numbers"),
    ("==", "two numbers, two texts or two truth values"),
    ("< <=", "two numbers or two texts"),
    ("and or", "two truth values"),
    ("not", "a truth value"),
    ("if", "a truth value and two values of one type"),
    ("fst snd", "a pair"),
    ("list", "values of one type"),
    ("len", "a list"),
    ("nth", "a list and a number"),
    ("sum", "a list of numbers"),
    ("words int cut", "a text"),
    ("concat", "two texts"),
];

/// What a head takes, in words.
pub(crate) fn head_takes(name: &str) -> &'static str {
    meaning_in(&TAKEN, name).unwrap_or("other values")
}
