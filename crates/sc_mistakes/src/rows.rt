//! Types in words, and a value of each as a script writes it.
#![tactic(auto)]

use sc_value::Ty;
use std::alloc::AllocError;

/// What values of a type are called.
pub(crate) fn type_word(ty: &Ty) -> &'static str {
    match ty {
        Ty::Int => "a number",
        Ty::Bool => "a truth value",
        Ty::Text => "a text",
        Ty::Pair(_, _) => "a pair",
        Ty::List(_) => "a list",
    }
}

/// Writes a type, as `Pair Text (List Int)`.
#[cycle(writing)]
pub(crate) fn write_type(out: &mut String, ty: &Ty) -> Result<(), AllocError> {
    match ty {
        Ty::Int => out.push_str("Int"),
        Ty::Bool => out.push_str("Bool"),
        Ty::Text => out.push_str("Text"),
        Ty::Pair(first, second) => {
            out.push_str("Pair ")?;
            write_inner(out, first)?;
            out.push(' ')?;
            write_inner(out, second)
        }
        Ty::List(item) => {
            out.push_str("List ")?;
            write_inner(out, item)
        }
    }
}

/// Writes a type that stands in another one.
#[cycle(writing)]
fn write_inner(out: &mut String, ty: &Ty) -> Result<(), AllocError> {
    match ty {
        Ty::Pair(_, _) | Ty::List(_) => {
            out.push('(')?;
            write_type(out, ty)?;
            out.push(')')
        }
        Ty::Int | Ty::Bool | Ty::Text => write_type(out, ty),
    }
}

/// Writes an expression of a type.
pub(crate) fn write_value(out: &mut String, ty: &Ty) -> Result<(), AllocError> {
    match ty {
        Ty::Int => out.push_str("1"),
        Ty::Bool => out.push_str("true"),
        Ty::Text => out.push_str("\"t\""),
        Ty::Pair(first, second) => {
            out.push_str("(pair ")?;
            write_value(out, first)?;
            out.push(' ')?;
            write_value(out, second)?;
            out.push(')')
        }
        Ty::List(item) => {
            out.push_str("(list ")?;
            write_value(out, item)?;
            out.push(')')
        }
    }
}

/// Writes which type the variables of an operation's expression have.
pub(crate) fn write_variables(
    text: &mut String,
    operation: &str,
    row: &Ty,
) -> Result<(), AllocError> {
    text.push_str(match operation {
        "reduce" | "reduceByKey" => "\n  `a` and `b` are ",
        _ => "\n  `x` is ",
    })?;
    write_type(text, row)?;
    text.push_str(" here")
}
