//! The names of operations, actions and heads, and what each takes.
#![tactic(auto)]

use sc_pieces::is_among;
use std::alloc::AllocError;

/// The operations.
pub(crate) const OPERATIONS: &str = "text parallelize map filter flatMap mapValues flatMapValues \
    union coalesce repartition cache reduceByKey groupByKey sortByKey cogroup join";

/// The actions.
pub(crate) const ACTIONS: &str = "collect count reduce save";

/// The heads that are words.
pub(crate) const HEADS: &str =
    "and or not if pair fst snd list len nth sum words cut int text concat";

/// The heads that are signs.
pub(crate) const SIGNS: &str = "+ - * / % == < <=";

/// What is wanted at a place among arguments.
#[derive(Clone, Copy)]
pub(crate) enum Wanted {
    /// The name of an input.
    Input,
    /// The name of a directory.
    Directory,
    /// A number of partitions.
    Count,
    /// Literals to the end, one at least.
    Literals,
    /// The name of a definition.
    Node,
    /// An expression.
    Expr,
    /// Expressions to the end.
    Exprs,
    /// A text of one character.
    Character,
}

impl Wanted {
    /// How it is written in a form.
    pub(crate) fn sign(self) -> &'static str {
        match self {
            Wanted::Input => "\"FILE\"",
            Wanted::Directory => "\"DIRECTORY\"",
            Wanted::Count => "N",
            Wanted::Literals => "LITERAL..",
            Wanted::Node => "NODE",
            Wanted::Expr => "EXPR",
            Wanted::Exprs => "EXPR..",
            Wanted::Character => "\"C\"",
        }
    }

    /// What it is.
    pub(crate) fn meaning(self) -> &'static str {
        match self {
            Wanted::Input => "the name of a file, in double quotes and not empty",
            Wanted::Directory =>
                "the name of a directory, in double quotes and with no / at its end",
            Wanted::Count => "a number of partitions, from 1 to 1024",
            Wanted::Literals => "one or more numbers, or one or more texts in double quotes",
            Wanted::Node => "the name of a definition that stands above",
            Wanted::Expr | Wanted::Exprs => {
                "a number, a text, a variable, or a head with arguments in parentheses"
            }
            Wanted::Character => "a text of one character",
        }
    }

    /// Whether more of the same may stand behind it.
    pub(crate) fn repeats(self) -> bool {
        matches!(self, Wanted::Literals | Wanted::Exprs)
    }
}

/// What an operation takes.
pub(crate) fn operation_wants(name: &str) -> Option<&'static [Wanted]> {
    if is_among(name, "map filter flatMap mapValues flatMapValues") {
        return Some(&[Wanted::Node, Wanted::Expr]);
    }
    if is_among(name, "coalesce repartition groupByKey sortByKey") {
        return Some(&[Wanted::Node, Wanted::Count]);
    }
    match name {
        "text" => Some(&[Wanted::Input, Wanted::Count]),
        "parallelize" => Some(&[Wanted::Count, Wanted::Literals]),
        "union" => Some(&[Wanted::Node, Wanted::Node]),
        "cache" => Some(&[Wanted::Node]),
        "reduceByKey" => Some(&[Wanted::Node, Wanted::Count, Wanted::Expr]),
        "cogroup" | "join" => Some(&[Wanted::Node, Wanted::Node, Wanted::Count]),
        _ => None,
    }
}

/// What an action takes.
pub(crate) fn action_wants(name: &str) -> Option<&'static [Wanted]> {
    match name {
        "collect" | "count" => Some(&[Wanted::Node]),
        "reduce" => Some(&[Wanted::Node, Wanted::Expr]),
        "save" => Some(&[Wanted::Node, Wanted::Directory]),
        _ => None,
    }
}

/// What a head takes.
pub(crate) fn head_wants(name: &str) -> Option<&'static [Wanted]> {
    if is_among(name, "not fst snd len sum words int text") {
        return Some(&[Wanted::Expr]);
    }
    if is_among(name, "+ - * / % == < <= and or pair nth concat") {
        return Some(&[Wanted::Expr, Wanted::Expr]);
    }
    match name {
        "if" => Some(&[Wanted::Expr, Wanted::Expr, Wanted::Expr]),
        "list" => Some(&[Wanted::Expr, Wanted::Exprs]),
        "cut" => Some(&[Wanted::Expr, Wanted::Character]),
        _ => None,
    }
}

/// Writes a form: a name and what it takes.
pub(crate) fn write_form(out: &mut String, name: &str, wants: &[Wanted]) -> Result<(), AllocError> {
    out.push_str(name)?;
    for wanted in wants {
        let sign = wanted.sign();
        out.push(' ')?;
        out.push_str(sign)?;
    }
    Ok(())
}
