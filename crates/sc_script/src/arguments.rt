//! What single arguments are. What an argument holds is moved.
#![tactic(auto)]

ghost use Rattle.std.specs.Prelude.{◌≡◌, ◌<◌, IfOk, length, map};
ghost use Rattle.sc_base.specs.Answers.{Finds};
ghost use Rattle.sc_base.specs.Lists.{at_or};
ghost use Rattle.sc_expr.specs.ExprData.{exprs_of as exprs_data};
ghost use Rattle.sc_expr.specs.Views.{expr_data_of};
ghost use Rattle.sc_lineage.specs.ScriptData.{IsCount, declared_counts, partition_limit};
ghost use Rattle.sc_script.specs.Items.{args_behind, count_arg_at, expr_arg_at, expr_from, exprs_from, first_arg, literal_in, literals_in, node_arg_at, text_arg_at, word_from};
ghost use Rattle.sc_script.specs.Views.{arg_data_of, args_left, args_of};
ghost use Rattle.sc_value.specs.Views.{datum_of};

use crate::counts::count_of;
use crate::defined::Defined;
use crate::tables::head_named;
use crate::trees::Arg;
use sc_base::OrMemory;
use sc_columns::{Rows, RowsBuilder};
use sc_expr::{Expr, Variable};
use sc_lineage::NodeId;
use sc_value::{Text, Value};
use std::alloc::Global;
use std::vec::IntoIter;

/// Where an expression stands, which decides its variables.
#[derive(Clone, Copy, Debug, PartialEq, Eq)]
pub enum Place {
    /// Over a row.
    Row,
    /// Over two values.
    Two,
}

/// An argument isn't there, isn't what its place wants, or names nothing that is known.
#[derive(Clone, Copy, Debug, PartialEq, Eq)]
pub(crate) struct Unknown;

/// Why arguments make nothing.
pub(crate) type ItemError = OrMemory<Unknown>;

/// The next argument.
fn next_arg(args: &mut IntoIter<Arg>) -> Result<Arg, ItemError>
    ensures arg { Finds arg_data_of result (first_arg (args_left args.old)) }
    ensures rest { args_left args.new ≡ args_behind (args_left args.old) }
{
    match args.next() {
        Some(arg) => Ok(arg),
        None => Err(ItemError::Fault(Unknown)),
    }
}

/// The text that the next argument is.
pub(crate) fn text_arg(args: &mut IntoIter<Arg>) -> Result<Text, ItemError>
    ensures text { Finds (λ t. t) result (text_arg_at (args_left args.old) 0) }
    ensures rest { args_left args.new ≡ args_behind (args_left args.old) }
{
    match next_arg(args)? {
        Arg::Text(text) => Ok(text),
        Arg::Int(_) | Arg::Word(_) | Arg::List(_, _) => Err(ItemError::Fault(Unknown)),
    }
}

/// The number of partitions that the next argument is.
pub(crate) fn count_arg(defined: &Defined, args: &mut IntoIter<Arg>) -> Result<u32, ItemError>
    ensures number { Finds (λ n. n) result
        (count_arg_at (partition_limit defined.now.script) (args_left args.old) 0) }
    ensures count { IfOk result (IsCount (partition_limit defined.now.script)) }
    ensures rest { args_left args.new ≡ args_behind (args_left args.old) }
{
    let arg = next_arg(args)?;
    match count_of(defined.script.partition_limit(), &arg) {
        Some(count) => Ok(count),
        None => Err(ItemError::Fault(Unknown)),
    }
}

/// The number of the node that the next argument names.
pub(crate) fn node_arg(defined: &Defined, args: &mut IntoIter<Arg>) -> Result<NodeId, ItemError>
    ensures number { Finds (λ n. n) result
        (node_arg_at defined.now.names.items (args_left args.old) 0) }
    ensures before { IfOk result (λ n. n < length defined.now.script.nodes) }
    ensures count { IfOk result (λ n. IsCount (partition_limit defined.now.script)
        (at_or (declared_counts defined.now.script.nodes) n 0)) }
    ensures rest { args_left args.new ≡ args_behind (args_left args.old) }
{
    let arg = next_arg(args)?;
    match defined.node_in(&arg) {
        Some(node) => Ok(node),
        None => Err(ItemError::Fault(Unknown)),
    }
}

/// The expression that the next argument writes.
pub(crate) fn expr_arg(
    alloc: Global,
    place: Place,
    args: &mut IntoIter<Arg>,
) -> Result<Expr, ItemError>
    ensures expr { Finds expr_data_of result (expr_arg_at place (args_left args.old) 0) }
    ensures rest { args_left args.new ≡ args_behind (args_left args.old) }
{
    let arg = next_arg(args)?;
    expr_of(alloc, place, arg)
}

/// The literals that arguments are.
pub(crate) fn literals_of(alloc: Global, args: IntoIter<Arg>) -> Result<Rows, ItemError>
    ensures { Finds (λ rows. rows) result (literals_in (args_left args)) }
{
    let mut literals = RowsBuilder::new(alloc);
    for arg in args {
        let literal = literal_of(arg)?;
        literals.push(alloc, &literal)?;
    }
    Ok(literals.finish(alloc)?)
}

/// The literal that an argument is.
fn literal_of(arg: Arg) -> Result<Value, ItemError>
    ensures { Finds datum_of result (literal_in (arg_data_of arg)) }
{
    match arg {
        Arg::Int(n) => Ok(Value::Int(n)),
        Arg::Text(text) => Ok(Value::Text(text)),
        Arg::Word(_) | Arg::List(_, _) => Err(ItemError::Fault(Unknown)),
    }
}

/// The expression that an argument writes.
#[cycle(reading)]
fn expr_of(alloc: Global, place: Place, arg: Arg) -> Result<Expr, ItemError>
    ensures { Finds expr_data_of result (expr_from place (arg_data_of arg)) }
{
    match arg {
        Arg::Int(n) => Ok(Expr::Int(n)),
        Arg::Text(text) => Ok(Expr::Text(text)),
        Arg::Word(word) => word_of(place, word.as_str()),
        Arg::List(head, args) => {
            let exprs = exprs_of(alloc, place, args)?;
            match head_named(&head) {
                Some(head) => Ok(Expr::Call(head, exprs)),
                None => Err(ItemError::Fault(Unknown)),
            }
        }
    }
}

/// The expressions that arguments write.
#[cycle(reading)]
fn exprs_of(alloc: Global, place: Place, args: Vec<Arg>) -> Result<Vec<Expr>, ItemError>
    ensures { Finds (λ v. exprs_data (map expr_data_of v.items)) result
        (exprs_from place (args_of (map arg_data_of args.items))) }
{
    let mut exprs = Vec::new(alloc);
    for arg in args {
        exprs.push(expr_of(alloc, place, arg)?)?;
    }
    Ok(exprs)
}

/// What a word of an expression stands for.
fn word_of(place: Place, word: &str) -> Result<Expr, ItemError>
    ensures { Finds expr_data_of result (word_from place word.now) }
{
    match place {
        Place::Row => match word {
            "true" => Ok(Expr::Bool(true)),
            "false" => Ok(Expr::Bool(false)),
            "x" => Ok(Expr::Variable(Variable::X)),
            _ => Err(ItemError::Fault(Unknown)),
        },
        Place::Two => match word {
            "true" => Ok(Expr::Bool(true)),
            "false" => Ok(Expr::Bool(false)),
            "a" => Ok(Expr::Variable(Variable::A)),
            "b" => Ok(Expr::Variable(Variable::B)),
            _ => Err(ItemError::Fault(Unknown)),
        },
    }
}
