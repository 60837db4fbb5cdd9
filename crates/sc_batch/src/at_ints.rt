//! Expressions over two numbers whose parts are numbers too.
#![tactic(auto)]

ghost use Rattle.std.specs.Prelude.{◌≡◌, IsTrue, Ok, false, [], ◌∷◌, map};
ghost use Rattle.sc_value.specs.Datum.{number, truth};
ghost use Rattle.sc_expr.specs.ExprData.{exprs_of};
ghost use Rattle.sc_expr.specs.Heads.{head_value, is_lazy, quotient as quotient_of, remainder as remainder_of};
ghost use Rattle.sc_expr.specs.Meaning.{call_outcome, outcomes_of, value_of_expr, variable_value};
ghost use Rattle.sc_expr.specs.Views.{expr_data_of};
ghost use Rattle.sc_expr.specs.declared.exprs.Head.TheVariants.{If};
ghost use Rattle.sc_batch.specs.AtInts.{Gives, at_two};

use sc_expr::{Expr, Head, Raise, Variable};

/// Why an expression over two numbers gave none.
#[derive(Clone, Copy, Debug, PartialEq, Eq)]
pub enum Stop {
    /// It raises.
    Raised(Raise),
    /// A part of it is more than arithmetic, comparisons of numbers and choices by these.
    Beyond,
}

/// The numbers that `a` and `b` stand for.
#[derive(Clone, Copy, Debug, PartialEq, Eq)]
pub struct TwoInts {
    /// What is put together so far.
    pub a: i64,
    /// The next.
    pub b: i64,
}

/// The number that an expression gives of two, for which nothing is allocated.
///
/// # Errors
///
/// Its first raise from the left, or `Beyond` where that can't be said.
#[cycle(finding)]
pub fn int_at(expr: &Expr, at: TwoInts) -> Result<i64, Stop>
    ensures { Gives number result (value_of_expr (at_two at) (expr_data_of expr.now)) }
{
    match expr {
        Expr::Int(n) => Ok(*n),
        Expr::Variable(variable) => variable_at(*variable, at),
        Expr::Call(head, args) => call_at(*head, args, at),
        Expr::Bool(_) | Expr::Text(_) => Err(Stop::Beyond),
    }
}

/// The number that a variable stands for.
fn variable_at(variable: Variable, at: TwoInts) -> Result<i64, Stop>
    ensures { Gives number result (Ok (variable_value (at_two at) variable)) }
{
    match variable {
        Variable::A => Ok(at.a),
        Variable::B => Ok(at.b),
        Variable::X => Err(Stop::Beyond),
    }
}

/// The number that a head gives at some arguments.
#[cycle(finding)]
fn call_at(head: Head, args: &Vec<Expr>, at: TwoInts) -> Result<i64, Stop>
    ensures { Gives number result (call_outcome head
        (outcomes_of (at_two at) (exprs_of (map expr_data_of args.now.items)))) }
{
    match head {
        Head::If => choice_at(args, at),
        _ => arithmetic_at(head, args, at),
    }
}

/// The number that arithmetic gives at two arguments.
#[cycle(finding)]
fn arithmetic_at(head: Head, args: &Vec<Expr>, at: TwoInts) -> Result<i64, Stop>
    ensures { Gives number result (call_outcome head
        (outcomes_of (at_two at) (exprs_of (map expr_data_of args.now.items)))) }
{
    if !is_arithmetic(head) {
        return Err(Stop::Beyond);
    }
    match args.as_slice() {
        [first, second] => {
            let a = int_at(first, at)?;
            let b = int_at(second, at)?;
            computed(head, a, b)
        }
        _ => Err(Stop::Beyond),
    }
}

/// The number that one of two arguments gives, by a test before them.
#[cycle(finding)]
fn choice_at(args: &Vec<Expr>, at: TwoInts) -> Result<i64, Stop>
    ensures { Gives number result (call_outcome If
        (outcomes_of (at_two at) (exprs_of (map expr_data_of args.now.items)))) }
{
    match args.as_slice() {
        [test, first, second] => {
            if test_at(test, at)? {
                int_at(first, at)
            } else {
                int_at(second, at)
            }
        }
        _ => Err(Stop::Beyond),
    }
}

/// The truth value that an expression gives of two numbers.
#[cycle(finding)]
fn test_at(expr: &Expr, at: TwoInts) -> Result<bool, Stop>
    ensures { Gives truth result (value_of_expr (at_two at) (expr_data_of expr.now)) }
{
    match expr {
        Expr::Bool(b) => Ok(*b),
        Expr::Call(head, args) => comparison_at(*head, args, at),
        Expr::Int(_) | Expr::Text(_) | Expr::Variable(_) => Err(Stop::Beyond),
    }
}

/// The truth value that a comparison gives at two arguments.
#[cycle(finding)]
fn comparison_at(head: Head, args: &Vec<Expr>, at: TwoInts) -> Result<bool, Stop>
    ensures { Gives truth result (call_outcome head
        (outcomes_of (at_two at) (exprs_of (map expr_data_of args.now.items)))) }
{
    if !is_comparison(head) {
        return Err(Stop::Beyond);
    }
    match args.as_slice() {
        [first, second] => {
            let a = int_at(first, at)?;
            let b = int_at(second, at)?;
            compared(head, a, b)
        }
        _ => Err(Stop::Beyond),
    }
}

/// Whether a head is arithmetic over two numbers.
fn is_arithmetic(head: Head) -> bool
    ensures { IsTrue result → is_lazy head ≡ false }
{
    match head {
        Head::Add | Head::Sub | Head::Mul | Head::Div | Head::Rem => true,
        _ => false,
    }
}

/// Whether a head compares two numbers.
fn is_comparison(head: Head) -> bool
    ensures { IsTrue result → is_lazy head ≡ false }
{
    match head {
        Head::Eq | Head::Lt | Head::Le => true,
        _ => false,
    }
}

/// The number that a head gives of two.
fn computed(head: Head, a: i64, b: i64) -> Result<i64, Stop>
    ensures { Gives number result (head_value head (number a ∷ number b ∷ [])) }
{
    match head {
        Head::Add => Ok(a.wrapping_add(b)),
        Head::Sub => Ok(a.wrapping_sub(b)),
        Head::Mul => Ok(a.wrapping_mul(b)),
        Head::Div => quotient(a, b),
        Head::Rem => remainder(a, b),
        _ => Err(Stop::Beyond),
    }
}

/// The truncated quotient.
fn quotient(a: i64, b: i64) -> Result<i64, Stop>
    ensures { Gives number result (quotient_of a b) }
{
    if b == 0 {
        return Err(Stop::Raised(Raise::DivideByZero));
    }
    Ok(a.wrapping_div(b))
}

/// The remainder, with the sign of the first.
fn remainder(a: i64, b: i64) -> Result<i64, Stop>
    ensures { Gives number result (remainder_of a b) }
{
    if b == 0 {
        return Err(Stop::Raised(Raise::DivideByZero));
    }
    Ok(a.wrapping_rem(b))
}

/// How a head compares two numbers.
fn compared(head: Head, a: i64, b: i64) -> Result<bool, Stop>
    ensures { Gives truth result (head_value head (number a ∷ number b ∷ [])) }
{
    match head {
        Head::Eq => Ok(a == b),
        Head::Lt => Ok(a < b),
        Head::Le => Ok(a < b || a == b),
        _ => Err(Stop::Beyond),
    }
}
