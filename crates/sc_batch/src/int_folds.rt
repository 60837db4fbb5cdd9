//! What an expression does with two numbers.
#![tactic(auto)]

ghost use Rattle.std.specs.Prelude.{◌≡◌, IfSome, IsTrue, [], ◌∷◌, map};
ghost use Rattle.sc_expr.specs.ExprData.{variable_expr};
ghost use Rattle.sc_expr.specs.Views.{expr_data_of};
ghost use Rattle.sc_expr.specs.declared.exprs.Variable.TheVariants.{A, B};
ghost use Rattle.sc_batch.specs.IntFolds.{FoldsInts, IsIntHead, put_together};

use sc_expr::{Expr, Head, Variable};

/// What is done with two numbers: what is put together so far, and the next.
#[derive(Clone, Copy, Debug, PartialEq, Eq)]
pub enum IntFold {
    /// The sum.
    Sum,
    /// The difference.
    Difference,
    /// The product.
    Product,
}

impl IntFold {
    /// Two numbers put together.
    #[inline(always)]
    pub fn put(self, a: i64, b: i64) -> i64
        ensures { result ≡ put_together self a b }
    {
        match self {
            IntFold::Sum => a.wrapping_add(b),
            IntFold::Difference => a.wrapping_sub(b),
            IntFold::Product => a.wrapping_mul(b),
        }
    }
}

/// What an expression does with two numbers, where it is one head at `a` and `b`.
pub fn int_fold(expr: &Expr) -> Option<IntFold>
    ensures { IfSome result (FoldsInts (expr_data_of expr.now)) }
{
    match expr {
        Expr::Call(head, args) => {
            if is_a_and_b(args) {
                int_head(*head)
            } else {
                None
            }
        }
        Expr::Int(_) | Expr::Bool(_) | Expr::Text(_) | Expr::Variable(_) => None,
    }
}

/// What a head does with two numbers, where it is one of those.
fn int_head(head: Head) -> Option<IntFold>
    ensures { IfSome result (IsIntHead head) }
{
    match head {
        Head::Add => Some(IntFold::Sum),
        Head::Sub => Some(IntFold::Difference),
        Head::Mul => Some(IntFold::Product),
        _ => None,
    }
}

/// Whether arguments are `a` and `b`.
fn is_a_and_b(args: &[Expr]) -> bool
    ensures { IsTrue result
        → map expr_data_of args.now ≡ variable_expr A ∷ variable_expr B ∷ [] }
{
    match args {
        [first, second] => is_variable(first, Variable::A) && is_variable(second, Variable::B),
        _ => false,
    }
}

/// Whether an expression is this variable.
pub(crate) fn is_variable(expr: &Expr, variable: Variable) -> bool
    ensures { IsTrue result → expr_data_of expr.now ≡ variable_expr variable }
{
    match expr {
        Expr::Variable(v) => *v == variable,
        Expr::Int(_) | Expr::Bool(_) | Expr::Text(_) | Expr::Call(_, _) => false,
    }
}
