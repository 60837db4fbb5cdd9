//! The type of an expression.
#![tactic(auto)]

ghost use Rattle.std.specs.Prelude.{◌≡◌, ◌<◌, if◌then◌else◌, IfOk, length, Some, None, map};
ghost use Rattle.std.specs.Option.{option_map};
ghost use Rattle.sc_base.specs.Answers.{Finds};
ghost use Rattle.sc_value.specs.Types.{list_type};
ghost use Rattle.sc_value.specs.Views.{type_data_of};
ghost use Rattle.sc_expr.specs.Schemes.{type_of_expr, types_of_exprs, head_type, all_matched, matched, given, bound_to, with_t, with_u, is_plain as plain, is_ordered as ordered, nothing_bound, may_end, variable_type as kind_of};
ghost use Rattle.sc_expr.specs.BoundViews.{letter_data_of, bound_data_of, all_behind};
ghost use Rattle.sc_expr.specs.ExprData.{exprs_of};
ghost use Rattle.sc_expr.specs.Views.{expr_data_of, type_env_data_of};

use crate::exprs::{Expr, Head, Variable};
use crate::schemes::{Pattern, head_gives, head_takes};
use sc_base::OrMemory;
use sc_value::{Ty, is_same_type};
use std::alloc::{AllocError, Global};
use thiserror::Error;

/// The types of the variables of a place.
#[derive(Clone, Copy)]
pub enum TypeEnv<'a> {
    /// The type of `x`.
    One(&'a Ty),
    /// The types of `a` and `b`.
    Two(&'a Ty, &'a Ty),
}

/// An expression has no type: a head doesn't take its arguments, or the place lacks a variable.
#[derive(Clone, Copy, Debug, PartialEq, Eq, Error)]
#[error("IllTyped")]
pub struct IllTyped;

/// Why no type was found.
pub type TypeError = OrMemory<IllTyped>;

/// What the letters of a scheme stand for.
#[derive(Clone, Copy)]
pub(crate) struct Bound<'a> {
    t: Option<&'a Ty>,
    u: Option<&'a Ty>,
}

/// The type of an expression.
///
/// # Errors
///
/// `IllTyped` exactly where it has none, unless memory runs out.
#[cycle(typing)]
pub fn type_of(alloc: Global, expr: &Expr, env: TypeEnv<'_>) -> Result<Ty, TypeError>
    ensures { Finds type_data_of result
        (type_of_expr (type_env_data_of env.entry) (expr_data_of expr.now)) }
{
    match expr {
        Expr::Int(_) => Ok(Ty::Int),
        Expr::Bool(_) => Ok(Ty::Bool),
        Expr::Text(_) => Ok(Ty::Text),
        Expr::Variable(v) => variable_type(alloc, env, *v),
        Expr::Call(head, args) => {
            let types = types_of(alloc, args, env)?;
            call_type(alloc, *head, &types)
        }
    }
}

/// The types of expressions.
#[cycle(typing)]
fn types_of(alloc: Global, exprs: &Vec<Expr>, env: TypeEnv<'_>) -> Result<Vec<Ty>, TypeError>
    ensures { Finds (λ v. map type_data_of v.items) result
        (types_of_exprs (type_env_data_of env.entry)
        (exprs_of (map expr_data_of exprs.now.items))) }
{
    let mut types = Vec::new(alloc);
    for expr in exprs.iter() {
        types.push(type_of(alloc, expr, env)?)?;
    }
    Ok(types)
}

/// The type of a variable.
fn variable_type(alloc: Global, env: TypeEnv<'_>, variable: Variable) -> Result<Ty, TypeError>
    ensures { Finds type_data_of result (kind_of (type_env_data_of env.entry) variable) }
{
    match (env, variable) {
        (TypeEnv::One(x), Variable::X) => Ok(x.copy(alloc)?),
        (TypeEnv::Two(a, _), Variable::A) => Ok(a.copy(alloc)?),
        (TypeEnv::Two(_, b), Variable::B) => Ok(b.copy(alloc)?),
        _ => Err(OrMemory::Fault(IllTyped)),
    }
}

/// The type that a head gives at types.
fn call_type(alloc: Global, head: Head, types: &[Ty]) -> Result<Ty, TypeError>
    ensures { Finds type_data_of result (head_type head (map type_data_of types.now)) }
{
    match bind_all(head_takes(head), types) {
        Some(bound) => type_given(alloc, head_gives(head), bound),
        None => Err(OrMemory::Fault(IllTyped)),
    }
}

/// What the letters stand for where types fit patterns one after another.
fn bind_all<'a>(patterns: &[Pattern], types: &'a [Ty]) -> Option<Bound<'a>>
    ensures { option_map bound_data_of result
        ≡ all_matched patterns.now (map type_data_of types.now) nothing_bound }
{
    let mut bound = Bound { t: None, u: None };
    let mut rest = patterns;
    for t in types {
        let pattern = rest.first()?;
        bound = bind(*pattern, t, bound)?;
        rest = behind(rest);
    }
    if can_end(rest) { Some(bound) } else { None }
}

/// The patterns behind the first.
fn behind(patterns: &[Pattern]) -> &[Pattern]
    requires { 0 < length patterns.now }
    ensures { result.now ≡ all_behind patterns.now }
{
    match patterns[0] {
        Pattern::EachT => patterns,
        _ => &patterns[1..],
    }
}

/// Whether no type need follow.
fn can_end(patterns: &[Pattern]) -> bool
    ensures { result ≡ may_end patterns.now }
{
    match patterns.first() {
        None => true,
        Some(pattern) => matches!(pattern, Pattern::EachT),
    }
}

/// What the letters stand for where the type fits the pattern.
fn bind<'a>(pattern: Pattern, s: &'a Ty, bound: Bound<'a>) -> Option<Bound<'a>>
    ensures { option_map bound_data_of result
        ≡ matched pattern (type_data_of s.now) (bound_data_of bound.entry) }
{
    match pattern {
        Pattern::Int => matches!(s, Ty::Int).then_some(bound),
        Pattern::Bool => matches!(s, Ty::Bool).then_some(bound),
        Pattern::Text => matches!(s, Ty::Text).then_some(bound),
        Pattern::Plain => where_fits(is_plain(s), bound, s),
        Pattern::Ordered => where_fits(is_ordered(s), bound, s),
        Pattern::T | Pattern::EachT => bind_t(bound, s),
        Pattern::U => bind_u(bound, s),
        Pattern::PairTU => match s {
            Ty::Pair(a, b) => bind_u(bind_t(bound, a)?, b),
            Ty::Int | Ty::Bool | Ty::Text | Ty::List(_) => None,
        },
        Pattern::ListT => match s {
            Ty::List(item) => bind_t(bound, item),
            Ty::Int | Ty::Bool | Ty::Text | Ty::Pair(_, _) => None,
        },
        Pattern::ListInt => match s {
            Ty::List(item) => matches!(&**item, Ty::Int).then_some(bound),
            Ty::Int | Ty::Bool | Ty::Text | Ty::Pair(_, _) => None,
        },
        Pattern::ListText => match s {
            Ty::List(item) => matches!(&**item, Ty::Text).then_some(bound),
            Ty::Int | Ty::Bool | Ty::Text | Ty::Pair(_, _) => None,
        },
    }
}

/// The letter T bound to a type that passed a test.
fn where_fits<'a>(fits: bool, bound: Bound<'a>, s: &'a Ty) -> Option<Bound<'a>>
    ensures { option_map bound_data_of result
        ≡ (if fits then with_t (bound_data_of bound.entry) (type_data_of s.now) else None) }
{
    if fits { bind_t(bound, s) } else { None }
}

/// Whether `==` compares values of the type.
fn is_plain(s: &Ty) -> bool
    ensures { result ≡ plain (type_data_of s.now) }
{
    matches!(s, Ty::Int | Ty::Bool | Ty::Text)
}

/// Whether `<` compares values of the type.
fn is_ordered(s: &Ty) -> bool
    ensures { result ≡ ordered (type_data_of s.now) }
{
    matches!(s, Ty::Int | Ty::Text)
}

/// The letter T bound to a type.
fn bind_t<'a>(bound: Bound<'a>, s: &'a Ty) -> Option<Bound<'a>>
    ensures { option_map bound_data_of result
        ≡ with_t (bound_data_of bound.entry) (type_data_of s.now) }
{
    Some(Bound {
        t: Some(bind_letter(bound.t, s)?),
        u: bound.u,
    })
}

/// The letter U bound to a type.
fn bind_u<'a>(bound: Bound<'a>, s: &'a Ty) -> Option<Bound<'a>>
    ensures { option_map bound_data_of result
        ≡ with_u (bound_data_of bound.entry) (type_data_of s.now) }
{
    Some(Bound {
        t: bound.t,
        u: Some(bind_letter(bound.u, s)?),
    })
}

/// What a letter stands for: anew, or the same type again.
fn bind_letter<'a>(letter: Option<&'a Ty>, s: &'a Ty) -> Option<&'a Ty>
    ensures { letter_data_of result
        ≡ bound_to (letter_data_of letter.entry) (type_data_of s.now) }
{
    match letter {
        None => Some(s),
        Some(r) => { if is_same_type(r, s) { Some(r) } else { None } }
    }
}

/// The type that a pattern writes.
fn type_given(alloc: Global, pattern: Pattern, bound: Bound<'_>) -> Result<Ty, TypeError>
    ensures { Finds type_data_of result (given pattern (bound_data_of bound.entry)) }
{
    match pattern {
        Pattern::Int => Ok(Ty::Int),
        Pattern::Bool => Ok(Ty::Bool),
        Pattern::Text => Ok(Ty::Text),
        Pattern::Plain | Pattern::Ordered | Pattern::T | Pattern::EachT => {
            letter_type(alloc, bound.t)
        }
        Pattern::U => letter_type(alloc, bound.u),
        Pattern::PairTU => {
            let first = letter_type(alloc, bound.t)?;
            let second = letter_type(alloc, bound.u)?;
            Ok(Ty::Pair(Box::new(alloc, first)?, Box::new(alloc, second)?))
        }
        Pattern::ListT => {
            let item = letter_type(alloc, bound.t)?;
            Ok(Ty::List(Box::new(alloc, item)?))
        }
        Pattern::ListInt => Ok(list_of(alloc, Ty::Int)?),
        Pattern::ListText => Ok(list_of(alloc, Ty::Text)?),
    }
}

/// The type of lists of a type.
fn list_of(alloc: Global, item: Ty) -> Result<Ty, AllocError>
    ensures { IfOk result (λ t. type_data_of t ≡ list_type (type_data_of item)) }
{
    Ok(Ty::List(Box::new(alloc, item)?))
}

/// What a letter stands for, where it stands for something.
fn letter_type(alloc: Global, letter: Option<&Ty>) -> Result<Ty, TypeError>
    ensures { Finds type_data_of result (letter_data_of letter.entry) }
{
    match letter {
        Some(r) => Ok(r.copy(alloc)?),
        None => Err(OrMemory::Fault(IllTyped)),
    }
}
