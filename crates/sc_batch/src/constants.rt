//! Columns of literals and variables.
#![tactic(auto)]

ghost use Rattle.std.specs.Prelude.{◌≡◌, IfOk, Ok};
ghost use Rattle.sc_value.specs.Views.{datum_of};
ghost use Rattle.sc_expr.specs.Meaning.{one_value, variable_value};
ghost use Rattle.sc_lineage.specs.Streams.{each_until_raise};

use sc_columns::Rows;
use sc_expr::{Raise, Variable};
use sc_lineage::Stream;
use sc_value::Value;
use std::alloc::{AllocError, Global};

/// One value at each row.
pub(crate) fn constant(
    alloc: Global,
    value: Value,
    rows: &Rows,
    end: Option<Raise>,
) -> Result<Stream, AllocError>
    ensures { IfOk result (λ s. s ≡ each_until_raise (λ _. Ok (datum_of value)) rows.now end) }
{
    Ok(Stream {
        rows: Rows::repeated(alloc, value, rows.len())?,
        raise: end,
    })
}

/// The value of a variable at each row: `x` is the row, and no other variable has a value there.
pub(crate) fn variable(
    alloc: Global,
    variable: Variable,
    rows: &Rows,
    end: Option<Raise>,
) -> Result<Stream, AllocError>
    ensures { IfOk result (λ s. s
        ≡ each_until_raise (λ d. Ok (variable_value (one_value d) variable)) rows.now end) }
{
    match variable {
        Variable::X => Ok(Stream {
            rows: rows.share()?,
            raise: end,
        }),
        Variable::A => constant(alloc, Value::Bool(false), rows, end),
        Variable::B => constant(alloc, Value::Bool(false), rows, end),
    }
}
