//! Results put together.
#![tactic(auto)]

ghost use Rattle.std.specs.Fmt.{decimal};
ghost use Rattle.std.specs.Prelude.{◌≡◌, ◌^◌, ◌+◌, ◌-◌, ◌<◌, ◌++◌, [], ◌∷◌, List, IfOk, OnOk};
ghost use Rattle.sc_value.specs.Datum.{Datum};
ghost use Rattle.sc_value.specs.Printing.{printed_line};
ghost use Rattle.sc_value.specs.Views.{datum_of};
ghost use Rattle.sc_expr.specs.Views.{expr_data_of};
ghost use Rattle.sc_lineage.specs.Actions.{outcome_of_rows, reduced as reduced_outcome, rows_together};
ghost use Rattle.sc_lineage.specs.ScriptData.{ActionData};
ghost use Rattle.sc_lineage.specs.Views.{action_data_of};
ghost use Rattle.sc_compute.specs.Gathering.{IsGathered, Takes, rows_counted};
ghost use Rattle.sc_compute.specs.Evaluations.{Settles};
ghost use Rattle.sc_compute.specs.Results.{rows_told};

use crate::evaluation::Evaluated;
use crate::results::TaskResult;
use sc_base::OrMemory;
use sc_columns::{Rows, RowsBuilder};
use sc_expr::Expr;
use sc_lineage::{Action, DriverFault};
use sc_ops::fold_rows;
use sc_value::{Octets, Value, print_to};
use std::alloc::{AllocError, Global};

/// What the results of an action give so far.
#[derive(Drop)]
pub enum Gathered<'a> {
    /// The lines of their rows.
    Lines(Vec<u8>),
    /// How many rows they have.
    Count(u128),
    /// Their rows, which the expression is to put together.
    Rows(&'a Expr, RowsBuilder),
    /// Nothing: their rows stand in the parts of a save.
    Saves,
}

impl<'a> Gathered<'a> {
    /// Nothing yet.
    pub fn new(alloc: Global, action: &'a Action) -> Gathered<'a>
        ensures gathered { IsGathered (action_data_of action.now) result [] }
        ensures count { rows_counted result ≡ 0 }
    {
        match action {
            Action::Collect { .. } => Gathered::Lines(Vec::new(alloc)),
            Action::Count { .. } => Gathered::Count(0),
            Action::Reduce { expr, .. } => Gathered::Rows(expr, RowsBuilder::new(alloc)),
            Action::Save { .. } => Gathered::Saves,
        }
    }

    /// Adds a result, which is the first of so many that are left.
    pub fn add(&mut self, alloc: Global, given: &TaskResult, left: u32) -> Result<(), AllocError>
        requires count { rows_counted self.old < 2 ^ 128 - 2 ^ 64 }
        requires takes { Takes self.old given.now }
        ensures gathered { (action : ActionData) (before : List Datum)
            → IsGathered action self.old before
            → OnOk result (IsGathered action self.new (before ++ rows_told given.now)) }
        ensures count { OnOk result (rows_counted self.new < rows_counted self.old + 2 ^ 64) }
    {
        match self {
            Gathered::Lines(bytes) => {
                let rows = given.rows();
                make_room(bytes, rows.printed_len_hint(), left);
                rows.print_lines(bytes)
            }
            Gathered::Count(n) => {
                *n += given.count() as u128;
                Ok(())
            }
            Gathered::Rows(_, all) => all.append(alloc, given.rows()),
            Gathered::Saves => Ok(()),
        }
    }

    /// What the results give, where these are all.
    pub fn outcome(self, alloc: Global) -> Result<Evaluated, AllocError>
        ensures { (action : ActionData) (rows : List (List Datum))
            → IsGathered action self.entry (rows_together rows)
            → IfOk result (Settles (outcome_of_rows action rows)) }
    {
        match self {
            Gathered::Lines(bytes) => Ok(Evaluated::Prints(Octets::new(alloc, bytes)?)),
            Gathered::Count(n) => Ok(Evaluated::Prints(count_line(alloc, n)?)),
            Gathered::Rows(expr, rows) => reduced(alloc, expr, &rows.finish(alloc)?),
            Gathered::Saves => Ok(Evaluated::Saves),
        }
    }
}

/// Makes room for the lines of so many results, each guessed to take so many bytes, where there is
/// no room for one of them. Where there is no memory for that, nothing is lost.
fn make_room(bytes: &mut Vec<u8>, likely_len: usize, results: u32)
    ensures { bytes.new.items ≡ bytes.old.items }
{
    if bytes.capacity() - bytes.len() < likely_len {
        let _ = bytes.reserve(likely_len.saturating_mul(results as usize));
    }
}

/// A number and a line feed.
fn count_line(alloc: Global, n: u128) -> Result<Octets, AllocError>
    ensures { IfOk result (λ o. o ≡ decimal n ++ 10 ∷ []) }
{
    let line = format!(in alloc; "{n}\n")?;
    Octets::new(alloc, line.into_bytes())
}

/// What a fold of the rows of all results gives.
fn reduced(alloc: Global, expr: &Expr, rows: &Rows) -> Result<Evaluated, AllocError>
    ensures { IfOk result (Settles (reduced_outcome (expr_data_of expr.now) rows.now)) }
{
    match fold_rows(alloc, expr, rows) {
        Ok(Some(value)) => Ok(Evaluated::Prints(line(alloc, &value)?)),
        Ok(None) => Ok(Evaluated::Faults(DriverFault::EmptyCollection)),
        Err(error) => match error {
            OrMemory::Fault(raise) => Ok(Evaluated::Faults(DriverFault::Raised(raise))),
            OrMemory::OutOfMemory => Err(AllocError),
        },
    }
}

/// A value and a line feed.
fn line(alloc: Global, value: &Value) -> Result<Octets, AllocError>
    ensures { IfOk result (λ o. o ≡ printed_line (datum_of value.now)) }
{
    let mut bytes = Vec::new(alloc);
    print_to(value, &mut bytes)?;
    bytes.push(b'\n')?;
    Octets::new(alloc, bytes)
}
