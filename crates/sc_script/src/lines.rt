//! One line of a script, test by test.
#![tactic(auto)]

ghost use Rattle.std.specs.Prelude.{◌≡◌, map};
ghost use Rattle.sc_base.specs.Answers.{Answers};
ghost use Rattle.sc_script.specs.Defining.{defined_data_of};
ghost use Rattle.sc_script.specs.Faults.{IsAnswer};
ghost use Rattle.sc_script.specs.Lines.{HasForm, ReadsLine, ReadsNext, added_by, checked_action, checked_definition, is_skipped as is_skipped_line};
ghost use Rattle.sc_script.specs.Views.{arg_data_of, args_of, form_data_of};

use crate::defined::Defined;
use crate::faults::{FaultKind, LineError, or_fault};
use crate::fitting::{fits, knows_heads};
use crate::items::{action_of, node_of};
use crate::limits::ACTION_LIMIT;
use crate::tables::{
    ActionName, Operation, action_named, action_takes, operation_named, operation_takes,
};
use crate::tokens::tokens_of;
use crate::trees::{Arg, Form, form_of};
use sc_value::Text;
use std::alloc::Global;

/// Reads a line: skips it, or adds what it states.
///
/// # Errors
///
/// The fault of the first test that the line fails.
pub(crate) fn read_line(alloc: Global, defined: Defined, line: &str) -> Result<Defined, LineError>
    ensures { IsAnswer defined_data_of (ReadsNext (defined_data_of defined) line.now) result }
{
    if is_skipped(line.as_bytes()) {
        Ok(defined)
    } else {
        add_line(alloc, defined, line)
    }
}

/// Whether a line is blank, or its first character after blanks is `#`.
fn is_skipped(line: &[u8]) -> bool
    ensures { result ≡ is_skipped_line line.now }
{
    for byte in line {
        if *byte != b' ' && *byte != b'\t' {
            return *byte == b'#';
        }
    }
    true
}

/// Adds what a line states.
fn add_line(alloc: Global, defined: Defined, line: &str) -> Result<Defined, LineError>
    ensures { IsAnswer defined_data_of (ReadsLine (defined_data_of defined) line.now) result }
{
    let form = form_in(alloc, line)?;
    add_form(alloc, defined, form)
}

/// The form of a line.
///
/// # Errors
///
/// `Limit` where the line passes a limit, else `Syntax` where it has no form.
fn form_in(alloc: Global, line: &str) -> Result<Form, LineError>
    ensures { IsAnswer form_data_of (HasForm line.now) result }
{
    let tokens = tokens_of(alloc, line)?;
    form_of(alloc, tokens)
}

/// Adds what a line of this form states.
fn add_form(alloc: Global, defined: Defined, form: Form) -> Result<Defined, LineError>
    ensures { Answers defined_data_of (λ kind. kind) result
        (added_by (defined_data_of defined) (form_data_of form)) }
{
    match form {
        Form::Definition(name, word, args) => match operation_named(word.as_str()) {
            Some(operation) => add_definition(alloc, defined, name, operation, args),
            None => Err(LineError::Fault(FaultKind::UnknownName)),
        },
        Form::Action(word, args) => match action_named(word.as_str()) {
            Some(action) => add_action(alloc, defined, action, args),
            None => Err(LineError::Fault(FaultKind::UnknownName)),
        },
    }
}

/// Adds a definition, where it passes the tests from that of heads on.
fn add_definition(
    alloc: Global,
    defined: Defined,
    name: Text,
    operation: Operation,
    args: Vec<Arg>,
) -> Result<Defined, LineError>
    ensures { Answers defined_data_of (λ kind. kind) result (checked_definition
        (defined_data_of defined) name operation (args_of (map arg_data_of args.items))) }
{
    if !knows_heads(&args) {
        return Err(LineError::Fault(FaultKind::UnknownName));
    }
    if !fits(operation_takes(operation), &args) {
        return Err(LineError::Fault(FaultKind::Syntax));
    }
    if !defined.fits(operation, &args) {
        return Err(LineError::Fault(FaultKind::Limit));
    }
    if defined.number_of(&name).is_some() {
        return Err(LineError::Fault(FaultKind::Twice));
    }
    match node_of(alloc, &defined, operation, args) {
        Ok(node) => defined.with_node(alloc, name, node),
        Err(error) => Err(or_fault(FaultKind::UnknownName, error)),
    }
}

/// Adds an action, where it passes the tests from that of heads on.
fn add_action(
    alloc: Global,
    defined: Defined,
    action: ActionName,
    args: Vec<Arg>,
) -> Result<Defined, LineError>
    ensures { Answers defined_data_of (λ kind. kind) result (checked_action
        (defined_data_of defined) action (args_of (map arg_data_of args.items))) }
{
    if !knows_heads(&args) {
        return Err(LineError::Fault(FaultKind::UnknownName));
    }
    if !fits(action_takes(action), &args) {
        return Err(LineError::Fault(FaultKind::Syntax));
    }
    if defined.script.actions().len() >= ACTION_LIMIT {
        return Err(LineError::Fault(FaultKind::Limit));
    }
    match action_of(alloc, &defined, action, args) {
        Ok(action) => defined.with_action(alloc, action),
        Err(error) => Err(or_fault(FaultKind::UnknownName, error)),
    }
}
