//! The command line, as `clap` is told of it.
#![tactic(auto)]

ghost use Rattle.std.specs.Prelude.{◌≡◌, IfOk, None, false, pos};
ghost use Rattle.clap.specs.Words.{app_of, rule_of, with_rule, with_subcommand};
ghost use Rattle.clap.specs.declared.builder.value_parser.ValueParser.TheVariants as parsers;
ghost use Rattle.clap.specs.declared.Command.TheViews.{out-Command as fields_of};
ghost use Rattle.sc_words.specs.Program.{bare_program, flag_rule, gen_app, number_rule, program, required_number_rule, run_app, script_rule, text_rule};

use clap::builder::ValueParser;
use clap::{Arg, ArgAction, Command, value_parser};
use std::alloc::{AllocError, Global};

/// The command line of the program.
pub(crate) fn program<'a>(alloc: Global) -> Result<Command<'a>, AllocError>
    ensures { IfOk result (λ c. app_of c ≡ program) }
{
    let run = run_command(alloc)?;
    let command = with_command(bare_program(alloc), run)?;
    let generate = gen_command(alloc)?;
    with_command(command, generate)
}

/// The command line without its subcommands.
fn bare_program<'a>(alloc: Global) -> Command<'a>
    ensures { app_of result ≡ bare_program }
{
    Command::new(alloc, "spark_run")
        .no_binary_name(true)
        .subcommand_required(true)
}

/// The subcommand `run`.
fn run_command<'a>(alloc: Global) -> Result<Command<'a>, AllocError>
    ensures app { IfOk result (λ c. app_of c ≡ run_app) }
    ensures local { IfOk result (λ c. (fields_of c).has_globals ≡ false) }
{
    let command = Command::new(alloc, "run");
    let command = with_option(command, script_argument(alloc))?;
    let command = with_option(command, number_option(alloc, "executors", 1, 64))?;
    let command = with_option(command, number_option(alloc, "task-failures", 1, 16))?;
    let command = with_option(command, number_option(alloc, "stage-attempts", 1, 16))?;
    let command = with_option(command, number_option(alloc, "cache", 1, 4096))?;
    let command = with_option(command, text_option(alloc, "plan"))?;
    with_option(command, flag_option(alloc, "speculation"))
}

/// The subcommand `gen`.
fn gen_command<'a>(alloc: Global) -> Result<Command<'a>, AllocError>
    ensures app { IfOk result (λ c. app_of c ≡ gen_app) }
    ensures local { IfOk result (λ c. (fields_of c).has_globals ≡ false) }
{
    let command = Command::new(alloc, "gen");
    let command = with_option(command, required_number(alloc, "seed", 0, 2_147_483_647))?;
    let command = with_option(command, required_number(alloc, "size", 1, 100_000))?;
    with_option(command, number_option(alloc, "executors", 1, 64))
}

/// A command with one subcommand more.
fn with_command<'a>(command: Command<'a>, sub: Command<'a>) -> Result<Command<'a>, AllocError>
    requires local { (fields_of sub).has_globals ≡ false }
    ensures { IfOk result
        (λ c. app_of c ≡ with_subcommand (app_of command.entry) (app_of sub.entry).top) }
{
    command.subcommand(sub)
}

/// A command with one option more.
fn with_option<'a>(command: Command<'a>, option: Arg<'a>) -> Result<Command<'a>, AllocError>
    requires own { option.global ≡ false }
    requires local { (fields_of command).has_globals ≡ false }
    ensures app { IfOk result
        (λ c. app_of c ≡ with_rule (app_of command.entry) (rule_of option.entry)) }
    ensures local { IfOk result (λ c. (fields_of c).has_globals ≡ false) }
{
    command.arg(option)
}

/// The name of the script, which has to be there.
fn script_argument<'a>(alloc: Global) -> Arg<'a>
    ensures rule { rule_of result ≡ script_rule }
    ensures own { result.global ≡ false }
{
    Arg::new(alloc, "SCRIPT").required(true)
}

/// An option that takes a whole number from `least` to `most`, and has to be there.
fn required_number<'a>(alloc: Global, name: &'a str, least: u32, most: u32) -> Arg<'a>
    ensures rule { rule_of result ≡ required_number_rule name.entry.now least most }
    ensures own { result.global ≡ false }
{
    number_option(alloc, name, least, most).required(true)
}

/// An option that takes a whole number from `least` to `most`.
fn number_option<'a>(alloc: Global, name: &'a str, least: u32, most: u32) -> Arg<'a>
    ensures rule { rule_of result ≡ number_rule name.entry.now least most }
    ensures own { result.global ≡ false }
{
    text_option(alloc, name).value_parser(numbers(least, most))
}

/// The whole numbers from `least` to `most`, as the values of an option.
fn numbers<'a>(least: u32, most: u32) -> ValueParser<'a>
    ensures { result ≡ parsers.Signed (pos least) (pos most) }
{
    value_parser!(u32).range(i64::from(least)..=i64::from(most))
}

/// An option that takes a text.
fn text_option<'a>(alloc: Global, name: &'a str) -> Arg<'a>
    ensures rule { rule_of result ≡ text_rule name.entry.now }
    ensures own { result.global ≡ false }
    ensures any { result.value_parser ≡ None }
{
    Arg::new(alloc, name).long(name)
}

/// An option that takes nothing: it is given or not.
fn flag_option<'a>(alloc: Global, name: &'a str) -> Arg<'a>
    ensures rule { rule_of result ≡ flag_rule name.entry.now }
    ensures own { result.global ≡ false }
{
    Arg::new(alloc, name).long(name).action(ArgAction::SetTrue)
}
