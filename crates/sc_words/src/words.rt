//! The reading of the words.
#![tactic(auto)]

ghost use Rattle.std.specs.Prelude.{◌≡◌, IfOk, map, option_map};
ghost use Rattle.std.specs.String.{string_bytes};
ghost use Rattle.clap.specs.Words.{found_of, kind_of, rows_of};
ghost use Rattle.sc_ids.specs.LimitRanges.{AreLimits};
ghost use Rattle.sc_words.specs.Words.{FindsMatches, ReadsWords, RefusesFor, command_at, flag_at, gen_at, limits_at, number_at, run_at, within, workload_at};

use crate::commands::{Command, Usage, Workload};
use crate::program::program;
use clap::ArgMatches;
use clap::error::{Error, ErrorKind};
use sc_base::OrMemory;
use sc_ids::Limits;
use sc_value::Name;
use std::alloc::{AllocError, Global};

/// What the words of the command line ask for. They come without the program's name.
///
/// # Errors
///
/// `Usage` exactly where `clap` refuses the words by the command line of `specs/Program.antt`, a
/// call for help included.
pub fn read_words(alloc: Global, words: &[String]) -> Result<Command, OrMemory<Usage>>
    ensures command { ReadsWords (map string_bytes words.now) result }
    ensures limits { IfOk result (λ c. AreLimits c.limits) }
{
    let matches = find_matches(alloc, words)?;
    match matches.subcommand() {
        Some((name, found)) => Ok(command_from(alloc, name, found)?),
        None => Err(OrMemory::Fault(Usage)),
    }
}

/// What `clap` finds in the words.
fn find_matches<'a>(alloc: Global, words: &'a [String]) -> Result<ArgMatches<'a>, OrMemory<Usage>>
    ensures { FindsMatches (map string_bytes words.entry.now) result }
{
    let command = program(alloc)?;
    match command.try_get_matches_from(words) {
        Ok(matches) => Ok(matches),
        Err(error) => Err(refusal_of(&error)),
    }
}

/// How a reading is refused where `clap` refuses the words.
fn refusal_of(error: &Error) -> OrMemory<Usage>
    ensures { RefusesFor (kind_of error.now) result }
{
    match error.kind() {
        ErrorKind::OutOfMemory => OrMemory::OutOfMemory,
        _ => OrMemory::Fault(Usage),
    }
}

/// The command of what `clap` found for a subcommand.
fn command_from(alloc: Global, name: &str, found: &ArgMatches<'_>) -> Result<Command, AllocError>
    ensures command { IfOk result
        (λ c. c ≡ command_at (name.now, rows_of (found_of found.now))) }
    ensures limits { IfOk result (λ c. AreLimits c.limits) }
{
    if name == "gen" {
        gen_from(alloc, found)
    } else {
        run_from(alloc, found)
    }
}

/// The command of what `clap` found for `run`.
fn run_from(alloc: Global, run: &ArgMatches<'_>) -> Result<Command, AllocError>
    ensures command { IfOk result (λ c. c ≡ run_at (rows_of (found_of run.now))) }
    ensures limits { IfOk result (λ c. AreLimits c.limits) }
{
    let script = Name::new(alloc, run.get_str("SCRIPT").unwrap_or(""))?;
    let plan = name_from(alloc, run.get_str("plan"))?;
    let limits = limits_from(run);
    Ok(Command {
        script,
        plan,
        limits,
        workload: None,
    })
}

/// The command of what `clap` found for `gen`.
fn gen_from(alloc: Global, found: &ArgMatches<'_>) -> Result<Command, AllocError>
    ensures command { IfOk result (λ c. c ≡ gen_at (rows_of (found_of found.now))) }
    ensures limits { IfOk result (λ c. AreLimits c.limits) }
{
    let script = Name::new(alloc, "gen.spark")?;
    let limits = limits_from(found);
    let workload = workload_from(found);
    Ok(Command {
        script,
        plan: None,
        limits,
        workload: Some(workload),
    })
}

/// The workload that the options of `gen` name.
fn workload_from(found: &ArgMatches<'_>) -> Workload
    ensures { result ≡ workload_at (rows_of (found_of found.now)) }
{
    Workload {
        seed: number_from(found, "seed", 0, 2_147_483_647, 0),
        size: number_from(found, "size", 1, 100_000, 1),
    }
}

/// The name that a text is, where there is one.
fn name_from(alloc: Global, text: Option<&str>) -> Result<Option<Name>, AllocError>
    ensures { IfOk result (λ name. name ≡ option_map (λ t. t.now) text.entry) }
{
    match text {
        Some(text) => Ok(Some(Name::new(alloc, text)?)),
        None => Ok(None),
    }
}

/// The limits that the options set.
fn limits_from(found: &ArgMatches<'_>) -> Limits
    ensures limits { result ≡ limits_at (rows_of (found_of found.now)) }
    ensures ranges { AreLimits result }
{
    let limits = Limits::default();
    Limits {
        executors: number_from(found, "executors", 1, 64, limits.executors),
        task_failures: number_from(found, "task-failures", 1, 16, limits.task_failures),
        stage_attempts: number_from(found, "stage-attempts", 1, 16, limits.stage_attempts),
        cache: number_from(found, "cache", 1, 4096, limits.cache),
        speculation: flag_from(found, "speculation"),
        ..limits
    }
}

/// Whether a flag is given.
fn flag_from(found: &ArgMatches<'_>, flag: &str) -> bool
    ensures { result ≡ flag_at flag.now (rows_of (found_of found.now)) }
{
    found.get_one::<bool>(flag).unwrap_or(false)
}

/// The number that an option has, or `other` where it has none from `least` to `most`.
fn number_from(found: &ArgMatches<'_>, option: &str, least: u32, most: u32, other: u32) -> u32
    ensures { result ≡ number_at option.now least most (rows_of (found_of found.now)) other }
{
    let number = found.get_one::<u32>(option).unwrap_or(other);
    within(least, most, number, other)
}

/// A number where it is from `least` to `most`, or `other`.
fn within(least: u32, most: u32, n: u32, other: u32) -> u32
    ensures { result ≡ within least most n other }
{
    if (least..=most).contains(&n) {
        n
    } else {
        other
    }
}
