//! How the program is called.
#![tactic(auto)]

use std::alloc::AllocError;

/// The release of the program, the newest of CHANGELOG.md.
const RELEASE: &str = "0.9.0";

/// Writes which release the program is of.
pub(crate) fn write_release(out: &mut String) -> Result<(), AllocError> {
    writeln!(out, "  spark_story of release {RELEASE}")
}

/// How the program is called.
pub fn synopsis() -> &'static str {
    "  spark_story run SCRIPT [--plan FILE] [--executors 1..64] [--task-failures 1..16]
                  [--stage-attempts 1..16] [--cache 1..4096] [--speculation]
                  [--history FILE] [--page FILE] [--progress]
  spark_story gen --seed 0..2147483647 --size 1..100000 [--executors 1..64]
                  [--history FILE] [--page FILE] [--progress]
  spark_story check SCRIPT [--plan FILE] [--executors 1..64]
"
}

/// What the commands and options mean, and what holds where an option isn't given.
pub(crate) fn meanings() -> &'static str {
    "
  run               runs a script, prints what its actions give, and tells what the run did
  gen               runs a script of its own over generated lines
  check             reads a script, and a plan, and runs nothing

  --plan            has what goes wrong in the run: lines fail, late, twice, drop, lose, evict
  --executors       how many threads do tasks (default 2)
  --task-failures   at how many failures of a task its job is aborted (default 4)
  --stage-attempts  the same of failed attempts of a stage (default 4)
  --cache           how many cached partitions an executor keeps (default 64)
  --speculation     lets a slow task have a copy on another executor
  --history         gets the entries of the jobs: what was handed out and reported, in order
  --page            gets the run as a page of HTML
  --progress        shows on a terminal how far the stages are, while it runs
"
}

/// Whether words ask how the program is called.
pub(crate) fn asks_help(words: &[String]) -> bool {
    begins_with_help(words)
        || words
            .iter()
            .any(|word| matches!(word.as_str(), "--help" | "-h"))
}

/// Whether the first word asks for it.
fn begins_with_help(words: &[String]) -> bool {
    match words.first() {
        Some(word) => word.as_str() == "help",
        None => false,
    }
}
