//! The options of the command line.
#![tactic(auto)]

/// An option, and the numbers that it takes.
#[derive(Clone, Copy)]
pub(crate) struct Rule {
    /// Whether it takes a number.
    pub(crate) is_number: bool,
    /// The least.
    pub(crate) least: u32,
    /// The most.
    pub(crate) most: u32,
}

/// The options of `run`, of `gen` and of `check`.
const RUN: &str =
    "executors task-failures stage-attempts cache plan speculation history page progress";

pub(crate) const GEN: &str = "seed size executors history page progress";

const CHECK: &str = "executors task-failures stage-attempts cache plan speculation";

/// The options of a command, where a word is one.
pub(crate) fn options_of(command: &str) -> Option<&'static str> {
    match command {
        "run" => Some(RUN),
        "gen" => Some(GEN),
        "check" => Some(CHECK),
        _ => None,
    }
}

/// Whether an option takes nothing.
pub(crate) fn is_flag(name: &str) -> bool {
    matches!(name, "speculation" | "progress")
}

/// What an option takes.
pub(crate) fn rule_of(name: &str) -> Rule {
    match name {
        "executors" => number(1, 64),
        "task-failures" | "stage-attempts" => number(1, 16),
        "cache" => number(1, 4096),
        "seed" => number(0, 2_147_483_647),
        "size" => number(1, 100_000),
        _ => Rule {
            is_number: false,
            least: 0,
            most: 0,
        },
    }
}

/// An option that takes a number.
fn number(least: u32, most: u32) -> Rule {
    Rule {
        is_number: true,
        least,
        most,
    }
}

impl Rule {
    /// Whether it takes a value.
    pub(crate) fn takes(self, value: &str) -> bool {
        if !self.is_number {
            return true;
        }
        match value.parse::<u32>() {
            Ok(n) => self.least <= n && n <= self.most,
            Err(_) => false,
        }
    }
}
