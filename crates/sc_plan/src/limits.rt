//! The limits of fault plans.
#![tactic(auto)]

/// The most bytes that a plan may have.
pub const PLAN_LIMIT: usize = 65536;

/// The most bytes that a line may have.
pub const LINE_LIMIT: usize = 4096;

/// The most lines that a plan may have, but for those that are skipped.
pub const LINES_LIMIT: usize = 256;

/// The largest number that a line may have.
pub const NUMBER_LIMIT: u32 = 1_000_000;
