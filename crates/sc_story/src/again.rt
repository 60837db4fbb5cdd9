//! How many tasks were handed out once more, by why.
#![tactic(auto)]

use crate::lasts::Reason;
use std::alloc::AllocError;

/// The reasons, in the order in which they are told.
const REASONS: [Reason; 8] = [
    Reason::Wiped,
    Reason::Lost,
    Reason::Planned,
    Reason::Raised,
    Reason::Device,
    Reason::Denied,
    Reason::Stage,
    Reason::Copy,
];

/// Writes how many tasks were handed out once more, and a line for each reason. Of each task that
/// was handed out `reasons` has why, where it was not the first time.
pub(crate) fn write_again(out: &mut String, reasons: &[Option<Reason>]) -> Result<(), AllocError> {
    let mut total: u64 = 0;
    for reason in REASONS {
        total = total.saturating_add(count_of(reasons, reason));
    }
    if total == 0 {
        return out.push_str("  nothing was computed again\n");
    }
    out.push_str("  ")?;
    write_count(out, total, "task")?;
    out.push_str(" ran again:\n")?;
    for reason in REASONS {
        write_reason(out, count_of(reasons, reason), reason)?;
    }
    Ok(())
}

/// How many tasks were handed out once more for a reason.
fn count_of(reasons: &[Option<Reason>], reason: Reason) -> u64 {
    let mut count: u64 = 0;
    for known in reasons {
        if matches!(known, Some(known) if *known == reason) {
            count = count.saturating_add(1);
        }
    }
    count
}

/// Writes how many tasks ran again for a reason, where there are any.
fn write_reason(out: &mut String, count: u64, reason: Reason) -> Result<(), AllocError> {
    if count == 0 {
        return Ok(());
    }
    let why = reason.words();
    writeln!(out, "    {count} {why}")
}

/// Writes a number of things.
pub(crate) fn write_count(out: &mut String, count: u64, name: &str) -> Result<(), AllocError> {
    write!(out, "{count} {name}")?;
    if count == 1 { Ok(()) } else { out.push('s') }
}
