//! A text in halves, and the lines of both.
#![tactic(auto)]

ghost use Rattle.std.specs.Prelude.{◌≡◌, ◌++◌, OnOk, map};
ghost use Rattle.std.specs.List.{All};
ghost use Rattle.sc_lines.specs.Halves.{CanMove, IsCut, moved};

use memchr::memchr;
use sc_value::Span;
use std::alloc::AllocError;

/// Where a text is cut in two: behind the first line feed from its middle on, or at its end.
pub(crate) fn middle(text: &[u8]) -> usize
    ensures { IsCut text.now result }
{
    let half = text.len() / 2;
    match memchr(b'\n', &text[half..]) {
        Some(more) => half + more + 1,
        None => text.len(),
    }
}

/// Adds the spans of a text that stands behind so many bytes. Where memory is wanting some are
/// added.
pub(crate) fn append_moved(spans: &mut Vec<Span>, more: &[Span], by: u32) -> Result<(), AllocError>
    requires { All (CanMove by) more.now }
    ensures { OnOk result (spans.new.items ≡ spans.old.items ++ map (moved by) more.now) }
{
    spans.reserve(more.len())?;
    for span in more {
        spans.push(Span {
            from: by + span.from,
            to: by + span.to,
        })?;
    }
    Ok(())
}
