//! Writing all bytes.
#![tactic(auto)]

ghost use Rattle.sc_sink.specs.Writers.{WritesAll};

use crate::writers::{CountedWriter, WriteFailed};
use std::io::Write;

/// Writes all bytes in order, and flushes them. The first call that fails ends it.
pub fn write_whole<W: Write + Drop>(
    writer: &mut CountedWriter<W>,
    bytes: &[u8],
) -> Result<(), WriteFailed>
    ensures { WritesAll writer.old writer.new bytes.now result }
{
    let mut rest = bytes;
    while !rest.is_empty() {
        let count = writer.write_some(rest)?;
        rest = &rest[count..];
    }
    writer.flush()
}
