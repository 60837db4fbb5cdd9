//! Reading to the end, up to a limit.
#![tactic(auto)]

ghost use Rattle.std.specs.Prelude.{◌≡◌};
ghost use Rattle.sc_input.specs.Readers.{ReadsAll, ReadsMore};

use crate::readers::CountedReader;
use sc_base::OrMemory;
use sc_value::Octets;
use std::alloc::Global;
use std::io::Read;

/// Room beside the bytes that are awaited, so that their end is met before memory grows.
const SPARE_ROOM: usize = 64;

/// The most bytes that one read asks for.
const MOST_AT_ONCE: usize = 128 * 1024;

/// Why the bytes of a reader can't be had.
#[derive(Clone, Copy, Debug, Drop, PartialEq, Eq)]
pub enum ReadFault {
    /// There are more of them than the limit.
    TooLarge,
    /// A read failed.
    Failed,
}

/// All bytes of a reader, up to its end, where they are no more than the limit. Memory is taken at
/// once for as many as are awaited.
pub fn read_limited<R: Read + Drop>(
    alloc: Global,
    reader: &mut CountedReader<R>,
    limit: usize,
    awaited: usize,
) -> Result<Octets, OrMemory<ReadFault>>
    ensures { ReadsAll limit reader.old reader.new result }
{
    let room = awaited.min(limit).saturating_add(SPARE_ROOM);
    let mut bytes = Vec::with_capacity(alloc, room)?;
    while bytes.len() <= limit {
        if read_more(reader, &mut bytes)? == 0 {
            return Ok(Octets::new(alloc, bytes)?);
        }
    }
    Err(OrMemory::Fault(ReadFault::TooLarge))
}

/// Puts what one more read gives behind the bytes, and tells how many these were: none only at the
/// end.
fn read_more<R: Read + Drop>(
    reader: &mut CountedReader<R>,
    bytes: &mut Vec<u8>,
) -> Result<usize, OrMemory<ReadFault>>
    ensures { ReadsMore reader.old reader.new bytes.old.items bytes.new.items result }
{
    let len = bytes.len();
    let room = (bytes.capacity() - len).max(SPARE_ROOM).min(MOST_AT_ONCE);
    bytes.resize(len + room, 0)?;
    match reader.read_some(&mut bytes[len..]) {
        Ok(count) => {
            bytes.truncate(len + count);
            Ok(count)
        }
        Err(_) => Err(OrMemory::Fault(ReadFault::Failed)),
    }
}
