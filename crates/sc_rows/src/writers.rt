//! Writers that take a few bytes at a time or fail.
#![tactic(auto)]

use sc_sink::{CountedWriter, write_whole};
use std::io::{self, Write};

/// A writer that takes a few bytes at a time, and of which one call fails; the first has the number
/// 1, and a flush is a call.
#[derive(Drop)]
struct FewAtOnce {
    taken: Vec<u8>,
    most: usize,
    calls: u64,
    failing: u64,
}

impl FewAtOnce {
    /// One more call.
    fn call(&mut self) -> io::Result<()> {
        self.calls = self.calls.saturating_add(1);
        if self.calls == self.failing {
            return Err(io::Error::from(io::ErrorKind::OutOfMemory));
        }
        Ok(())
    }
}

impl Write for FewAtOnce {
    fn write(&mut self, buf: &[u8]) -> io::Result<usize> {
        self.call()?;
        let count = buf.len().min(self.most);
        self.taken.extend_from_slice(&buf[..count])?;
        Ok(count)
    }

    fn flush(&mut self) -> io::Result<()> {
        self.call()
    }
}

/// How many bytes are taken at once, which call fails, whether `abcdef` is written, and what was
/// taken. Where two are taken at once, three writes take bytes, and the fourth call is the flush.
const WRITES: [(usize, u64, bool, &[u8]); 11] = [
    (1, 0, true, b"abcdef"),
    (2, 0, true, b"abcdef"),
    (5, 0, true, b"abcdef"),
    (6, 0, true, b"abcdef"),
    (7, 0, true, b"abcdef"),
    (2, 1, false, b""),
    (2, 2, false, b"ab"),
    (2, 3, false, b"abcd"),
    (2, 4, false, b"abcdef"),
    (2, 5, true, b"abcdef"),
    (0, 0, false, b""),
];

#[test]
fn writes_take_all_bytes_or_tell_that_they_failed(rt: HostRuntime) {
    for (most, failing, is_written, taken) in WRITES {
        let mut writer = FewAtOnce {
            taken: Vec::new(rt.alloc()),
            most,
            calls: 0,
            failing,
        };
        let written = write_whole(&mut CountedWriter::new(&mut writer), b"abcdef");
        assert!(rt;
            written.is_ok() == is_written,
            "{most} at once, failing at {failing}"
        );
        assert!(rt;
            writer.taken.as_slice() == taken,
            "{most} at once, failing at {failing}"
        );
    }
}
