//! Readers that give a few bytes at a time or fail.
#![tactic(auto)]

use sc_base::OrMemory;
use sc_input::{CountedReader, ReadFault, read_limited};
use std::io::{self, ErrorKind, Read};
use std::process::Abort;

/// Bytes that are given a few at a time, and of which one read fails; the first has the number 1.
#[derive(Drop)]
struct FewAtOnce<'a> {
    rest: &'a [u8],
    most: usize,
    calls: u64,
    failing: u64,
    kind: ErrorKind,
}

impl Read for FewAtOnce<'_> {
    fn read(&mut self, buf: &mut [u8]) -> io::Result<usize> {
        self.calls = self.calls.saturating_add(1);
        if self.calls == self.failing {
            return Err(io::Error::from(self.kind));
        }
        let rest: &[u8] = self.rest;
        let count = rest.len().min(self.most).min(buf.len());
        buf[..count].copy_from_slice(&rest[..count]);
        self.rest = &rest[count..];
        Ok(count)
    }
}

/// How many bytes are given at once, which read fails and how, how many bytes there may be and how
/// many are awaited, and what reading `abcdef` comes to. Where two are given at once, three reads
/// give bytes, and the fourth the end.
const READS: [(usize, u64, ErrorKind, usize, usize, &[u8]); 20] = [
    (1, 0, ErrorKind::Other, 100, 0, b"abcdef"),
    (2, 0, ErrorKind::Other, 100, 1, b"abcdef"),
    (5, 0, ErrorKind::Other, 100, 6, b"abcdef"),
    (6, 0, ErrorKind::Other, 100, 1000, b"abcdef"),
    (7, 0, ErrorKind::Other, 100, 0, b"abcdef"),
    (4, 0, ErrorKind::Other, 7, 0, b"abcdef"),
    (4, 0, ErrorKind::Other, 6, 0, b"abcdef"),
    (4, 0, ErrorKind::Other, 6, 5, b"abcdef"),
    (4, 0, ErrorKind::Other, 6, 7, b"abcdef"),
    (4, 0, ErrorKind::Other, 5, 0, b"too large"),
    (4, 0, ErrorKind::Other, 5, 6, b"too large"),
    (4, 0, ErrorKind::Other, 5, 7, b"too large"),
    (4, 0, ErrorKind::Other, 0, 0, b"too large"),
    (2, 1, ErrorKind::Interrupted, 100, 6, b"failed"),
    (2, 2, ErrorKind::NotFound, 100, 6, b"failed"),
    (2, 3, ErrorKind::OutOfMemory, 100, 6, b"failed"),
    (2, 4, ErrorKind::PermissionDenied, 100, 6, b"failed"),
    (2, 4, ErrorKind::Interrupted, 100, 6, b"failed"),
    (2, 4, ErrorKind::OutOfMemory, 100, 6, b"failed"),
    (2, 5, ErrorKind::Other, 100, 6, b"abcdef"),
];

/// Sees what reading to the end comes to, in words where it comes to no bytes.
fn assert_reads<R: Abort + AllocGlobal>(
    rt: &R,
    reader: FewAtOnce<'_>,
    limit: usize,
    awaited: usize,
    want: &[u8],
) {
    let read = read_limited(rt.alloc(), &mut CountedReader::new(reader), limit, awaited);
    let bytes = match &read {
        Ok(bytes) => bytes.as_slice(),
        Err(OrMemory::Fault(ReadFault::TooLarge)) => b"too large",
        Err(OrMemory::Fault(ReadFault::Failed)) => b"failed",
        Err(OrMemory::OutOfMemory) => b"out of memory",
    };
    assert!(rt; bytes == want, "{limit} at most, {awaited} awaited");
}

#[test]
fn reads_give_all_bytes_or_tell_why_not(rt: HostRuntime) {
    for (most, failing, kind, limit, awaited, want) in READS {
        let reader = FewAtOnce {
            rest: b"abcdef",
            most,
            calls: 0,
            failing,
            kind,
        };
        assert_reads(&rt, reader, limit, awaited, want);
    }
    // More than one read asks for, and more than is awaited.
    let bytes = vec![in rt.alloc(); 7_u8; 300_000].expect(&rt, "memory");
    let reader = FewAtOnce {
        rest: bytes.as_slice(),
        most: usize::MAX,
        calls: 0,
        failing: 0,
        kind: ErrorKind::Other,
    };
    assert_reads(&rt, reader, 300_000, 1000, bytes.as_slice());
}
