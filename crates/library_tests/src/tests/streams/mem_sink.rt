//! A sink in memory that fails as planned.

use super::super::comparing::same;
use super::counts;
use io_edge::{Failed, MemSink, Sink};
use std::test::Fail;

/// What a write answers, what the sink has then, and how many faults were counted.
const WRITES: [(Result<usize, Failed>, &str, u64); 5] = [
    (Ok(2), "ab", 0),
    (Err(Failed), "ab", 1),
    (Ok(2), "abab", 1),
    (Ok(1), "ababa", 1),
    (Err(Failed), "ababa", 2),
];

#[test]
fn takes_pieces_and_fails_as_planned(rt: HostRuntime) -> Result<(), Fail> {
    let bytes = Vec::with_capacity(rt.alloc(), 5)?;
    let fails = Vec::from_slice(rt.alloc(), &[1])?;
    let mut sink = MemSink::new(bytes, 2, fails);
    for (want, taken, faults) in WRITES {
        same(&rt, &sink.write(b"abc"), &want, &taken);
        same(&rt, &sink.bytes(), &taken.as_bytes(), &taken);
        counts(&rt, &sink, faults)?;
    }
    Ok(())
}
