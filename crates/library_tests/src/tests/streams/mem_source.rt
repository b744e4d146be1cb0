//! A source in memory that fails as planned.

use super::super::comparing::same;
use super::counts;
use io_edge::{Failed, MemSource, Source};
use std::test::Fail;

/// What a read answers, what is there then, and how many faults were counted.
const READS: [(Result<usize, Failed>, &str, u64); 6] = [
    (Err(Failed), "---", 1),
    (Ok(2), "ab-", 1),
    (Err(Failed), "ab-", 2),
    (Ok(2), "cd-", 2),
    (Ok(1), "ed-", 2),
    (Ok(0), "ed-", 2),
];

#[test]
fn gives_pieces_and_fails_as_planned(rt: HostRuntime) -> Result<(), Fail> {
    let bytes = Vec::from_slice(rt.alloc(), b"abcde")?;
    let fails = Vec::from_slice(rt.alloc(), &[0, 2])?;
    let mut source = MemSource::new(bytes, 2, fails);
    let mut into = [b'-'; 3];
    for (want, after, faults) in READS {
        same(&rt, &source.read(&mut into), &want, &after);
        same(&rt, &into.as_slice(), &after.as_bytes(), &after);
        counts(&rt, &source, faults)?;
    }
    Ok(())
}
