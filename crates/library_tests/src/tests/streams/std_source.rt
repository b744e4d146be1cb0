//! A source over a reader of the standard library.

use super::super::comparing::same;
use super::counts;
use io_edge::{Failed, Source, StdSource};
use std::io;
use std::io::Read;
use std::test::Fail;

#[derive(Debug, Drop)]
struct Broken;

impl Read for Broken {
    fn read(&mut self, _into: &mut [u8]) -> io::Result<usize> {
        Err(io::Error::from(io::ErrorKind::Other))
    }
}

/// What a read answers, what is there then, and how many faults were counted.
const READS: [(Result<usize, Failed>, &str, u64); 4] = [
    (Ok(2), "ab", 0),
    (Ok(1), "cb", 0),
    (Err(Failed), "cb", 1),
    (Err(Failed), "cb", 2),
];

#[test]
fn passes_bytes_and_counts_faults(rt: HostRuntime) -> Result<(), Fail> {
    let mut source = StdSource::new(b"abc".as_slice().chain(Broken));
    let mut into = [b'-'; 2];
    for (want, after, faults) in READS {
        same(&rt, &source.read(&mut into), &want, &faults);
        same(&rt, &into.as_slice(), &after.as_bytes(), &faults);
        counts(&rt, &source, faults)?;
    }
    Ok(())
}

#[test]
fn tells_the_end_as_no_fault(rt: HostRuntime) -> Result<(), Fail> {
    let mut source = StdSource::new(b"abc".as_slice());
    let mut into = [b'-'; 2];
    for want in [2, 1, 0, 0] {
        same(&rt, &source.read(&mut into), &Ok(want), &want);
        counts(&rt, &source, 0)?;
    }
    Ok(())
}
