//! A sink over a writer of the standard library.

use super::super::comparing::same;
use super::counts;
use io_edge::{Failed, Sink, StdSink};
use std::io;
use std::io::Write;
use std::test::Fail;

#[derive(Debug, Drop)]
struct Broken;

impl Write for Broken {
    fn write(&mut self, _piece: &[u8]) -> io::Result<usize> {
        Err(io::Error::from(io::ErrorKind::Other))
    }

    fn flush(&mut self) -> io::Result<()> {
        Ok(())
    }
}

/// A piece, what writing it answers, and how many faults were counted then.
const PIECES: [(&str, Result<usize, Failed>, u64); 5] = [
    ("ab", Ok(2), 0),
    ("cd", Ok(1), 0),
    ("d", Err(Failed), 1),
    ("", Ok(0), 1),
    ("e", Err(Failed), 2),
];

#[test]
fn counts_a_full_writer(rt: HostRuntime) -> Result<(), Fail> {
    let mut page = [b'-'; 3];
    let mut sink = StdSink::new(page.as_mut_slice());
    for (piece, want, faults) in PIECES {
        same(&rt, &sink.write(piece.as_bytes()), &want, &piece);
        counts(&rt, &sink, faults)?;
    }
    same(&rt, &page.as_slice(), &b"abc".as_slice(), &"the page");
    Ok(())
}

#[test]
fn counts_a_broken_writer(rt: HostRuntime) -> Result<(), Fail> {
    let mut sink = StdSink::new(Broken);
    for faults in [1, 2] {
        same(&rt, &sink.write(b"a"), &Err(Failed), &faults);
        counts(&rt, &sink, faults)?;
    }
    Ok(())
}
