//! Sources that are read to their end, or to a limit.

use super::super::comparing::{holds, same};
use io_edge::{MemSource, NeverSource, ReadAllFault, Source, read_all};
use std::alloc::{AllocError, Global};
use std::test::Fail;

/// Gives two bytes a call, and fails at one call.
fn source(alloc: Global, text: &str, fail: u64) -> Result<MemSource, AllocError> {
    let bytes = Vec::from_slice(alloc, text.as_bytes())?;
    let fails = Vec::from_slice(alloc, &[fail])?;
    Ok(MemSource::new(bytes, 2, fails))
}

/// What the source has, the limit, the call that fails, what reading all gives, and what the next read gives.
const ENDS: [(&str, usize, u64, Result<&str, ReadAllFault>, &str); 8] = [
    ("", 0, 9, Ok(""), ""),
    ("abc", 3, 9, Ok("abc"), ""),
    ("abc", 8, 9, Ok("abc"), ""),
    ("abc", usize::MAX, 9, Ok("abc"), ""),
    ("abc", 0, 9, Err(ReadAllFault::TooLong), "bc"),
    ("abcde", 3, 9, Err(ReadAllFault::TooLong), "e"),
    ("abcde", 8, 0, Err(ReadAllFault::ReadFault), "ab"),
    ("abcde", 8, 1, Err(ReadAllFault::ReadFault), "cd"),
];

// The last column is what the next read gives.
#[test]
fn reads_to_the_end_or_the_limit(rt: HostRuntime) -> Result<(), Fail> {
    for (text, limit, fail, want, next) in ENDS {
        let mut source = source(rt.alloc(), text, fail)?;
        match (read_all(rt.alloc(), &mut source, limit), want) {
            (Ok(bytes), Ok(text)) => same(&rt, &bytes.as_slice(), &text.as_bytes(), &limit),
            (Err(fault), Err(want)) => same(&rt, &fault, &want, &limit),
            _ => holds(&rt, false, &limit),
        }
        let mut piece = [0; 2];
        let n = source.read(&mut piece)?;
        same(&rt, &&piece[..n], &next.as_bytes(), &limit);
    }
    Ok(())
}

// Two pieces of 4,096 bytes, and a byte.
#[test]
fn reads_more_than_a_piece(rt: HostRuntime) -> Result<(), Fail> {
    let text = vec![in rt.alloc(); b'a'; 8193]?;
    let mut source = NeverSource::new(text);
    let bytes = read_all(rt.alloc(), &mut source, 8193)?;
    same(&rt, &bytes.len(), &8193, &"as many as the limit");
    let mut source = NeverSource::new(bytes);
    let short = read_all(rt.alloc(), &mut source, 8192);
    same(
        &rt,
        &short.err(),
        &Some(ReadAllFault::TooLong),
        &"one more than the limit",
    );
    Ok(())
}
