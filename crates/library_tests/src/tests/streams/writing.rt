//! Bytes that are all written to a sink, or a front of them.

use super::super::comparing::same;
use io_edge::{MemSink, WriteFault, write_all};
use std::test::Fail;

/// What is written, the room, the call that fails, what writing all answers, and what was taken.
const WRITES: [(&str, usize, u64, Result<(), WriteFault>, &str); 6] = [
    ("", 0, 0, Ok(()), ""),
    ("abcde", 5, 9, Ok(()), "abcde"),
    ("abcde", 9, 3, Ok(()), "abcde"),
    ("abcde", 9, 0, Err(WriteFault), ""),
    ("abcde", 9, 1, Err(WriteFault), "ab"),
    ("abcde", 3, 9, Err(WriteFault), "abc"),
];

#[test]
fn writes_all_or_a_front(rt: HostRuntime) -> Result<(), Fail> {
    for (text, room, fail, want, taken) in WRITES {
        let bytes = Vec::with_capacity(rt.alloc(), room)?;
        let mut sink = MemSink::new(bytes, 2, Vec::from_slice(rt.alloc(), &[fail])?);
        same(&rt, &write_all(&mut sink, text.as_bytes()), &want, &taken);
        same(&rt, &sink.bytes(), &taken.as_bytes(), &taken);
    }
    Ok(())
}
