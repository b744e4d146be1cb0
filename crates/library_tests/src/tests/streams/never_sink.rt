//! A sink that never fails.

use super::super::comparing::same;
use io_edge::{NeverSink, Sink};
use std::test::Fail;

/// A piece, and what is told then.
const PIECES: [(&str, Option<&str>); 5] = [
    ("abc", Some("abc")),
    ("d", Some("abcd")),
    ("", Some("abcd")),
    ("ef", None),
    ("", None),
];

#[test]
fn tells_what_it_took_until_a_piece_does_not_fit(rt: HostRuntime) -> Result<(), Fail> {
    let mut sink = NeverSink::new(Vec::with_capacity(rt.alloc(), 4)?);
    for (piece, told) in PIECES {
        same(&rt, &sink.write(piece.as_bytes()), &Ok(piece.len()), &piece);
        let told = told.map(|text| text.as_bytes());
        same(&rt, &sink.bytes(), &told, &piece);
    }
    Ok(())
}
