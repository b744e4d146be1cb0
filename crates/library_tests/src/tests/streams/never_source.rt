//! A source that never fails.

use super::super::comparing::same;
use io_edge::{NeverSource, Source};
use std::test::Fail;

#[test]
fn gives_what_fits(rt: HostRuntime) -> Result<(), Fail> {
    let bytes = Vec::from_slice(rt.alloc(), b"abcd")?;
    let mut source = NeverSource::new(bytes);
    let mut into = [b'-'; 3];
    for (want, after) in [(3, "abc"), (1, "dbc"), (0, "dbc")] {
        same(&rt, &source.read(&mut into), &Ok(want), &after);
        same(&rt, &into.as_slice(), &after.as_bytes(), &after);
    }
    Ok(())
}
