//! Sources and sinks of bytes, and reading and writing all of them.

use super::comparing::holds;
use std::fmt::Debug;
use std::process::Abort;
use std::test::Fail;

mod mem_sink;
mod mem_source;
mod never_sink;
mod never_source;
mod reading;
mod std_sink;
mod std_source;
mod writing;

/// How many faults a source or sink counted, which is the last field that its debug print shows, of it or of what it wraps.
fn counts(rt: &(impl Abort + AllocGlobal), stream: &impl Debug, faults: u64) -> Result<(), Fail> {
    let shown = format!(in rt.alloc(); "{stream:?}")?;
    let end = format!(in rt.alloc(); "faults: {faults} }}")?;
    holds(
        rt,
        shown.trim_end_matches(')').ends_with(end.as_str()),
        &shown,
    );
    Ok(())
}
