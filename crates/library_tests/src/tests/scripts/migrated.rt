//! Scripts that are migrated to version 2.

use super::script_of;
use crate::tests::comparing::same;
use script_text::{migrate_script, write_script};
use std::test::Fail;

/// Texts, each with what migrating writes.
const MIGRATED: &[(&str, &str)] = &[
    ("schism 1\nheap 1 0 1", "schism 2\nheap 1 0 1 32\n"),
    (
        "schism 1\nheap 4096 16384 16\n15 poll\nc turns 7\n",
        "schism 2\nheap 4096 16384 16 32\n15 poll\nc turns 7\n",
    ),
    (
        "schism 2\nheap 1 0 1 47\n0 cas 15 4096 0 7",
        "schism 2\nheap 1 0 1 47\n0 cas 15 4096 0 7\n",
    ),
    (
        "schism 2\nheap 1 0 1 1\n0 collect\n",
        "schism 2\nheap 1 0 1 1\n0 collect\n",
    ),
];

#[test]
fn migrated(rt: HostRuntime) -> Result<(), Fail> {
    for (text, wanted) in MIGRATED {
        let script = script_of(rt.alloc(), text.as_bytes())?;
        let written = write_script(rt.alloc(), &migrate_script(script))?;
        same(&rt, &written.as_slice(), &wanted.as_bytes(), text);
    }
    Ok(())
}
