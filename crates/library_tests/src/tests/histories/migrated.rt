//! Histories that are migrated to version 2.

use super::super::comparing::same;
use reply_text::{migrate_history, read_history, render_history};
use std::test::Fail;

/// Texts, each with what migrating writes.
const MIGRATED: &[(&str, &str)] = &[
    (
        "history 1 run\nheap 1 0 1\nend used 0",
        "history 2 run\nheap 1 0 1 32\nend used 0\n",
    ),
    (
        "history 1 play\nheap 4 8 2\n1 poll = 0\nspace used 11 of 64 spine 0 of 8\nend used 11\n",
        "history 2 play\nheap 4 8 2 32\n1 poll = 0\nspace used 11 of 64 spine 0 of 8\nend used 11\n",
    ),
    (
        "history 2 run\nheap 1 0 1 2\n0 cas 0 1 5 1 = was -\n0 cas 0 1 5 1 = now 0:1\n0 cas 2 1 5 1 = no object\n0 cas 0 2 5 1 = no field\nend used 1",
        "history 2 run\nheap 1 0 1 2\n0 cas 0 1 5 1 = was -\n0 cas 0 1 5 1 = now 0:1\n0 cas 2 1 5 1 = no object\n0 cas 0 2 5 1 = no field\nend used 1\n",
    ),
];

#[test]
fn migrated(rt: HostRuntime) -> Result<(), Fail> {
    for (text, wanted) in MIGRATED {
        let history = read_history(rt.alloc(), text.as_bytes())?;
        let written = render_history(rt.alloc(), &migrate_history(history))?;
        same(&rt, &written.as_slice(), &wanted.as_bytes(), text);
    }
    Ok(())
}
