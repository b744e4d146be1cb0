//! Histories that are refused, each by its first fault.

use super::super::comparing::same;
use super::fault_of;
use script_text::{Cause, LineFault};
use std::process::Abort;
use std::test::Fail;

/// Each of these texts has this fault.
fn each_has(rt: &(impl Abort + AllocGlobal), texts: &[&str], wanted: Option<LineFault>) {
    for text in texts {
        let found = fault_of(rt.alloc(), text.as_bytes());
        same(rt, &found, &wanted, text);
    }
}

const NO_HEADER: &[&str] = &[
    "",
    "\nhistory 1 play\n",
    "schism 1\nheap 1 0 1\n",
    "history 1 play \nheap 1 0 1\n",
    "history 3 run\nheap 1 0 1 5\n",
    "history 2\nheap 1 0 1 5\n",
];

const BAD_HEAP: &[&str] = &[
    "history 1 play",
    "history 1 run\n",
    "history 1 run\nheap 1 0 17\nend used 0\n",
    "history 1 run\nheap 1 0 1 32\nend used 0\n",
    "history 2 run\nheap 1 0 1\nend used 0\n",
    "history 2 play\nheap 1 0 1 48\n",
    "history 2 play\nheap 1 0 1\n",
    "history 2 run\nheap 1 0 1 48\n",
];

const NO_THIRD_LINE: &[&str] = &["history 1 play\nheap 1 0 1\n"];

const NO_FOURTH_LINE: &[&str] = &[
    "history 1 run\nheap 1 0 1\n0 takes 5",
    "history 2 run\nheap 1 0 1 2\n0 cas 0 1 5 1 = now 0:1\n",
    "history 1 play\nheap 1 0 1\nspace used 1 of 2 spine 3 of 4\n",
];

const BAD_THIRD_LINE: &[&str] = &[
    "history 1 play\nheap 1 0 1\nend used 0\n",
    "history 1 run\nheap 1 0 1\nspace used 1 of 2 spine 3 of 4\nend used 0\n",
    "history 1 run\nheap 1 0 1\nc turns 1 = done\nend used 0\n",
    "history 1 run\nheap 1 0 1\nc cycle = cycle 0\nend used 0\n",
    "history 1 run\nheap 1 0 1\n0 cas 0 1 5 1 = was -\nend used 0\n",
    "history 2 run\nheap 1 0 1 5\nc cycle = cycle 0\nend used 0\n",
    "history 2 run\nheap 1 0 1 2\n0 cas 0 1 5 1 = ok\n",
    "history 2 run\nheap 1 0 1 2\n0 cas 0 1 5 = was -\n",
    "history 2 run\nheap 1 0 1 2\n0 cas 0 1 16 1 = was -\n",
    "history 2 run\nheap 1 0 1 2\n0 set 0 1 5 = now -\n",
];

const BAD_FOURTH_LINE: &[&str] = &[
    "history 1 play\nheap 1 0 1\nspace used 1 of 2 spine 3 of 4\n\
        space used 1 of 2 spine 3 of 4\nend used 0\n",
    "history 1 run\nheap 1 0 1\nend used 0\nend used 0\n",
    "history 1 run\nheap 1 0 1\nend used 0\n\n",
];

const BAD_FIFTH_LINE: &[&str] = &["history 1 run\nheap 1 0 1\n0 takes 5\nend used 0\n0 takes 5\n"];

const NO_FAULT: &[&str] = &[
    "history 1 run\nheap 1 0 1\nend used 0",
    "history 1 run\nheap 4096 16384 16\n15 poll = 0\nend used 0\n",
    "history 1 play\nheap 1 0 1\nspace used 1 of 2 spine 3 of 4\nend used 0\n",
    "history 2 run\nheap 1 0 1 1\nend used 0",
    "history 2 run\nheap 4096 16384 16 47\n15 cas 15 4096 15 15 = now -\nend used 0\n",
];

#[test]
fn faults(rt: HostRuntime) {
    each_has(&rt, NO_HEADER, Some(Cause::NoHeader.at(1)));
    each_has(&rt, BAD_HEAP, Some(Cause::BadHeap.at(2)));
    each_has(&rt, NO_THIRD_LINE, Some(Cause::NoEnd.at(3)));
    each_has(&rt, NO_FOURTH_LINE, Some(Cause::NoEnd.at(4)));
    each_has(&rt, BAD_THIRD_LINE, Some(Cause::BadEntry.at(3)));
    each_has(&rt, BAD_FOURTH_LINE, Some(Cause::BadEntry.at(4)));
    each_has(&rt, BAD_FIFTH_LINE, Some(Cause::BadEntry.at(5)));
    each_has(&rt, NO_FAULT, None);
}

#[test]
fn most_lines(rt: HostRuntime) -> Result<(), Fail> {
    let mut text = Vec::from_slice(rt.alloc(), b"history 1 run\nheap 1 0 1\n")?;
    for _ in 0..3_999_996 {
        text.extend_from_slice(b"c phase 1\n")?;
    }
    for (tail, cause) in [
        ("c phase 1\nc phase 1\n", Cause::HistoryLines),
        ("c phase 1\nend used 0\n", Cause::HistoryLines),
        ("c phase 1\nc phase 01\n", Cause::BadEntry),
    ] {
        let len = text.len();
        text.extend_from_slice(tail.as_bytes())?;
        let found = fault_of(rt.alloc(), &text);
        same(&rt, &found, &Some(cause.at(4_000_000)), &tail);
        text.truncate(len);
    }
    Ok(())
}
