//! Crews: what is told of their jobs, what is refused, and that their history is legal.

use super::comparing::holds;
use super::rows::{Unwritten, Written, writes_each, writes_nothing};
use super::written;
use crate::status::Status;
use script_text::Cause;
use std::alloc::{AllocError, Global};
use std::process::Abort;
use std::sync::Wait;
use std::test::Fail;
use std::thread::Threads;

/// Words, a crew's text, and what is written of it. Lines stand with "; " between them. On one seat each job is told whole.
const TOLD: [Written; 4] = [
    // a job finds no object in register 1, since what another made is gone
    (
        "crew",
        "crew 1; heap 1 0 1 32; 0 new 1 2; 1 get 2 1 0; 0 len 1",
        "crew 1; heap 1 0 1 32; job 0 seat 0 said 2 refused 0; job 1 seat 0 said 1 refused 1; end used 0",
    ),
    // jobs are told in the order of their numbers, and a poll of a job is one of its commands
    (
        "crew",
        "crew 1; heap 1 0 1 1; 4095 poll; 7 get 1 0 1; 7 len 9; 4095 poll; 7 cas 0 0 5 0",
        "crew 1; heap 1 0 1 1; job 7 seat 0 said 3 refused 2; job 4095 seat 0 said 2 refused 0; end used 0",
    ),
    // the four refusals: no object, no field, no spine words, and no room on a board that has all fragments
    (
        "crew",
        "crew 1; heap 1 0 1 47; 0 get 1 2 0; 0 get 1 0 47; 0 array 1 4; 0 new 1 1; 0 get 1 0 46",
        "crew 1; heap 1 0 1 47; job 0 seat 0 said 5 refused 4; end used 0",
    ),
    (
        "crew",
        "crew 1; heap 1 0 3 32",
        "crew 1; heap 1 0 3 32; end used 0",
    ),
];

#[test]
fn tells_each_job(rt: HostRuntime) -> Result<(), Fail> {
    writes_each(&rt, rt.alloc(), &TOLD)
}

/// Words, a text, and the status that it ends with.
const ENDED: [Unwritten; 14] = [
    (
        "crew",
        "crew 2; heap 1 0 1 32",
        refused!(1, Cause::NoHeader),
    ),
    (
        "crew",
        "schism 2; heap 1 0 1 32",
        refused!(1, Cause::NoHeader),
    ),
    ("crew", "crew 1; heap 1 0 1", refused!(2, Cause::BadHeap)),
    ("crew", "crew 1; heap 1 0 1 48", refused!(2, Cause::BadHeap)),
    (
        "crew",
        "crew 1; heap 1 0 1 32; 4096 poll",
        refused!(3, Cause::NoSeat),
    ),
    (
        "crew",
        "crew 1; heap 1 0 1 32; c cycle",
        refused!(3, Cause::NoSeat),
    ),
    (
        "crew",
        "crew 1; heap 1 0 1 32; 0 poll; 0 collect",
        refused!(4, Cause::NoCommand),
    ),
    (
        "crew",
        "crew 1; heap 1 0 1 32; 0 leave",
        refused!(3, Cause::NoCommand),
    ),
    (
        "crew",
        "crew 1; heap 1 0 1 32; 0 new 0 1",
        refused!(3, Cause::OutOfRange),
    ),
    (
        "crew",
        "crew 1; heap 1 0 1 32; 0 cas 0 1 5",
        refused!(3, Cause::BadNumber),
    ),
    (
        "crew",
        "crew 1; heap 1 0 1 32; 0 poll 1",
        refused!(3, Cause::TooManyWords),
    ),
    (
        "crew --history --history",
        "crew 1; heap 1 0 1 32",
        Status::Usage,
    ),
    ("crew --brief", "crew 1; heap 1 0 1 32", Status::Usage),
    ("crew --history 0", "crew 1; heap 1 0 1 32", Status::Usage),
];

#[test]
fn refuses_other_texts_and_words(rt: HostRuntime) -> Result<(), Fail> {
    writes_nothing(&rt, rt.alloc(), &ENDED)
}

/// The crew's history is legal.
fn is_legal(
    rt: &(impl Abort + Threads + Wait + Sync),
    alloc: Global,
    text: &str,
) -> Result<(), AllocError> {
    let history = written(rt, alloc, "crew --history", text.as_bytes())?;
    let begins = history.starts_with(b"history 2 run\nheap ");
    holds(rt, begins, &"history");
    let verdict = written(rt, alloc, "check", &history)?;
    holds(rt, verdict.starts_with(b"legal "), &"check");
    Ok(())
}

#[test]
fn tells_a_legal_history(rt: HostRuntime) -> Result<(), Fail> {
    let alloc = rt.alloc();
    let mut text = String::from_str(alloc, "crew 1\nheap 4 0 3 32\n")?;
    for job in 0..200u32 {
        write!(text, "{job} num 1 7\n{job} set 0 0 1\n{job} get 2 0 0\n")?;
    }
    is_legal(&rt, alloc, &text)?;
    is_legal(&rt, alloc, "crew 1\nheap 1 0 2 5\n")?;
    Ok(())
}
