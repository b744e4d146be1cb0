//! Scripts and histories that are migrated to version 2.

use super::collects::RESERVE;
use super::rows::{Unwritten, Written, comes, writes_nothing};
use super::several_seats::text_of;
use super::{FIRST_PLAYED, written};
use crate::status::Status;
use script_text::Cause;
use std::alloc::Global;
use std::process::Abort;
use std::sync::Wait;
use std::test::Fail;
use std::thread::Threads;

/// Words, a text without the line feed of its last line, and the text in version 2. Lines stand with "; " between them.
const MIGRATED: [Written; 8] = [
    (
        "migrate script",
        "schism 1; heap 1 0 1",
        "schism 2; heap 1 0 1 32",
    ),
    (
        "migrate script",
        "schism 1; heap 4096 16384 16; 15 collect; c turns 7; c cycle",
        "schism 2; heap 4096 16384 16 32; 15 collect; c turns 7; c cycle",
    ),
    (
        "migrate script",
        "schism 2; heap 1 0 1 47; 0 cas 0 46 5 1",
        "schism 2; heap 1 0 1 47; 0 cas 0 46 5 1",
    ),
    (
        "migrate history",
        "history 1 run; heap 1 0 1; end used 11",
        "history 2 run; heap 1 0 1 32; end used 11",
    ),
    (
        "migrate history",
        "history 1 play; heap 4 8 2; 1 poll = 0; c turns 1 = done; space used 11 of 64 spine 0 of 8; end used 11",
        "history 2 play; heap 4 8 2 32; 1 poll = 0; c turns 1 = done; space used 11 of 64 spine 0 of 8; end used 11",
    ),
    (
        "migrate history",
        "history 2 run; heap 1 0 1 2; 0 cas 0 1 5 1 = now 0:1; end used 1",
        "history 2 run; heap 1 0 1 2; 0 cas 0 1 5 1 = now 0:1; end used 1",
    ),
    // What isn't legal is migrated too.
    (
        "migrate history",
        "history 1 run; heap 1 0 1; 0 poll = 7; end used 5",
        "history 2 run; heap 1 0 1 32; 0 poll = 7; end used 5",
    ),
    (
        "migrate history",
        "history 2 run; heap 1 0 1 1; end used 1",
        "history 2 run; heap 1 0 1 1; end used 1",
    ),
];

/// With its last line feed and without it the text of a row is migrated to the same, and that to itself.
fn migrates(
    rt: &(impl Abort + Threads + Wait + Sync),
    alloc: Global,
    &(line, text, wanted): &Written,
) -> Result<(), Fail> {
    let (text, wanted) = (text_of(alloc, text)?, text_of(alloc, wanted)?);
    let without = text.strip_suffix('\n').ok_or("a line feed")?;
    for whole in [text.as_str(), without, wanted.as_str()] {
        comes(rt, alloc, line, whole, Status::Done, &wanted)?;
    }
    Ok(())
}

#[test]
fn migrates_to_version_2(rt: HostRuntime) -> Result<(), Fail> {
    for row in &MIGRATED {
        migrates(&rt, rt.alloc(), row)?;
    }
    Ok(())
}

/// Words, a text that is none of theirs, and the line at which it is refused, for this cause.
const REFUSED: [Unwritten; 7] = [
    (
        "migrate script",
        "history 1 run; heap 1 0 1; end used 11",
        refused!(1, Cause::NoHeader),
    ),
    (
        "migrate history",
        "schism 1; heap 1 0 1",
        refused!(1, Cause::NoHeader),
    ),
    (
        "migrate script",
        "schism 1; heap 1 0 1 32",
        refused!(2, Cause::BadHeap),
    ),
    (
        "migrate script",
        "schism 1; heap 1 0 1; 0 cas 0 1 5 1",
        refused!(3, Cause::NoCommand),
    ),
    (
        "migrate script",
        "schism 1; heap 1 0 1; 1 poll",
        refused!(3, Cause::NoSeat),
    ),
    (
        "migrate history",
        "history 1 run; heap 1 0 1; 0 cas 0 1 5 1 = was -; end used 11",
        refused!(3, Cause::BadEntry),
    ),
    (
        "migrate history",
        "history 1 play; heap 1 0 1; 0 poll = 0",
        refused!(4, Cause::NoEnd),
    ),
];

#[test]
fn refuses_what_is_no_text_of_the_kind(rt: HostRuntime) -> Result<(), Fail> {
    writes_nothing(&rt, rt.alloc(), &REFUSED)
}

/// What a check says of a history it says of that in version 2.
fn checks_both(
    rt: &(impl Abort + Threads + Wait + Sync),
    alloc: Global,
    text: &str,
    status: Status,
    verdict: &str,
) -> Result<(), Fail> {
    let migrated = written(rt, alloc, "migrate history", text.as_bytes())?;
    comes(rt, alloc, "check", text, status, verdict)?;
    comes(
        rt,
        alloc,
        "check",
        str::from_utf8(&migrated)?,
        status,
        verdict,
    )?;
    Ok(())
}

// It is so for the play of one record, for one with a collect, and for that with a wrong line.
#[test]
fn checks_what_was_migrated(rt: HostRuntime) -> Result<(), Fail> {
    let alloc = rt.alloc();
    checks_both(&rt, alloc, FIRST_PLAYED, Status::Done, "legal 15\n")?;
    let reserve = text_of(alloc, RESERVE.1)?;
    checks_both(&rt, alloc, &reserve, Status::Done, "legal 29\n")?;
    let wrong = text_of(
        alloc,
        "history 1 play; heap 1 0 1; 0 takes 5; 0 new 1 2 = 0.1; space used 16 of 16 spine 0 of 0; end used 16",
    )?;
    checks_both(&rt, alloc, &wrong, illegal!(4), "")
}
