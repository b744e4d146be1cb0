//! Single lines of histories.

use super::super::comparing::same;
use super::fault_of;
use reply_text::{read_history, render_history};
use script_text::Cause;
use std::alloc::{AllocError, Global};
use std::process::Abort;
use std::test::Fail;

const FIRST_HEAD: &str = "history 1 play\nheap 2 4 2\n";

const SECOND_HEAD: &str = "history 2 play\nheap 2 4 2 5\n";

/// A history of two seats with this head, that of version 1 or 2, and this line as its only entry.
fn around(alloc: Global, head: &str, line: &[u8]) -> Result<Vec<u8>, AllocError> {
    let mut text = Vec::from_slice(alloc, head.as_bytes())?;
    text.extend_from_slice(line)?;
    text.extend_from_slice(b"\nspace used 11 of 32 spine 0 of 4\nend used 18446744073709551615\n")?;
    Ok(text)
}

const LINES: &[&str] = &[
    "0 new 1 2 = 0.0",
    "1 new 15 47 = 15.4294967295",
    "0 new 1 1 = board",
    "0 new 2 47 = full need 16 found 4",
    "0 array 1 16 = 0.0",
    "0 array 1 4096 = full need 4294967295 found 0",
    "0 array 2 1 = spine need 1 used 4",
    "0 get 3 1 46 = number 9 at 0:1",
    "0 get 1 0 31 = nil at -",
    "0 get 1 0 0 = nil at 15:67108863",
    "0 get 2 0 31 = object 0.0 at 0:1",
    "0 get 2 0 0 = object board at 0:2",
    "0 get 2 0 4096 = number 1073741823 at -",
    "0 get 1 0 32 = no field",
    "0 get 1 5 0 = no object",
    "0 set 1 46 2 = was -",
    "0 set 2 0 5 = was 0:1",
    "0 set 1 47 2 = no field",
    "0 set 15 0 0 = no object",
    "0 num 2 9 = ok",
    "0 nil 1 = ok",
    "0 copy 2 0 = ok",
    "0 same 0 2 = yes",
    "0 same 0 3 = no",
    "0 len 0 = 32",
    "0 len 1 = 65535",
    "0 len 5 = no object",
    "0 poll = 0",
    "1 poll = 18446744073709551615",
    "0 collect = cycle 0",
    "0 collect = waits 1 answered 0 phase 1",
    "0 leave = ok",
    "0 takes 5",
    "1 takes 4294967295",
    "0 gives back 4",
    "0 answers 1",
    "c phase 1",
    "c frees 12",
    "c returns 2",
    "c swings 0.1",
    "c swings board",
    "c ends 0 kept 15",
    "c turns 2 = done",
    "c turns 1000000 = waits 0 answered 0 phase 1",
    "c cycle = cycle 18446744073709551615",
    "c cycle = waits 15 answered 4 phase 5",
    "c turns 0 = done",
];

/// Lines of version 2 alone.
const SECOND_LINES: &[&str] = &[
    "0 cas 0 1 5 1 = was -",
    "1 cas 15 4096 0 15 = was 15:67108863",
    "0 cas 0 1 5 1 = now 0:1",
    "0 cas 0 1 5 1 = now -",
    "0 cas 5 0 0 0 = no object",
    "0 cas 0 5 0 0 = no field",
];

/// Reads this line behind this head, and writes what was read.
fn reads(rt: &(impl Abort + AllocGlobal), head: &str, line: &str) -> Result<(), Fail> {
    let text = around(rt.alloc(), head, line.as_bytes())?;
    let history = read_history(rt.alloc(), &text)?;
    same(rt, &history.entries.as_slice().len(), &1, &line);
    let written = render_history(rt.alloc(), &history)?;
    same(rt, &written.as_slice(), &text.as_slice(), &line);
    Ok(())
}

/// Reads and writes each of these lines behind this head.
fn reads_each(rt: &(impl Abort + AllocGlobal), head: &str, lines: &[&str]) -> Result<(), Fail> {
    for line in lines {
        reads(rt, head, line)?;
    }
    Ok(())
}

#[test]
fn each_line(rt: HostRuntime) -> Result<(), Fail> {
    reads_each(&rt, FIRST_HEAD, LINES)?;
    reads_each(&rt, SECOND_HEAD, LINES)?;
    reads_each(&rt, SECOND_HEAD, SECOND_LINES)
}

const BAD_LINES: &[&str] = &[
    "",
    "0",
    "c",
    "2 takes 5",
    "00 takes 5",
    "0 takes",
    "0 takes 05",
    "0 takes 5 ",
    "0 takes  5",
    "0 takes 4294967296",
    "0 takes 5 6",
    "0 gives 4",
    "0 gives back",
    "0 answers 18446744073709551616",
    "c phases 1",
    "c frees 4294967296",
    "c returns",
    "c swings 16.0",
    "c swings 0:1",
    "c swings 0.4294967296",
    "c swings 00.1",
    "c swings 0.0.0",
    "c swings -",
    "c ends 0 keeps 1",
    "0 new 0 2 = 0.0",
    "0 new 1 48 = 0.0",
    "0 new 1 2 : 0.0",
    "0 new 1 2 = 0.0 1",
    "0 new 1 2 3 = 0.0",
    "0 new 1 2 =",
    "0 new 1 2",
    "0 new 1 2 = ok",
    "0 new 1 2 = 0.",
    "0 new 1 2 = spine need 1 used 4",
    "0 new 2 47 = full found 4 need 16",
    "0 array 1 4097 = 0.0",
    "0 get 1 0 0 = nil at 0:0",
    "0 get 1 0 0 = nil at 16:1",
    "0 get 1 0 0 = nil at 0:67108864",
    "0 get 1 0 0 = nil at 0.1",
    "0 get 1 0 0 = nil at 0",
    "0 get 1 0 0 = nil",
    "0 get 1 0 0 = number 1073741824 at -",
    "0 get 1 0 0 = was -",
    "0 set 1 0 2 = nil at -",
    "0 set 1 0 2 = was 0:01",
    "0 num 1 1073741824 = ok",
    "0 num 1 1 = done",
    "0 same 0 1 = ok",
    "0 len 0 = 65536",
    "0 len 0 = no field",
    "0 poll = 01",
    "0 collect = done",
    "0 collect = waits 16 answered 0 phase 1",
    "0 leave = no",
    "0 leave",
    "c turns 1000001 = done",
    "c turns 1 = cycle 0",
    "c cycle = done",
    "end used 0",
    "space used 11 of 32 spine 0 of",
    "space used 11 of 32 spine 0 of 04",
];

/// Lines that version 2 hasn't either.
const BAD_SECOND_LINES: &[&str] = &[
    "0 cas 16 1 5 1 = was -",
    "0 cas 0 4097 5 1 = was -",
    "0 cas 0 1 5 = was -",
    "0 cas 0 1 5 1 1 = was -",
    "0 cas 0 1 5 1",
    "0 cas 0 1 5 1 = ok",
    "0 cas 0 1 5 1 = now",
    "0 cas 0 1 5 1 = now 0:0",
    "0 cas 0 1 5 1 = now 0:1 1",
    "0 set 0 1 5 = now 0:1",
    "2 cas 0 1 5 1 = was -",
];

/// Refuses this line behind this head.
fn refuses(rt: &(impl Abort + AllocGlobal), head: &str, line: &str) -> Result<(), Fail> {
    let text = around(rt.alloc(), head, line.as_bytes())?;
    let found = fault_of(rt.alloc(), &text);
    same(rt, &found, &Some(Cause::BadEntry.at(3)), &line);
    Ok(())
}

/// Refuses each of these lines behind this head.
fn refuses_each(rt: &(impl Abort + AllocGlobal), head: &str, lines: &[&str]) -> Result<(), Fail> {
    for line in lines {
        refuses(rt, head, line)?;
    }
    Ok(())
}

#[test]
fn bad_lines(rt: HostRuntime) -> Result<(), Fail> {
    refuses_each(&rt, FIRST_HEAD, BAD_LINES)?;
    refuses_each(&rt, SECOND_HEAD, BAD_LINES)?;
    refuses_each(&rt, FIRST_HEAD, SECOND_LINES)?;
    refuses_each(&rt, SECOND_HEAD, BAD_SECOND_LINES)
}
