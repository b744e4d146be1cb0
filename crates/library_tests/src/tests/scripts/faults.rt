//! Scripts that are refused, each by its first fault.

use super::super::comparing::same;
use script_text::{Cause, Form, LineFault, ScriptFault, read_script};
use std::alloc::{AllocError, Global};
use std::process::Abort;
use std::test::Fail;

fn fault_of(alloc: Global, text: &[u8], form: Form) -> Option<LineFault> {
    match read_script(alloc, text, form) {
        Err(ScriptFault::Line(fault)) => Some(fault),
        _ => None,
    }
}

/// Each of these texts has this fault in a play.
fn each_has(rt: &(impl Abort + AllocGlobal), texts: &[&str], wanted: Option<LineFault>) {
    for text in texts {
        let found = fault_of(rt.alloc(), text.as_bytes(), Form::Play);
        same(rt, &found, &wanted, text);
    }
}

const NO_HEADER: &[&str] = &[
    "",
    "\n",
    "schism 3\nheap 4 8 2\n",
    "schism 3\nheap 1 0 1 32\n",
    "schism 2 \nheap 4 8 2 5\n",
    "schism 1 \nheap 4 8 2\n",
    "schism 1\r\nheap 4 8 2\r\n",
    "schism  1\nheap 4 8 2\n",
];

const BAD_HEAP: &[&str] = &[
    "schism 1",
    "schism 1\n",
    "schism 1\n\nheap 4 8 2\n",
    "schism 1\nheap 4 8\n",
    "schism 1\nheap 4 8 2 \n",
    "schism 1\nheap 4 8 2\r\n",
    "schism 1\nheap 04 8 2\n",
    "schism 1\nHeap 4 8 2\n",
    "schism 1\nheap 0 8 2\n",
    "schism 1\nheap 4097 8 2\n",
    "schism 1\nheap 65540 8 2\n",
    "schism 1\nheap 4 16385 2\n",
    "schism 1\nheap 4 8 0\n",
    "schism 1\nheap 4 8 17\n",
    "schism 1\nheap 4 8 257\n",
    "schism 1\nheap 4 8 2 32\n",
    "schism 2\nheap 4 8 2\n",
    "schism 2\nheap 4 8 2 5 5\n",
    "schism 2\nheap 4 8 2 0\n",
    "schism 2\nheap 4 8 2 48\n",
    "schism 2\nheap 4 8 2 05\n",
    "schism 2\nheap 4 8 2 261\n",
    "schism 2\nheap 1 0 17 1\n",
];

const NO_FAULT: &[&str] = &[
    "schism 1\nheap 1 0 1",
    "schism 1\nheap 4096 16384 16\n",
    "schism 2\nheap 1 0 1 1",
    "schism 2\nheap 4096 16384 16 47\n15 cas 15 4096 15 15\n",
];

/// The first of the faults is in line 4.
const LATER_FAULTS: &[&str] = &["schism 1\nheap 4 8 2\n0 poll\n1 nil 16\n9\n"];

#[test]
fn heads(rt: HostRuntime) {
    each_has(&rt, NO_HEADER, Some(Cause::NoHeader.at(1)));
    each_has(&rt, BAD_HEAP, Some(Cause::BadHeap.at(2)));
    each_has(&rt, NO_FAULT, None);
    each_has(&rt, LATER_FAULTS, Some(Cause::OutOfRange.at(4)));
}

/// The fault of a script whose only line after its head, that of version 1 or 2, is this one.
fn fault_of_line(alloc: Global, head: &str, line: &[u8]) -> Result<Option<LineFault>, AllocError> {
    let mut text = Vec::from_slice(alloc, head.as_bytes())?;
    text.extend_from_slice(line)?;
    Ok(fault_of(alloc, &text, Form::Play))
}

const FIRST_HEAD: &str = "schism 1\nheap 4 8 2\n";

const SECOND_HEAD: &str = "schism 2\nheap 4 8 2 5\n";

const NO_SEAT: &[&str] = &[
    "\n",
    " 0 poll\n",
    "2 poll\n",
    "00 poll\n",
    "256 poll\n",
    "seat poll\n",
    "C cycle\n",
    "\0 poll\n",
    "2 bad\n",
];

const NO_COMMAND: &[&str] = &[
    "0",
    "0 \n",
    "0  poll\n",
    "0 polls\n",
    "0 Poll\n",
    "0 poll\r\n",
    "0 poll\0\n",
    "0 leave\n",
    "0 cas 0 1 5 1\n",
    "0 cas\n",
    "0 turns 1\n",
    "0 cycle\n",
    "c\n",
    "c poll\n",
];

const BAD_NUMBER: &[&str] = &[
    "0 new\n",
    "0 new 1\n",
    "0 new  1\n",
    "0 new 01 1\n",
    "0 new 1 1\r\n",
    "0 new one 48\n",
    "0 new +1 1\n",
    "0 nil 1é\n",
    "0 num 1 10000000000\n",
    "0 num 1 18446744073709551616\n",
    "0 get 1 2\n",
    "0 get 1 2 0x1\n",
    "c turns\n",
    "c turns -1\n",
];

const OUT_OF_RANGE: &[&str] = &[
    "0 new 0 1\n",
    "0 new 16 1\n",
    "0 new 16 one\n",
    "0 new 1 0\n",
    "0 new 1 48\n",
    "0 array 1 0\n",
    "0 array 1 4097\n",
    "0 get 0 1 1\n",
    "0 get 1 16 1\n",
    "0 get 1 1 4097\n",
    "0 set 16 1 1\n",
    "0 set 1 4097 1\n",
    "0 set 1 1 16\n",
    "0 num 1 1073741824\n",
    "0 num 1 9999999999\n",
    "0 nil 0\n",
    "0 copy 1 16\n",
    "0 same 16 0\n",
    "0 same 0 16\n",
    "0 len 16\n",
    "c turns 1000001\n",
];

const TOO_MANY_WORDS: &[&str] = &[
    "0 poll \n",
    "0 collect 1\n",
    "0 new 1 1 1\n",
    "0 len 15 \n",
    "c cycle 1\n",
];

#[test]
fn line_faults(rt: HostRuntime) -> Result<(), Fail> {
    for (lines, cause) in [
        (NO_SEAT, Cause::NoSeat),
        (NO_COMMAND, Cause::NoCommand),
        (BAD_NUMBER, Cause::BadNumber),
        (OUT_OF_RANGE, Cause::OutOfRange),
        (TOO_MANY_WORDS, Cause::TooManyWords),
    ] {
        for line in lines {
            let found = fault_of_line(rt.alloc(), FIRST_HEAD, line.as_bytes())?;
            same(&rt, &found, &Some(cause.at(3)), line);
        }
    }
    let found = fault_of_line(rt.alloc(), FIRST_HEAD, b"0 nil \xff\n")?;
    same(
        &rt,
        &found,
        &Some(Cause::BadNumber.at(3)),
        &"a byte that is no text",
    );
    Ok(())
}

/// Lines of version 2, each with the cause of its fault.
const SECOND_FAULTS: &[(&str, Cause)] = &[
    ("2 cas 0 1 5 1\n", Cause::NoSeat),
    ("0 Cas 0 1 5 1\n", Cause::NoCommand),
    ("0 leave\n", Cause::NoCommand),
    ("c cas 0 1 5 1\n", Cause::NoCommand),
    ("0 cas\n", Cause::BadNumber),
    ("0 cas 0 1 5\n", Cause::BadNumber),
    ("0 cas 0 01 5 1\n", Cause::BadNumber),
    ("0 cas 16 1 5 1\n", Cause::OutOfRange),
    ("0 cas 0 4097 5 1\n", Cause::OutOfRange),
    ("0 cas 0 1 16 x\n", Cause::OutOfRange),
    ("0 cas 0 1 16 1\n", Cause::OutOfRange),
    ("0 cas 0 1 5 16\n", Cause::OutOfRange),
    ("0 cas 0 1 5 1 1\n", Cause::TooManyWords),
    ("0 set 0 1 5 1\n", Cause::TooManyWords),
];

#[test]
fn second_version_faults(rt: HostRuntime) -> Result<(), Fail> {
    for (line, cause) in SECOND_FAULTS {
        let found = fault_of_line(rt.alloc(), SECOND_HEAD, line.as_bytes())?;
        same(&rt, &found, &Some(cause.at(3)), line);
    }
    Ok(())
}

#[test]
fn forms(rt: HostRuntime) {
    let text = b"schism 1\nheap 4 8 2\n1 poll\nc cycle\n";
    let play = fault_of(rt.alloc(), text, Form::Play);
    same(&rt, &play, &None, &"a play");
    let run = fault_of(rt.alloc(), text, Form::Run);
    same(&rt, &run, &Some(Cause::NoSeat.at(4)), &"a run");
}

#[test]
fn most_lines(rt: HostRuntime) -> Result<(), Fail> {
    let mut text = Vec::from_slice(rt.alloc(), b"schism 1\nheap 4 8 1\n")?;
    for _ in 0..65_534 {
        text.extend_from_slice(b"0 poll\n")?;
    }
    let script = read_script(rt.alloc(), &text, Form::Play)?;
    same(
        &rt,
        &script.lines.as_slice().len(),
        &65_534,
        &"the most lines",
    );
    text.extend_from_slice(b"x\n")?;
    let found = fault_of(rt.alloc(), &text, Form::Play);
    same(
        &rt,
        &found,
        &Some(Cause::TooManyLines.at(65_537)),
        &"a line more",
    );
    Ok(())
}
