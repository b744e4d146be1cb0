//! Texts of queues that are refused, each by its first fault.

use super::super::comparing::same;
use heap_queue::read_queue;
use script_text::{Cause, LineFault, ScriptFault};
use std::alloc::{AllocError, Global};
use std::test::Fail;

fn fault_of(alloc: Global, text: &[u8]) -> Option<LineFault> {
    match read_queue(alloc, text) {
        Err(ScriptFault::Line(fault)) => Some(fault),
        _ => None,
    }
}

/// Texts, each with the line of its fault and the cause, if it has one.
const HEADS: &[(&str, Option<(u32, Cause)>)] = &[
    ("", Some((1, Cause::NoHeader))),
    ("queue 2\nheap 4 8 2 2\n", Some((1, Cause::NoHeader))),
    ("queue 1 \nheap 4 8 2 2\n", Some((1, Cause::NoHeader))),
    ("Queue 1\nheap 4 8 2 2\n", Some((1, Cause::NoHeader))),
    ("schism 2\nheap 4 8 2 2\n", Some((1, Cause::NoHeader))),
    ("queue 1", Some((2, Cause::BadHeap))),
    ("queue 1\nheap 4 8 2\n", Some((2, Cause::BadHeap))),
    ("queue 1\nheap 4 8 2 0\n", Some((2, Cause::BadHeap))),
    ("queue 1\nheap 4 8 2 1\n", Some((2, Cause::BadHeap))),
    ("queue 1\nheap 4 8 2 48\n", Some((2, Cause::BadHeap))),
    ("queue 1\nheap 4 8 17 2\n", Some((2, Cause::BadHeap))),
    ("queue 1\nheap 4 8 2 2 2\n", Some((2, Cause::BadHeap))),
    ("queue 1\nheap 1 0 1 2", None),
    ("queue 1\nheap 4096 16384 16 47\n15 take\n", None),
    (
        "queue 1\nheap 4 8 2 2\n0 take\n1 put 1073741824\n2 take\n",
        Some((4, Cause::OutOfRange)),
    ),
];

#[test]
fn heads(rt: HostRuntime) {
    for (text, wanted) in HEADS {
        let fault = match wanted {
            Some((line, cause)) => Some(cause.at(*line)),
            None => None,
        };
        let found = fault_of(rt.alloc(), text.as_bytes());
        same(&rt, &found, &fault, text);
    }
}

/// The fault of a queue's text whose only line after its head is this one.
fn fault_of_line(alloc: Global, line: &str) -> Result<Option<LineFault>, AllocError> {
    let mut text = Vec::from_slice(alloc, b"queue 1\nheap 4 8 2 2\n")?;
    text.extend_from_slice(line.as_bytes())?;
    Ok(fault_of(alloc, &text))
}

/// Lines, each with the cause of its fault.
const LINES: &[(&str, Cause)] = &[
    ("\n", Cause::NoSeat),
    ("2 take\n", Cause::NoSeat),
    ("00 take\n", Cause::NoSeat),
    ("256 take\n", Cause::NoSeat),
    (" 0 take\n", Cause::NoSeat),
    ("take\n", Cause::NoSeat),
    ("c take\n", Cause::NoSeat),
    ("2 bad\n", Cause::NoSeat),
    ("0\n", Cause::NoCommand),
    ("0  take\n", Cause::NoCommand),
    ("0 Take\n", Cause::NoCommand),
    ("0 takes\n", Cause::NoCommand),
    ("0 poll\n", Cause::NoCommand),
    ("0 new 15 2\n", Cause::NoCommand),
    ("0 put\n", Cause::BadNumber),
    ("0 put \n", Cause::BadNumber),
    ("0 put five\n", Cause::BadNumber),
    ("0 put 05\n", Cause::BadNumber),
    ("0 put -1\n", Cause::BadNumber),
    ("0 put 10000000000\n", Cause::BadNumber),
    ("0 put 1073741824\n", Cause::OutOfRange),
    ("0 put 9999999999\n", Cause::OutOfRange),
    ("0 put 5 6\n", Cause::TooManyWords),
    ("0 put 5 \n", Cause::TooManyWords),
    ("0 take 9\n", Cause::TooManyWords),
    ("0 take \n", Cause::TooManyWords),
];

#[test]
fn line_faults(rt: HostRuntime) -> Result<(), Fail> {
    for (line, cause) in LINES {
        let found = fault_of_line(rt.alloc(), line)?;
        same(&rt, &found, &Some(cause.at(3)), line);
    }
    Ok(())
}
