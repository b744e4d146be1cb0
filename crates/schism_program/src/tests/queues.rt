//! Queues: what is told of puts and takes, on one seat and on two at once, and what is refused.

use super::comparing::holds;
use super::rows::{Unwritten, Written, writes_each, writes_nothing};
use super::written;
use crate::status::Status;
use script_text::Cause;
use std::alloc::{AllocError, Global};
use std::test::Fail;

/// Words, a queue's text, and what is written of it. Lines stand with "; " between them. Only one seat has commands, so that all is told in their order.
const TOLD: [Written; 6] = [
    // what is taken is what was put, in its order, and a take that finds nothing says so
    (
        "queue",
        "queue 1; heap 2 0 1 32; 0 take; 0 put 5; 0 put 6; 0 take; 0 take; 0 take",
        "queue 1; heap 2 0 1 32; 0 take = empty; 0 put 5 = ok; 0 put 6 = ok; 0 take = 5; 0 take = 6; 0 take = empty; left 0; end used 0",
    ),
    // the board has all fragments of the heap
    (
        "queue",
        "queue 1; heap 1 0 1 47; 0 put 1",
        "queue 1; heap 1 0 1 47; full need 1 found 0",
    ),
    // it leaves one, which the queue's first node takes
    (
        "queue",
        "queue 1; heap 1 0 1 44; 0 put 7; 0 take",
        "queue 1; heap 1 0 1 44; 0 put 7 = full need 1 found 0; 0 take = empty; left 0; end used 0",
    ),
    // it leaves five, and four more values have room behind that node
    (
        "queue",
        "queue 1; heap 1 0 1 32; 0 put 0; 0 put 1073741823; 0 put 2; 0 put 2; 0 put 3",
        "queue 1; heap 1 0 1 32; 0 put 0 = ok; 0 put 1073741823 = ok; 0 put 2 = ok; 0 put 2 = ok; 0 put 3 = full need 1 found 0; left 4; end used 0",
    ),
    // another seat than the first finds the queue that the first one makes
    (
        "queue",
        "queue 1; heap 2 0 3 2; 2 put 9; 2 take; 2 take",
        "queue 1; heap 2 0 3 2; 2 put 9 = ok; 2 take = 9; 2 take = empty; left 0; end used 0",
    ),
    (
        "queue",
        "queue 1; heap 64 16 16 2",
        "queue 1; heap 64 16 16 2; left 0; end used 0",
    ),
];

#[test]
fn tells_each_put_and_take(rt: HostRuntime) -> Result<(), Fail> {
    writes_each(&rt, rt.alloc(), &TOLD)
}

/// Words, a text that is no queue's or words that are none, and the status that comes of it.
const REFUSED: [Unwritten; 19] = [
    (
        "queue",
        "queue 2; heap 2 0 1 32",
        refused!(1, Cause::NoHeader),
    ),
    (
        "queue",
        "crew 1; heap 2 0 1 32",
        refused!(1, Cause::NoHeader),
    ),
    ("queue", "queue 1; heap 2 0 1", refused!(2, Cause::BadHeap)),
    (
        "queue",
        "queue 1; heap 2 0 1 1; 0 take",
        refused!(2, Cause::BadHeap),
    ),
    (
        "queue",
        "queue 1; heap 2 0 1 48",
        refused!(2, Cause::BadHeap),
    ),
    (
        "queue",
        "queue 1; heap 2 0 17 32",
        refused!(2, Cause::BadHeap),
    ),
    (
        "queue",
        "queue 1; heap 2 0 1 32; 1 take",
        refused!(3, Cause::NoSeat),
    ),
    (
        "queue",
        "queue 1; heap 2 0 1 32; c cycle",
        refused!(3, Cause::NoSeat),
    ),
    (
        "queue",
        "queue 1; heap 2 0 2 32; 1 take; 0 poll",
        refused!(4, Cause::NoCommand),
    ),
    (
        "queue",
        "queue 1; heap 2 0 1 32; 0",
        refused!(3, Cause::NoCommand),
    ),
    (
        "queue",
        "queue 1; heap 2 0 1 32; 0 put",
        refused!(3, Cause::BadNumber),
    ),
    (
        "queue",
        "queue 1; heap 2 0 1 32; 0 put 05",
        refused!(3, Cause::BadNumber),
    ),
    (
        "queue",
        "queue 1; heap 2 0 1 32; 0 put 1073741824",
        refused!(3, Cause::OutOfRange),
    ),
    (
        "queue",
        "queue 1; heap 2 0 1 32; 0 put 1 2",
        refused!(3, Cause::TooManyWords),
    ),
    (
        "queue",
        "queue 1; heap 2 0 1 32; 0 take 1",
        refused!(3, Cause::TooManyWords),
    ),
    (
        "queue",
        "queue 1; heap 2 0 1 32; 0 take; 0 take x; 5 take",
        refused!(4, Cause::TooManyWords),
    ),
    ("queue 1", "queue 1; heap 2 0 1 32", Status::Usage),
    ("queue --history", "queue 1; heap 2 0 1 32", Status::Usage),
    (
        "queue --pace steady",
        "queue 1; heap 2 0 1 32",
        Status::Usage,
    ),
];

#[test]
fn refuses_other_texts(rt: HostRuntime) -> Result<(), Fail> {
    writes_nothing(&rt, rt.alloc(), &REFUSED)
}

/// How many numbers one seat puts, and how often another one takes.
const COUNT: u32 = 1_000;

/// The text of a queue whose first seat puts these numbers in their order, while the other takes.
fn passed_on(alloc: Global) -> Result<String, AllocError> {
    let mut text = String::from_str(alloc, "queue 1\nheap 256 0 2 32\n")?;
    for number in 0..COUNT {
        write!(text, "0 put {number}\n1 take\n")?;
    }
    Ok(text)
}

/// What the line says between this front and this end.
fn between<'a>(line: &'a [u8], front: &[u8], end: &[u8]) -> Option<&'a [u8]> {
    line.strip_prefix(front)?.strip_suffix(end)
}

/// What the lines say between this front and this end, in their order.
fn said_between<'a>(
    alloc: Global,
    text: &'a [u8],
    front: &[u8],
    end: &[u8],
) -> Result<Vec<&'a [u8]>, AllocError> {
    let mut said = Vec::new(alloc);
    for line in text.split(|byte| *byte == b'\n') {
        if let Some(between) = between(line, front, end) {
            said.push(between)?;
        }
    }
    Ok(said)
}

/// The numbers among the answers of takes, in their order.
fn numbers_in<'a>(alloc: Global, answers: &[&'a [u8]]) -> Result<Vec<&'a [u8]>, AllocError> {
    let mut numbers = Vec::new(alloc);
    for answer in answers {
        if answer.first().is_some_and(u8::is_ascii_digit) {
            numbers.push(*answer)?;
        }
    }
    Ok(numbers)
}

#[test]
fn takes_in_the_order_of_puts(rt: HostRuntime) -> Result<(), Fail> {
    let alloc = rt.alloc();
    let text = written(&rt, alloc, "queue", passed_on(alloc)?.as_bytes())?;
    let put = said_between(alloc, &text, b"0 put ", b" = ok")?;
    let answers = said_between(alloc, &text, b"1 take = ", b"")?;
    let taken = numbers_in(alloc, &answers)?;
    holds(&rt, answers.len() == COUNT as usize, &"each take is told");
    holds(
        &rt,
        put.starts_with(&taken),
        &"what is taken is what was put",
    );
    let left = put.len().saturating_sub(taken.len());
    let end = format!(in alloc; "\nleft {left}\nend used 0\n")?;
    holds(&rt, text.ends_with(end.as_bytes()), &"the rest is left");
    Ok(())
}
