//! Which side failed, where a read or a write does, and what comes where none fails.

use super::collects::RESERVE;
use super::comparing::holds;
use super::scripts::CHAIN;
use super::several_seats::text_of;
use super::{FIRST, FIRST_PLAYED, status_of};
use crate::status::Status;
use io_edge::{MemSink, MemSource, NeverSink, NeverSource};
use script_text::Cause;
use std::alloc::{AllocError, Global};
use std::process::Abort;
use std::sync::Wait;
use std::test::Fail;
use std::thread::Threads;

/// Compares what comes of the words in the line and the text, and what is written, where each call of a side moves one byte, and the calls of these numbers fail, one of each side.
fn ends_by_bytes(
    rt: &(impl Abort + Threads + Wait + Sync),
    alloc: Global,
    line: &str,
    text: &str,
    (read, write): (usize, usize),
    end: Status,
    wanted: &[u8],
) -> Result<(), AllocError> {
    let words: Vec<&str> = line.split(' ').collect(alloc)?;
    let text = Vec::from_slice(alloc, text.as_bytes())?;
    let mut source = MemSource::new(text, 1, vec![in alloc; read as u64; 1]?);
    let room = Vec::with_capacity(alloc, 512)?;
    let mut sink = MemSink::new(room, 1, vec![in alloc; write as u64; 1]?);
    let status = status_of(rt, alloc, &words, &mut source, &mut sink)?;
    holds(rt, status == end, &line);
    holds(rt, sink.bytes() == wanted, &line);
    Ok(())
}

/// Lets each call of the words in the line fail in turn, by which it reads the text or writes this; the read that finds the text's end is one of them.
fn fails_at_each_call(
    rt: &(impl Abort + Threads + Wait + Sync),
    alloc: Global,
    line: &str,
    text: &str,
    wanted: &str,
) -> Result<(), Fail> {
    let (reads, all) = (text.len(), wanted.as_bytes());
    for read in 0..=reads {
        let calls = (read, usize::MAX);
        ends_by_bytes(rt, alloc, line, text, calls, Status::ReadFault, b"")?;
    }
    for write in 0..all.len() {
        let front = all.get(..write).ok_or("a front")?;
        let calls = (usize::MAX, write);
        ends_by_bytes(rt, alloc, line, text, calls, Status::WriteFault, front)?;
    }
    let calls = (reads + 1, all.len());
    ends_by_bytes(rt, alloc, line, text, calls, Status::Done, all)?;
    Ok(())
}

#[test]
fn says_which_side_failed(rt: HostRuntime) -> Result<(), Fail> {
    let alloc = rt.alloc();
    let (script, played, _) = CHAIN;
    let (script, played) = (text_of(alloc, script)?, text_of(alloc, played)?);
    fails_at_each_call(&rt, alloc, "play", &script, &played)?;
    let (_, history, _) = RESERVE;
    let history = text_of(alloc, history)?;
    fails_at_each_call(&rt, alloc, "check", &history, "legal 29\n")?;
    let migrated = "schism 2\nheap 1 0 1 32\n0 poll\n";
    fails_at_each_call(
        &rt,
        alloc,
        "migrate script",
        "schism 1\nheap 1 0 1\n0 poll",
        migrated,
    )
}

/// A word, a text, and how much room there is for what is written; the status, and what is told of the text where there is room for it.
type Roomy = (
    &'static str,
    &'static str,
    usize,
    Status,
    Option<&'static str>,
);

const ROOMS: [Roomy; 6] = [
    ("play", FIRST, 276, Status::Done, Some(FIRST_PLAYED)),
    ("play", FIRST, 275, Status::Done, None),
    ("play", "", 0, refused!(1, Cause::NoHeader), Some("")),
    ("check", FIRST_PLAYED, 9, Status::Done, Some("legal 15\n")),
    ("check", FIRST_PLAYED, 8, Status::Done, None),
    ("plays", FIRST, 0, Status::Usage, Some("")),
];

/// Whether this is told, or nothing where it is none.
fn is_told(found: Option<&[u8]>, told: Option<&str>) -> bool {
    match told {
        Some(text) => found == Some(text.as_bytes()),
        None => found.is_none(),
    }
}

/// Compares what comes of a row, and what is told.
fn ends_in_room(
    rt: &(impl Abort + Threads + Wait + Sync),
    alloc: Global,
    &(word, text, room, status, told): &Roomy,
) -> Result<(), AllocError> {
    let mut source = NeverSource::new(Vec::from_slice(alloc, text.as_bytes())?);
    let mut sink = NeverSink::new(Vec::with_capacity(alloc, room)?);
    let end = status_of(rt, alloc, &[word], &mut source, &mut sink)?;
    holds(rt, end == status, &room);
    holds(rt, is_told(sink.bytes(), told), &room);
    Ok(())
}

#[test]
fn ends_as_it_should_where_no_side_fails(rt: HostRuntime) -> Result<(), Fail> {
    for row in &ROOMS {
        ends_in_room(&rt, rt.alloc(), row)?;
    }
    Ok(())
}
