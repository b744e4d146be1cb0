//! Tests of what the program makes of words and bytes.

/// A text that is refused at this line, for this cause.
macro_rules! refused {
    ($line:expr, $cause:expr) => {
        Status::Refused { line: $line, cause: $cause }
    };
}

/// A history that isn't legal at this line.
macro_rules! illegal {
    ($line:expr) => {
        Status::NotLegal { line: $line }
    };
}

mod arrays;
mod boards;
mod collects;
mod comparing;
mod copies;
mod crews;
mod cuts;
mod cycles;
mod forms;
mod histories;
mod judged;
mod limits;
mod migrations;
mod queues;
mod rows;
mod runs;
mod scripts;
mod several_seats;
mod sides;
mod statuses;
mod tables;
mod turns;
mod versions;

use crate::status::Status;
use crate::top::schism;
use comparing::holds;
use heap_model::{Gate, OpenGate};
use heap_table::Closed;
use io_edge::{MemSink, MemSource, NeverSink, NeverSource, Sink, Source};
use slack_pace::{Debt, Paces, Steady};
use std::alloc::{AllocError, Global};
use std::process::Abort;
use std::sync::Wait;
use std::thread::Threads;

const FIRST: &str = "schism 1\nheap 1 0 1\n0 new 1 2\n0 num 2 9\n0 set 1 0 2\n0 get 3 1 0\n";

const FIRST_PLAYED: &str =
    "history 1 play\nheap 1 0 1\n0 takes 5\n0 new 1 2 = 0.0\n0 num 2 9 = ok\n0 set 1 0 2 = was -\n0 get 3 1 0 = number 9 at 0:1\nspace used 16 of 16 spine 0 of 0\n0 gives back 4\n0 leave = ok\nc phase 1\nc phase 2\nc phase 3\nc phase 4\nc phase 5\nc frees 12\nc phase 6\nc ends 0 kept 0\nend used 0\n";

// What comes of the words, and the table that is left. The contract of the call is large, so that each place which makes it is dear to prove: this is the only one.
fn ended_with<S: Source, K: Sink, G: Gate>(
    rt: &(impl Threads + Wait + Sync),
    alloc: Global,
    words: &[&str],
    source: &mut S,
    sink: &mut K,
    gate: &G,
    paces: Paces,
    closed: &mut Option<Closed>,
) -> Status {
    schism(rt, alloc, words, source, sink, paces, gate, closed)
}

// The paces of the program.
fn usual(alloc: Global) -> Result<Paces, AllocError> {
    Ok(Paces {
        steady: Box::new(alloc, Steady)?,
        debt: Box::new(alloc, Debt::make(64))?,
    })
}

// What comes of the words at the program's paces, where no seat is held back.
fn status_of<S: Source, K: Sink>(
    rt: &(impl Threads + Wait + Sync),
    alloc: Global,
    words: &[&str],
    source: &mut S,
    sink: &mut K,
) -> Result<Status, AllocError> {
    let paces = usual(alloc)?;
    Ok(ended_with(rt, alloc, words, source, sink, &OpenGate, paces, &mut None))
}

// What comes of it, and what was written; reads give 5 bytes a call and writes take 8.
fn ended(
    rt: &(impl Threads + Wait + Sync),
    alloc: Global,
    words: &[&str],
    text: &[u8],
    source_fails: &[u64],
    sink_fails: &[u64],
) -> Result<(Status, Vec<u8>), AllocError> {
    let text = Vec::from_slice(alloc, text)?;
    let mut source = MemSource::new(text, 5, Vec::from_slice(alloc, source_fails)?);
    let room = Vec::with_capacity(alloc, 8192)?;
    let mut sink = MemSink::new(room, 8, Vec::from_slice(alloc, sink_fails)?);
    let status = status_of(rt, alloc, words, &mut source, &mut sink)?;
    Ok((status, Vec::from_slice(alloc, sink.bytes())?))
}

// What the words in the line make of the text, and what was written, where no side fails; each seat of a run passes the gate.
fn told_at<G: Gate>(
    rt: &(impl Threads + Wait + Sync),
    alloc: Global,
    line: &str,
    text: &[u8],
    gate: &G,
    paces: Paces,
) -> Result<(Status, Vec<u8>), AllocError> {
    let words: Vec<&str> = line.split(' ').collect(alloc)?;
    let source = &mut NeverSource::new(Vec::from_slice(alloc, text)?);
    let sink = &mut NeverSink::new(Vec::with_capacity(alloc, 1_048_576)?);
    let status = ended_with(rt, alloc, &words, source, sink, gate, paces, &mut None);
    Ok((status, Vec::from_slice(alloc, sink.bytes().unwrap_or(&[]))?))
}

// The same at the program's paces, where no seat is held back.
fn told(
    rt: &(impl Threads + Wait + Sync),
    alloc: Global,
    line: &str,
    text: &[u8],
) -> Result<(Status, Vec<u8>), AllocError> {
    told_at(rt, alloc, line, text, &OpenGate, usual(alloc)?)
}

// What was written, where the words in the line are done.
fn when_done(rt: &impl Abort, told: (Status, Vec<u8>), line: &str) -> Vec<u8> {
    let (end, written) = told;
    holds(rt, end == Status::Done, &line);
    written
}

// What the words in the line write, where they are done with the text.
fn written(
    rt: &(impl Abort + Threads + Wait + Sync),
    alloc: Global,
    line: &str,
    text: &[u8],
) -> Result<Vec<u8>, AllocError> {
    Ok(when_done(rt, told(rt, alloc, line, text)?, line))
}
