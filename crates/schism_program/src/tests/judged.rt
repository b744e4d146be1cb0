//! Worked histories with their verdicts.

use super::comparing::holds;
use super::ended;
use crate::status::{Status, status_text};
use std::alloc::{AllocError, Global};
use std::process::Abort;
use std::sync::Wait;
use std::test::Fail;
use std::thread::Threads;

mod counts;
mod cycles;
mod lines;
mod objects;
mod replies;
mod runs;

// One seat, 11 of 16 fragments in use. The next line is number 4.
const LONE: &str = "history 1 play\nheap 1 0 1\nspace used 11 of 16 spine 0 of 0\n";

// The same with two seats.
const PAIR: &str = "history 1 play\nheap 1 0 2\nspace used 11 of 16 spine 0 of 0\n";

// One seat, 11 of 32 fragments and 0 of 4 spine words in use. The next line is number 4.
const WIDE: &str = "history 1 play\nheap 2 4 1\nspace used 11 of 32 spine 0 of 4\n";

// One seat, 11 of 16 fragments and 0 of 8 spine words in use. The next line is number 4.
const NARROW: &str = "history 1 play\nheap 1 8 1\nspace used 11 of 16 spine 0 of 8\n";

// No space line yet. The next line is number 3.
const BARE: &str = "history 1 play\nheap 1 0 1\n";

// No space line yet, 16 of 32 fragments and 4 of 4 spine words in use. 2 entries, the next line is number 5.
const FILLED: &str = "history 1 play\nheap 2 4 1\n0 takes 5\n0 array 1 16 = 0.0\n";

// No space line yet, phase 5, 16 of 16 fragments in use, 5 of them the seat's own. 10 entries, the next line is number 13.
const LATE: &str =
    "history 1 play\nheap 1 0 1\n0 takes 5\nc phase 1\n0 answers 1\nc phase 2\n0 answers 2\nc phase 3\n0 answers 3\nc phase 4\n0 answers 4\nc phase 5\n";

// A run of two seats. The next line is number 3.
const RUN: &str = "history 1 run\nheap 1 0 2\n";

// The one seat has left, and nothing is reached in phase 1. Phase 5, 11 fragments in use, 6 entries, the next line is number 10.
const GONE: &str =
    "history 1 play\nheap 1 0 1\nspace used 11 of 16 spine 0 of 0\n0 leave = ok\nc phase 1\nc phase 2\nc phase 3\nc phase 4\nc phase 5\n";

// Two seats in phase 6, which both have answered. Before phase 1 seat 0 replied with 2 fragments left over, and seat 1 took 1 and
// never replied: 14 of 16 are in use. 21 entries, the next line is number 25.
const ENDING: &str =
    "history 1 play\nheap 1 0 2\nspace used 11 of 16 spine 0 of 0\n0 takes 2\n0 nil 1 = ok\n1 takes 1\nc phase 1\n0 answers 1\n1 answers 1\nc phase 2\n0 answers 2\n1 answers 2\nc phase 3\n0 answers 3\n1 answers 3\nc phase 4\n0 answers 4\n1 answers 4\nc phase 5\n0 answers 5\n1 answers 5\nc phase 6\n0 answers 6\n1 answers 6\n";

// Phase 4, answered. Array 0.0 (2 fragments, 1 word) was dropped before phase 1; array 0.1 (3 fragments, 2 words) and record 0.2
// (1 fragment) are held, and 1 fragment is left over: 18 of 32 fragments and 3 of 4 spine words in use. 13 entries, the next line is number 17.
const SPUN: &str =
    "history 1 play\nheap 2 4 1\nspace used 11 of 32 spine 0 of 4\n0 takes 7\n0 array 1 4 = 0.0\n0 array 2 8 = 0.1\n0 new 3 2 = 0.2\n0 nil 1 = ok\nc phase 1\n0 answers 1\nc phase 2\n0 answers 2\nc phase 3\n0 answers 3\nc phase 4\n0 answers 4\n";

// The same after a cycle in which 0.1 swung and 0.0 was freed, in phase 10, answered: 16 fragments and 2 words in use. 28 entries, the next
// line is number 32.
const AGAIN: &str =
    "history 1 play\nheap 2 4 1\nspace used 11 of 32 spine 0 of 4\n0 takes 7\n0 array 1 4 = 0.0\n0 array 2 8 = 0.1\n0 new 3 2 = 0.2\n0 nil 1 = ok\nc phase 1\n0 answers 1\nc phase 2\n0 answers 2\nc phase 3\n0 answers 3\nc phase 4\n0 answers 4\nc swings 0.1\nc phase 5\n0 answers 5\nc frees 2\nc returns 1\nc phase 6\n0 answers 6\nc ends 0 kept 16\n0 answers 7\nc phase 8\n0 answers 8\nc phase 9\n0 answers 9\nc phase 10\n0 answers 10\n";

// The phases of a lone seat's cycle up to the sweep: 10 entries.
const TO_SWEEP: &str =
    "c phase 1\n0 answers 1\nc phase 2\n0 answers 2\nc phase 3\n0 answers 3\nc phase 4\n0 answers 4\nc phase 5\n0 answers 5\n";

// The last phase of that cycle: 2 entries.
const LAST: &str = "c phase 6\n0 answers 6\n";

// A record of one fragment was dropped, and freed by the cycle, whose last phase was answered; the seat has 4 fragments left over.
// 17 entries, the next line is number 20.
const HELD_BACK: &str =
    "history 1 play\nheap 1 0 1\n0 takes 5\n0 new 1 2 = 0.0\n0 new 2 47 = full need 16 found 4\n0 nil 1 = ok\nc phase 1\n0 answers 1\nc phase 2\n0 answers 2\nc phase 3\n0 answers 3\nc phase 4\n0 answers 4\nc phase 5\n0 answers 5\nc frees 1\nc phase 6\n0 answers 6\n";

// The pieces of a case that stand for some lines, and these: how histories begin, and stretches of a cycle.
const STRETCHES: [(&str, &str); 15] = [
    ("lone", LONE),
    ("pair", PAIR),
    ("wide", WIDE),
    ("narrow", NARROW),
    ("bare", BARE),
    ("filled", FILLED),
    ("late", LATE),
    ("run", RUN),
    ("gone", GONE),
    ("ending", ENDING),
    ("spun", SPUN),
    ("again", AGAIN),
    ("to sweep", TO_SWEEP),
    ("last", LAST),
    ("held back", HELD_BACK),
];

// The lines for which a piece of a case stands, if it isn't a line itself.
fn stretch(piece: &str) -> Option<&'static str> {
    for &(name, lines) in &STRETCHES {
        if name == piece {
            return Some(lines);
        }
    }
    None
}

// Puts a piece behind the text: a stretch or a line.
fn add_piece(text: &mut String, piece: &str) -> Result<(), AllocError> {
    if let Some(lines) = stretch(piece) {
        return text.push_str(lines);
    }
    text.push_str(piece)?;
    text.push('\n')
}

// The history of a case: its pieces in order, each a stretch or a line.
fn history_of(alloc: Global, pieces: &str) -> Result<String, AllocError> {
    let mut text = String::new(alloc);
    for piece in pieces.split("; ") {
        add_piece(&mut text, piece)?;
    }
    Ok(text)
}

// A verdict is what is written of a legal history, or what is said of another, of which nothing is written.
fn is_judged(found: &(Status, Vec<u8>), verdict: &str) -> bool {
    let (status, written) = found;
    if *status == Status::Done {
        return written.strip_suffix(b"\n") == Some(verdict.as_bytes());
    }
    status_text(status).as_str() == verdict && written.is_empty()
}

// Compares what the check says of a case with its verdict.
fn judges_case(
    rt: &(impl Abort + Threads + Wait + Sync),
    alloc: Global,
    case: &str,
) -> Result<(), Fail> {
    let (pieces, verdict) = case.split_once(" => ").ok_or("a case has a verdict")?;
    let text = history_of(alloc, pieces)?;
    let found = ended(rt, alloc, &["check"], text.as_bytes(), &[], &[])?;
    holds(rt, is_judged(&found, verdict), &case);
    Ok(())
}

// Compares what the check says of each case with its verdict.
fn judges(
    rt: &(impl Abort + Threads + Wait + Sync),
    alloc: Global,
    cases: &[&str],
) -> Result<(), Fail> {
    for case in cases {
        judges_case(rt, alloc, case)?;
    }
    Ok(())
}

#[test]
fn judges_objects(rt: HostRuntime) -> Result<(), Fail> {
    judges(&rt, rt.alloc(), &objects::CASES)
}

#[test]
fn judges_space_and_phases(rt: HostRuntime) -> Result<(), Fail> {
    judges(&rt, rt.alloc(), &counts::CASES)?;
    judges(&rt, rt.alloc(), &replies::CASES)?;
    judges(&rt, rt.alloc(), &cycles::CASES)
}

#[test]
fn judges_space_lines_and_end_lines(rt: HostRuntime) -> Result<(), Fail> {
    judges(&rt, rt.alloc(), &lines::CASES)
}

#[test]
fn judges_runs_for_objects_and_end_lines_alone(rt: HostRuntime) -> Result<(), Fail> {
    judges(&rt, rt.alloc(), &runs::CASES)
}
