//! The forms of the words after the program's name: plays at a pace, briefs, and scripts that are made.

use super::comparing::tells;
use super::rows::comes;
use super::{FIRST, ended, written};
use crate::status::Status;
use std::alloc::{AllocError, Global};
use std::process::Abort;
use std::sync::Wait;
use std::test::Fail;
use std::thread::Threads;

/// Words, and the status to which they come where the first call of each side would fail: so neither side is touched where it is Usage.
const STATUSES: [(&[&str], Status); 16] = [
    (&[], Status::Usage),
    (&["plays"], Status::Usage),
    (&[" play"], Status::Usage),
    (&["play", "--locked"], Status::Usage),
    (&["play", "--pace", "steady", "--brief"], Status::ReadFault),
    (&["play", "--pace", "debt", "--brief"], Status::ReadFault),
    (&["play", "--pace", "debts"], Status::Usage),
    (&["run", "--locked", "--patience", "1"], Status::ReadFault),
    (&["check"], Status::ReadFault),
    (&["make", "0", "1", "0"], Status::WriteFault),
    (&["make", "0", "17", "0"], Status::Usage),
    (&["migrate"], Status::Usage),
    (&["migrate", "texts"], Status::Usage),
    (&["migrate", "script", "history"], Status::Usage),
    (&["migrate", "script"], Status::ReadFault),
    (&["migrate", "history"], Status::ReadFault),
];

/// Compares what comes of the words where the first call of each side would fail.
fn ends(
    rt: &(impl Abort + Threads + Wait + Sync),
    alloc: Global,
    words: &[&str],
    status: Status,
) -> Result<(), AllocError> {
    let told = ended(rt, alloc, words, FIRST.as_bytes(), &[0], &[0])?;
    let word = words.first().unwrap_or(&"no words");
    tells(rt, &told, status, b"", word);
    Ok(())
}

#[test]
fn says_usage_of_other_words(rt: HostRuntime) -> Result<(), Fail> {
    for &(words, status) in &STATUSES {
        ends(&rt, rt.alloc(), words, status)?;
    }
    Ok(())
}

// The first draws are 16838, which picks a copy, 5758 and 10113 for its registers; 17515 for a set, 31051, 5627 and 23010; 7419
// for another set, 16212, 4086 and 2749; and the fourth round polls.
#[test]
fn makes_a_script_and_plays_it(rt: HostRuntime) -> Result<(), Fail> {
    let alloc = rt.alloc();
    let script = "schism 1\nheap 64 256 1\n0 copy 14 1\n0 set 11 3 2\n0 set 4 6 13\n0 poll\n";
    comes(&rt, alloc, "make 1 1 4", "", Status::Done, script)?;
    let wanted =
        "history 1 play\nheap 64 256 1\n0 copy 14 1 = ok\n0 set 11 3 2 = no object\n0 set 4 6 13 = no object\n0 poll = 0\nspace used 11 of 1024 spine 0 of 256\n0 leave = ok\nc phase 1\nc phase 2\nc phase 3\nc phase 4\nc phase 5\nc frees 11\nc phase 6\nc ends 0 kept 0\nend used 0\n";
    comes(&rt, alloc, "play", script, Status::Done, wanted)?;
    Ok(())
}

// Computed by two other programs that make and play the script.
#[test]
fn plays_a_made_script_at_a_steady_pace(rt: HostRuntime) -> Result<(), Fail> {
    let alloc = rt.alloc();
    let script = written(&rt, alloc, "make 7 4 2000", b"")?;
    let wanted =
        "brief 1\nheap 64 256 4\ncommands 2000 refused 232\nmade 409 cycles 14 freed 1737 swung 195\nspace used 252 of 1024 spine 108 of 256\nend used 0\n";
    let script = str::from_utf8(&script)?;
    for line in ["play --pace steady --brief", "play --brief --pace steady"] {
        comes(&rt, alloc, line, script, Status::Done, wanted)?;
    }
    Ok(())
}

// By the fragments that a line of a seat claimed the pace asks for 16 turns and 8 more for each, up to 4,096. Until all have answered the third phase each slack ends with a turn
// that waits. Marking is 193 turns from there on: 75 for the board's eleven fragments (a look at the group, the words that lead on and what they lead to, the fragment's
// blackening: 6 for the first, 7 for each with a link, 6 for the last), 110 for the sixteen of 1.0 (6, fourteen times 7, 6), three looks at groups with nothing left, three more of
// a pass that finds nothing, the flip, and the fourth phase. Of these 15 are made behind the last poll, where the first of 16 looks at the seat, and 16 behind
// the num. The new of seat 0 claims 5 and 16 fragments: so of 184 turns the 162nd begins the fourth phase, and the next waits. Were it asked with fewer than 19 the phase would
// begin in no slack. What is borne then is black, so nothing is freed before the second cycle.
#[test]
fn plays_at_a_steady_pace(rt: HostRuntime) -> Result<(), Fail> {
    let script =
        "schism 1\nheap 3 0 2\n1 new 1 47\n0 poll\n1 poll\n0 poll\n1 poll\n0 poll\n1 poll\n0 num 2 9\n0 new 1 47\n0 nil 2\n";
    let wanted =
        "history 1 play\nheap 3 0 2\n1 takes 16\n1 new 1 47 = 1.0\nc phase 1\n0 answers 1\n0 poll = 1\n1 answers 1\n1 poll = 1\nc phase 2\n0 answers 2\n0 poll = 2\n1 answers 2\n1 poll = 2\nc phase 3\n0 answers 3\n0 poll = 3\n1 answers 3\n1 poll = 3\n0 num 2 9 = ok\n0 takes 5\n0 takes 16\n0 new 1 47 = 0.0\nc phase 4\n0 nil 2 = ok\nspace used 48 of 48 spine 0 of 0\n0 gives back 5\n0 leave = ok\n1 leave = ok\nc phase 5\nc phase 6\nc ends 0 kept 43\nc phase 8\nc phase 9\nc phase 10\nc phase 11\nc phase 12\nc frees 16\nc frees 16\nc frees 11\nc phase 13\nc ends 1 kept 0\nend used 0\n";
    comes(
        &rt,
        rt.alloc(),
        "play --pace steady",
        script,
        Status::Done,
        wanted,
    )?;
    Ok(())
}

// A debt asks for no turn behind the num, and for 320 behind the new, which claims five fragments: the first of these begins phase 1, and the second waits for the seat. At
// the steady pace phase 1 would begin behind the num.
#[test]
fn plays_at_the_pace_of_a_debt(rt: HostRuntime) -> Result<(), Fail> {
    let script = "schism 1\nheap 1 0 1\n0 num 1 1\n0 new 2 1\n";
    let wanted =
        "history 1 play\nheap 1 0 1\n0 num 1 1 = ok\n0 takes 5\n0 new 2 1 = 0.0\nc phase 1\nspace used 16 of 16 spine 0 of 0\n0 gives back 4\n0 leave = ok\nc phase 2\nc phase 3\nc phase 4\nc phase 5\nc frees 12\nc phase 6\nc ends 0 kept 0\nc phase 8\nc phase 9\nc phase 10\nc phase 11\nc phase 12\nc phase 13\nc ends 1 kept 0\nend used 0\n";
    comes(
        &rt,
        rt.alloc(),
        "play --pace debt",
        script,
        Status::Done,
        wanted,
    )?;
    Ok(())
}
