//! How much is read of a script and of a history, and the largest heap.

use super::comparing::{holds, tells};
use super::several_seats::plays;
use super::{ended, status_of, told, written};
use crate::status::Status;
use io_edge::{MemSink, MemSource};
use script_text::Cause;
use std::alloc::{AllocError, Global};
use std::process::Abort;
use std::sync::Wait;
use std::test::Fail;
use std::thread::Threads;

/// Compares what comes of the words and of this text, 4,096 bytes of which are read at a time.
fn ends(
    rt: &(impl Abort + Threads + Wait + Sync),
    alloc: Global,
    words: &[&str],
    text: Vec<u8>,
    status: Status,
) -> Result<(), AllocError> {
    let at = text.len();
    let mut source = MemSource::new(text, 4096, Vec::new(alloc));
    let mut sink = MemSink::new(Vec::new(alloc), 8, Vec::new(alloc));
    let end = status_of(rt, alloc, words, &mut source, &mut sink)?;
    holds(rt, end == status, &at);
    Ok(())
}

/// Compares what comes of the words and of so many bytes: two lines and blanks.
fn ends_by_blanks(
    rt: &(impl Abort + Threads + Wait + Sync),
    alloc: Global,
    count: usize,
    status: Status,
) -> Result<(), AllocError> {
    let mut text = Vec::from_slice(alloc, b"schism 1\nheap 1 0 1\n")?;
    text.resize(count, b' ')?;
    let told = ended(rt, alloc, &["play"], &text, &[], &[])?;
    tells(rt, &told, status, b"", &count);
    Ok(())
}

#[test]
fn reads_no_more_than_the_limit(rt: HostRuntime) -> Result<(), Fail> {
    let alloc = rt.alloc();
    ends_by_blanks(&rt, alloc, 1_048_576, refused!(3, Cause::NoSeat))?;
    ends_by_blanks(&rt, alloc, 1_048_577, Status::TooLong)?;
    Ok(())
}

/// Words, how many blanks they are given, and what comes of these. What is migrated is read four bytes less of.
const BLANKS: [(&[&str], usize, Status); 6] = [
    (&["check"], 16_777_216, refused!(1, Cause::NoHeader)),
    (&["check"], 16_777_217, Status::TooLong),
    (
        &["migrate", "script"],
        1_048_572,
        refused!(1, Cause::NoHeader),
    ),
    (&["migrate", "script"], 1_048_573, Status::TooLong),
    (
        &["migrate", "history"],
        16_777_212,
        refused!(1, Cause::NoHeader),
    ),
    (&["migrate", "history"], 16_777_213, Status::TooLong),
];

#[test]
fn reads_no_more_blanks_than_the_limit(rt: HostRuntime) -> Result<(), Fail> {
    let alloc = rt.alloc();
    for &(words, count, status) in &BLANKS {
        ends(&rt, alloc, words, vec![in alloc; b' '; count]?, status)?;
    }
    Ok(())
}

// Two lines and 65,535 are one too many.
#[test]
fn reads_no_more_lines_of_a_script_than_the_limit(rt: HostRuntime) -> Result<(), Fail> {
    let alloc = rt.alloc();
    let polls = "0 poll\n".repeat(alloc, 65_535)?;
    let text = ["schism 1\nheap 1 0 1\n", &polls].concat(alloc)?;
    for line in ["play", "run"] {
        let told = told(&rt, alloc, line, text.as_bytes())?;
        tells(
            &rt,
            &told,
            refused!(65_537, Cause::TooManyLines),
            b"",
            &line,
        );
    }
    Ok(())
}

// 4,096 groups of sixteen fragments, of which the board has eleven, 16,384 spine words and sixteen seats. There are 16 leaves, 6 phases, a free and an end.
#[test]
fn plays_on_the_largest_heap(rt: HostRuntime) -> Result<(), Fail> {
    let history =
        "history 1 play; heap 4096 16384 16; space used 11 of 65536 spine 0 of 16384; 0 leave = ok; 1 leave = ok; 2 leave = ok; 3 leave = ok; 4 leave = ok; 5 leave = ok; 6 leave = ok; 7 leave = ok; 8 leave = ok; 9 leave = ok; 10 leave = ok; 11 leave = ok; 12 leave = ok; 13 leave = ok; 14 leave = ok; 15 leave = ok; c phase 1; c phase 2; c phase 3; c phase 4; c phase 5; c frees 11; c phase 6; c ends 0 kept 0; end used 0";
    let script = "schism 1; heap 4096 16384 16";
    plays(&rt, rt.alloc(), &[(script, history, "legal 24")])
}

// A script of as many bytes as may be migrated: 20 of its first two lines, and 19 for each of the others, the last of which lacks its line feed. It gets four bytes more, which is as many as
// a play reads.
#[test]
fn plays_the_longest_script_that_was_migrated(rt: HostRuntime) -> Result<(), Fail> {
    let alloc = rt.alloc();
    let lines = "\n0 num 1 1073741823".repeat(alloc, 55_187)?;
    let text = ["schism 1\nheap 1 0 1", &lines].concat(alloc)?;
    holds(&rt, text.len() == 1_048_572, &"the length");
    let migrated = written(&rt, alloc, "migrate script", text.as_bytes())?;
    holds(&rt, migrated.len() == 1_048_576, &"the length then");
    let told = told(&rt, alloc, "play --brief", &migrated)?;
    let brief =
        b"brief 1\nheap 1 0 1 32\ncommands 55187 refused 0\nmade 0 cycles 1 freed 11 swung 0\nspace used 11 of 16 spine 0 of 0\nend used 0\n";
    tells(&rt, &told, Status::Done, brief, &"the longest script");
    Ok(())
}
