//! The marking of the collector, step by step.

use super::trial::tries;
use std::test::Fail;

/// Two groups, and what leads from one to the other and back: the board's field 0 to the fragment 16, an object of seat 1,
/// and that one's field 0 to the fragment 11, an object of seat 0. No register holds either, so the board's head alone is
/// grey as marking begins. A control word has scanned, marked, born and taken bits, from the left.
///
/// The first pass scans the board, of which each fragment but the last leads to the next one, and the fragment 16, and so
/// makes the fragment 11 grey, whose group it has passed. That one is scanned by the second pass. The third finds nothing,
/// and the next phase begins.
const THERE_AND_BACK: &[&str] = &[
    "0 new 1 2 => 0 takes 5; 0 new 1 2 = 0.0",
    "0 set 0 1 1 => 0 set 0 1 1 = was -",
    "0 nil 1 => 0 nil 1 = ok",
    "1 new 1 2 => 1 takes 16; 1 new 1 2 = 1.0",
    "1 get 2 0 1 => 1 get 2 0 1 = object 0.0 at 0:1",
    "1 set 1 0 2 => 1 set 1 0 2 = was -",
    "1 set 0 0 1 => 1 set 0 0 1 = was -",
    "1 nil 2 => 1 nil 2 = ok",
    "1 set 0 1 2 => 1 set 0 1 2 = was 0:1",
    "1 nil 1 => 1 nil 1 = ok",
    "two phases of a pair",
    "c steps 3 => advance 3 found 2; c phase 3",
    "0 poll => 0 answers 3; 0 poll = 3",
    "1 poll => 1 answers 3; 1 poll = 3",
    "c steps 2 => look 1 found 3",
    "c step => group 0 found 10fffffff",
    "c step => scan 0.0 found c000002000000001",
    "c step => mark 1 found 10fffffff",
    "c step => scan 0.2 found 8000001008000002",
    "c step => mark 16 found 1ffff",
    "c step => scan 0.3 found 8000003",
    "c step => blacken 0 found 30fffffff",
    "c step => group 0 found 100030fffffff",
    "c step => scan 1.0 found 8000000200000000",
    "c step => mark 2 found 100030fffffff",
    "c step => scan 1.1 found 0",
    "c step => scan 1.2 found 0",
    "c step => scan 1.3 found 0",
    "c step => blacken 1 found 100070fffffff",
    "c step => group 0 found 300070fffffff",
    "c steps 56 => group 0 found 3ff07ff0fffffff",
    "c step => scan 10.0 found 0",
    "c step => scan 10.1 found 0",
    "c step => scan 10.2 found 0",
    "c step => scan 10.3 found 0",
    "c step => blacken 10 found 3ff07ff0fffffff",
    "c step => group 0 found 7ff07ff0fffffff",
    "c step => group 1 found 10001ffff",
    "c step => scan 16.0 found c000000200000000",
    "c step => scan 16.2 found 8000000b08000001",
    "c step => mark 11 found 7ff07ff0fffffff",
    "c step => scan 16.3 found 0",
    "c step => blacken 16 found 10001ffff",
    "c step => group 1 found 100010001ffff",
    "c step => group 0 found 7ff0fff0fffffff",
    "c step => scan 11.0 found c000000200000000",
    "c step => scan 11.2 found 0",
    "c step => scan 11.3 found 0",
    "c step => blacken 11 found 7ff0fff0fffffff",
    "c step => group 0 found fff0fff0fffffff",
    "c step => group 1 found 100010001ffff",
    "c step => group 0 found fff0fff0fffffff",
    "c step => group 1 found 100010001ffff",
    "c step => flip 1 found c000000000000000",
    "c step => advance 4 found 3; c phase 4",
    "control 0 => fff0fff0fffffff at 19",
    "control 1 => 100010001ffff at 20",
    "phase => 4",
];

#[test]
fn marks_there_and_back(rt: HostRuntime) -> Result<(), Fail> {
    tries(&rt, (2, 0, 2), THERE_AND_BACK)
}

/// A record of five fields in the fragments 11 and 12. Its fields 0 and 1, in the words 2 and 3 of its head, and field 4, in
/// the word 3 of the fragment 12, hold the board, the record and the record. A register holds it, so both heads are grey as
/// marking begins. The board's scans, the lowest fragment's first, are 75 turns: 6 for its head, 7 for each of nine
/// fragments and 6 for its last one, the group's load after each counted in.
///
/// Then the head: its meta and the link there, the two fields, and no name; marks are made where the fragment is marked
/// already. Then its second fragment, whose first word is the last link, 0, with no word left out. The next pass finds
/// nothing, and the next phase begins.
const WORDS: &[&str] = &[
    "0 new 1 5 => 0 takes 5; 0 new 1 5 = 0.0",
    "0 set 1 0 0 => 0 set 1 0 0 = was -",
    "0 set 1 1 1 => 0 set 1 1 1 = was -",
    "0 set 1 4 1 => 0 set 1 4 1 = was -",
    "three phases",
    "c step => look 0 found 3",
    "c step => group 0 found 8011fffffff",
    "c steps 75 => group 0 found 7ff0fff1fffffff",
    "c step => scan 11.0 found c00000050000000c",
    "c step => mark 12 found 7ff0fff1fffffff",
    "c step => scan 11.2 found 8000000004000001",
    "c step => mark 0 found 7ff1fff1fffffff",
    "c step => scan 11.3 found 8000000b04000002",
    "c step => mark 11 found 7ff1fff1fffffff",
    "c step => blacken 11 found 7ff1fff1fffffff",
    "c step => group 0 found fff1fff1fffffff",
    "c step => scan 12.0 found 0",
    "c step => scan 12.1 found 0",
    "c step => scan 12.2 found 0",
    "c step => scan 12.3 found 8000000b04000003",
    "c step => mark 11 found fff1fff1fffffff",
    "c step => blacken 12 found fff1fff1fffffff",
    "c step => group 0 found 1fff1fff1fffffff",
    "c step => group 0 found 1fff1fff1fffffff",
    "c step => flip 1 found c000000000000000",
    "c step => advance 4 found 3; c phase 4",
    "c turn => waits for 0 at 3 of 4",
    "control 0 => 1fff1fff1fffffff at 19",
    "answer 0 => 3 at 1",
    "phase => 4",
];

#[test]
fn scans_the_words_in_order(rt: HostRuntime) -> Result<(), Fail> {
    tries(&rt, (1, 0, 1), WORDS)
}
