//! Plays of several seats, which take turns by whole commands.

use super::comparing::tells;
use super::ended;
use crate::status::Status;
use std::alloc::{AllocError, Global};
use std::process::Abort;
use std::sync::Wait;
use std::test::Fail;
use std::thread::Threads;

/// A script, the history of its play, and how many entries that has. Lines stand with "; " between them.
///
/// The numbers come from these rules. A heap of G groups has 16 G fragments; the board has the first 11, so that
/// 5 of group 0 are free. A record of F fields has one fragment for its first two fields and one for each three
/// further ones, the last of which may have fewer. A seat that lacks fragments takes all that are free in a group:
/// it goes on from its cursor, group after group and from the last to the first, until it has enough. The cursor of
/// seat S is the group S mod G at first, and then the last group that it claimed. What it doesn't use it keeps. When
/// the script is done each seat, by number, gives back what it kept and leaves. A seat's n-th set has the stamp
/// SEAT:n. The cycle that is made then frees in each group, from the first on, what the board and the records have there.
const PLAYS: [(&str, &str, &str); 4] = [SHARED_FIELD, SIXTEEN_ON_FOUR, SIXTEEN_ON_SIXTEEN, CURSORS];

// Seat 0 claims group 0 for a record of one fragment: it takes 5 and keeps 4. Seat 1 claims group 1 for a record of
// two fragments (2 fields in the first, 3 in the second): it takes 16 and keeps 14. So 11 + 5 + 16 = 32 are in use,
// and once both have left the 11 of the board, and 1 and 2 of the records. There are 2 takes, 20 replies, 2 gives back, 2
// leaves, and 9 entries of the collector: 6 phases, 2 frees and an end.
//
// Field 3 of the board is set by seat 0 (its first set), by seat 1 (its first) and by seat 0 again (its third): each
// set answers the stamp of the one before. Each seat gets the other's record there, and sets a field of it: seat 1's
// second set is in field 1 of 0.0, seat 0's second in field 4 of 1.0. Register 4 of seat 0 was never written, so the
// last set puts a nil.
const SHARED_FIELD: (&str, &str, &str) = (
    "schism 1; heap 4 0 2; 0 new 1 2; 1 new 1 5; 0 set 0 3 1; 1 get 2 0 3; 1 set 0 3 1; 0 get 2 0 3; 1 len 2; 0 len 2; 1 num 3 7; 1 set 2 1 3; 0 get 3 1 1; 0 num 3 8; 0 set 2 4 3; 1 get 4 1 4; 1 get 5 0 3; 1 same 1 5; 1 same 2 5; 0 set 0 3 4; 1 get 6 0 3; 1 len 6",
    "history 1 play; heap 4 0 2; 0 takes 5; 0 new 1 2 = 0.0; 1 takes 16; 1 new 1 5 = 1.0; 0 set 0 3 1 = was -; 1 get 2 0 3 = object 0.0 at 0:1; 1 set 0 3 1 = was 0:1; 0 get 2 0 3 = object 1.0 at 1:1; 1 len 2 = 2; 0 len 2 = 5; 1 num 3 7 = ok; 1 set 2 1 3 = was -; 0 get 3 1 1 = number 7 at 1:2; 0 num 3 8 = ok; 0 set 2 4 3 = was -; 1 get 4 1 4 = number 8 at 0:2; 1 get 5 0 3 = object 1.0 at 1:1; 1 same 1 5 = yes; 1 same 2 5 = no; 0 set 0 3 4 = was 1:1; 1 get 6 0 3 = nil at 0:3; 1 len 6 = no object; space used 32 of 64 spine 0 of 0; 0 gives back 4; 0 leave = ok; 1 gives back 14; 1 leave = ok; c phase 1; c phase 2; c phase 3; c phase 4; c phase 5; c frees 12; c frees 2; c phase 6; c ends 0 kept 0; end used 0",
    "legal 35",
);

// The cursors are 0, 1, 2, 3, 0, 1 and so on. The first four seats claim one group each: 5 fragments, and three times
// 16, which are all of the 64. The other twelve look at every group, find nothing and keep nothing. Of the first four
// each used one fragment, so that 4 and three times 15 are given back, and 11 + 4 = 15 are freed at the end. There
// are 4 takes, 16 replies, 4 gives back, 16 leaves, 4 frees, 6 phases and an end.
const SIXTEEN_ON_FOUR: (&str, &str, &str) = (
    "schism 1; heap 4 0 16; 0 new 1 2; 1 new 1 2; 2 new 1 2; 3 new 1 2; 4 new 1 2; 5 new 1 2; 6 new 1 2; 7 new 1 2; 8 new 1 2; 9 new 1 2; 10 new 1 2; 11 new 1 2; 12 new 1 2; 13 new 1 2; 14 new 1 2; 15 new 1 2",
    "history 1 play; heap 4 0 16; 0 takes 5; 0 new 1 2 = 0.0; 1 takes 16; 1 new 1 2 = 1.0; 2 takes 16; 2 new 1 2 = 2.0; 3 takes 16; 3 new 1 2 = 3.0; 4 new 1 2 = full need 1 found 0; 5 new 1 2 = full need 1 found 0; 6 new 1 2 = full need 1 found 0; 7 new 1 2 = full need 1 found 0; 8 new 1 2 = full need 1 found 0; 9 new 1 2 = full need 1 found 0; 10 new 1 2 = full need 1 found 0; 11 new 1 2 = full need 1 found 0; 12 new 1 2 = full need 1 found 0; 13 new 1 2 = full need 1 found 0; 14 new 1 2 = full need 1 found 0; 15 new 1 2 = full need 1 found 0; space used 64 of 64 spine 0 of 0; 0 gives back 4; 0 leave = ok; 1 gives back 15; 1 leave = ok; 2 gives back 15; 2 leave = ok; 3 gives back 15; 3 leave = ok; 4 leave = ok; 5 leave = ok; 6 leave = ok; 7 leave = ok; 8 leave = ok; 9 leave = ok; 10 leave = ok; 11 leave = ok; 12 leave = ok; 13 leave = ok; 14 leave = ok; 15 leave = ok; c phase 1; c phase 2; c phase 3; c phase 4; c phase 5; c frees 12; c frees 1; c frees 1; c frees 1; c phase 6; c ends 0 kept 0; end used 0",
    "legal 51",
);

// Each seat claims the group of its own number: seat 0 takes 5 and keeps 4, the others take 16 and keep 15. All 256
// fragments are in use, and 11 + 16 = 27 are freed at the end. There are 16 takes, 16 replies, 16 gives back, 16 leaves, 16 frees,
// 6 phases and an end.
const SIXTEEN_ON_SIXTEEN: (&str, &str, &str) = (
    "schism 1; heap 16 0 16; 0 new 1 2; 1 new 1 2; 2 new 1 2; 3 new 1 2; 4 new 1 2; 5 new 1 2; 6 new 1 2; 7 new 1 2; 8 new 1 2; 9 new 1 2; 10 new 1 2; 11 new 1 2; 12 new 1 2; 13 new 1 2; 14 new 1 2; 15 new 1 2",
    "history 1 play; heap 16 0 16; 0 takes 5; 0 new 1 2 = 0.0; 1 takes 16; 1 new 1 2 = 1.0; 2 takes 16; 2 new 1 2 = 2.0; 3 takes 16; 3 new 1 2 = 3.0; 4 takes 16; 4 new 1 2 = 4.0; 5 takes 16; 5 new 1 2 = 5.0; 6 takes 16; 6 new 1 2 = 6.0; 7 takes 16; 7 new 1 2 = 7.0; 8 takes 16; 8 new 1 2 = 8.0; 9 takes 16; 9 new 1 2 = 9.0; 10 takes 16; 10 new 1 2 = 10.0; 11 takes 16; 11 new 1 2 = 11.0; 12 takes 16; 12 new 1 2 = 12.0; 13 takes 16; 13 new 1 2 = 13.0; 14 takes 16; 14 new 1 2 = 14.0; 15 takes 16; 15 new 1 2 = 15.0; space used 256 of 256 spine 0 of 0; 0 gives back 4; 0 leave = ok; 1 gives back 15; 1 leave = ok; 2 gives back 15; 2 leave = ok; 3 gives back 15; 3 leave = ok; 4 gives back 15; 4 leave = ok; 5 gives back 15; 5 leave = ok; 6 gives back 15; 6 leave = ok; 7 gives back 15; 7 leave = ok; 8 gives back 15; 8 leave = ok; 9 gives back 15; 9 leave = ok; 10 gives back 15; 10 leave = ok; 11 gives back 15; 11 leave = ok; 12 gives back 15; 12 leave = ok; 13 gives back 15; 13 leave = ok; 14 gives back 15; 14 leave = ok; 15 gives back 15; 15 leave = ok; c phase 1; c phase 2; c phase 3; c phase 4; c phase 5; c frees 12; c frees 1; c frees 1; c frees 1; c frees 1; c frees 1; c frees 1; c frees 1; c frees 1; c frees 1; c frees 1; c frees 1; c frees 1; c frees 1; c frees 1; c frees 1; c phase 6; c ends 0 kept 0; end used 0",
    "legal 87",
);

// A record of 47 fields has 16 fragments (2 fields in the first, 45 in 15 more). Seat 7, with the cursor 3, claims
// group 3 for one, and keeps nothing. Seat 11, with the cursor 3 too, finds nothing there and goes on to group 0: it
// takes 5 for a record of one fragment, and keeps 4. Seat 6 claims group 2 for 16. Seat 10, with the cursor 2, finds
// nothing in the groups 2, 3 and 0, and takes the 16 of group 1. Then seat 1 finds nothing anywhere. Seat 11 has the
// 4 that it kept, and finds no more: it is refused, and keeps them. All 64 are in use; at the end 11 of the board and
// 16 + 1 + 16 + 16 = 49 of the records are freed. There are 4 takes, 6 replies, 1 gives back, 12 leaves, 4 frees, 6 phases and an end.
const CURSORS: (&str, &str, &str) = (
    "schism 1; heap 4 0 12; 7 new 1 47; 11 new 1 2; 6 new 1 47; 10 new 1 47; 1 new 1 1; 11 new 2 17",
    "history 1 play; heap 4 0 12; 7 takes 16; 7 new 1 47 = 7.0; 11 takes 5; 11 new 1 2 = 11.0; 6 takes 16; 6 new 1 47 = 6.0; 10 takes 16; 10 new 1 47 = 10.0; 1 new 1 1 = full need 1 found 0; 11 new 2 17 = full need 6 found 4; space used 64 of 64 spine 0 of 0; 0 leave = ok; 1 leave = ok; 2 leave = ok; 3 leave = ok; 4 leave = ok; 5 leave = ok; 6 leave = ok; 7 leave = ok; 8 leave = ok; 9 leave = ok; 10 leave = ok; 11 gives back 4; 11 leave = ok; c phase 1; c phase 2; c phase 3; c phase 4; c phase 5; c frees 12; c frees 16; c frees 16; c frees 16; c phase 6; c ends 0 kept 0; end used 0",
    "legal 34",
);

/// The text of these lines.
pub(super) fn text_of(alloc: Global, lines: &str) -> Result<String, AllocError> {
    let mut text = lines.replace(alloc, "; ", "\n")?;
    text.push('\n')?;
    Ok(text)
}

/// Plays each row's script, compares what is written with its history, and what the check of that says with its verdict.
pub(super) fn plays(
    rt: &(impl Abort + Threads + Wait + Sync),
    alloc: Global,
    rows: &[(&str, &str, &str)],
) -> Result<(), Fail> {
    plays_by(rt, alloc, &["play"], rows)
}

/// So it does by these words.
pub(super) fn plays_by(
    rt: &(impl Abort + Threads + Wait + Sync),
    alloc: Global,
    words: &[&str],
    rows: &[(&str, &str, &str)],
) -> Result<(), Fail> {
    for &(script, history, verdict) in rows {
        let script = text_of(alloc, script)?;
        let history = text_of(alloc, history)?;
        let played = ended(rt, alloc, words, script.as_bytes(), &[], &[])?;
        tells(rt, &played, Status::Done, history.as_bytes(), &script);
        let told = ended(rt, alloc, &["check"], history.as_bytes(), &[], &[])?;
        let verdict = text_of(alloc, verdict)?;
        tells(rt, &told, Status::Done, verdict.as_bytes(), &script);
    }
    Ok(())
}

/// Compares what comes of the word and each row's text, whose reads give 5 bytes a call, with its status and with what is written.
pub(super) fn ends_so(
    rt: &(impl Abort + Threads + Wait + Sync),
    alloc: Global,
    word: &str,
    rows: &[(&str, Status, &str)],
) -> Result<(), Fail> {
    for &(text, status, written) in rows {
        let told = ended(rt, alloc, &[word], text.as_bytes(), &[], &[])?;
        tells(rt, &told, status, written.as_bytes(), &text);
    }
    Ok(())
}

#[test]
fn plays_several_seats(rt: HostRuntime) -> Result<(), Fail> {
    plays(&rt, rt.alloc(), &PLAYS)
}
