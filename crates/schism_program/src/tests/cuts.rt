//! A script and the history of a play, cut at every length: each is done where its lines are whole, and else refused by its first fault.

use super::collects::RESERVE;
use super::comparing::holds;
use super::ended;
use super::scripts::CHAIN;
use super::several_seats::text_of;
use crate::status::status_text;
use std::alloc::Global;
use std::process::Abort;
use std::sync::Wait;
use std::test::Fail;
use std::thread::Threads;

/// Texts that are cut below this length, and not below that of the row before: what is said of them on standard error, how much is written of the history of the whole script's play, and what
/// behind that.
type Cut = (usize, &'static str, usize, &'static str);

// The end of a play in which nothing was claimed: the board is freed.
const NONE_MADE: &str =
    "space used 11 of 64 spine 0 of 0\n0 leave = ok\nc phase 1\nc phase 2\nc phase 3\nc phase 4\nc phase 5\nc frees 11\nc phase 6\nc ends 0 kept 0\nend used 0\n";

// The end of each play with the long record: eleven fragments of the board and five of its own are in the first group, and its other eleven in the second, whose other five stay in the reserve.
const LONG_MADE: &str =
    "space used 32 of 64 spine 0 of 0\n0 gives back 5\n0 leave = ok\nc phase 1\nc phase 2\nc phase 3\nc phase 4\nc phase 5\nc frees 16\nc frees 11\nc phase 6\nc ends 0 kept 0\nend used 0\n";

// A record of four fields has two fragments, so three of the five stay in the reserve.
const SHORT_MADE: &str =
    "0 new 1 4 = 0.0\nspace used 16 of 64 spine 0 of 0\n0 gives back 3\n0 leave = ok\nc phase 1\nc phase 2\nc phase 3\nc phase 4\nc phase 5\nc frees 13\nc phase 6\nc ends 0 kept 0\nend used 0\n";

// The fifth field was never set.
const FIFTH_READ: &str =
    "0 get 3 1 4 = nil at -\nspace used 32 of 64 spine 0 of 0\n0 gives back 5\n0 leave = ok\nc phase 1\nc phase 2\nc phase 3\nc phase 4\nc phase 5\nc frees 16\nc frees 11\nc phase 6\nc ends 0 kept 0\nend used 0\n";

/// Plays of the script with a long record. A line of a seat lacks its command first, and then its numbers; it may lack its line feed, and the first digit of two is a number too.
const SCRIPT_CUTS: [Cut; 20] = [
    (8, "refused at line 1: NoHeader", 0, ""),
    (19, "refused at line 2: BadHeap", 0, ""),
    (21, "", 26, NONE_MADE),
    (25, "refused at line 3: NoCommand", 0, ""),
    (29, "refused at line 3: BadNumber", 0, ""),
    (30, "", 36, SHORT_MADE),
    (32, "", 64, LONG_MADE),
    (36, "refused at line 4: NoCommand", 0, ""),
    (40, "refused at line 4: BadNumber", 0, ""),
    (42, "", 79, LONG_MADE),
    (46, "refused at line 5: NoCommand", 0, ""),
    (53, "refused at line 5: BadNumber", 0, ""),
    (55, "", 100, LONG_MADE),
    (59, "refused at line 6: NoCommand", 0, ""),
    (65, "refused at line 6: BadNumber", 0, ""),
    (66, "", 100, FIFTH_READ),
    (68, "", 131, LONG_MADE),
    (72, "refused at line 7: NoCommand", 0, ""),
    (79, "refused at line 7: BadNumber", 0, ""),
    (81, "", 155, LONG_MADE),
];

/// Checks of a play with a collect. Behind a whole line the next one is missing; a line whose last number lacks its second digit is whole too.
const HISTORY_CUTS: [Cut; 65] = [
    (14, "refused at line 1: NoHeader", 0, ""),
    (25, "refused at line 2: BadHeap", 0, ""),
    (27, "refused at line 3: NoEnd", 0, ""),
    (35, "refused at line 3: BadEntry", 0, ""),
    (37, "refused at line 4: NoEnd", 0, ""),
    (51, "refused at line 4: BadEntry", 0, ""),
    (53, "refused at line 5: NoEnd", 0, ""),
    (85, "refused at line 5: BadEntry", 0, ""),
    (87, "refused at line 6: NoEnd", 0, ""),
    (98, "refused at line 6: BadEntry", 0, ""),
    (100, "refused at line 7: NoEnd", 0, ""),
    (108, "refused at line 7: BadEntry", 0, ""),
    (110, "refused at line 8: NoEnd", 0, ""),
    (120, "refused at line 8: BadEntry", 0, ""),
    (122, "refused at line 9: NoEnd", 0, ""),
    (130, "refused at line 9: BadEntry", 0, ""),
    (132, "refused at line 10: NoEnd", 0, ""),
    (142, "refused at line 10: BadEntry", 0, ""),
    (144, "refused at line 11: NoEnd", 0, ""),
    (152, "refused at line 11: BadEntry", 0, ""),
    (154, "refused at line 12: NoEnd", 0, ""),
    (164, "refused at line 12: BadEntry", 0, ""),
    (166, "refused at line 13: NoEnd", 0, ""),
    (174, "refused at line 13: BadEntry", 0, ""),
    (176, "refused at line 14: NoEnd", 0, ""),
    (186, "refused at line 14: BadEntry", 0, ""),
    (188, "refused at line 15: NoEnd", 0, ""),
    (196, "refused at line 15: BadEntry", 0, ""),
    (198, "refused at line 16: NoEnd", 0, ""),
    (208, "refused at line 16: BadEntry", 0, ""),
    (210, "refused at line 17: NoEnd", 0, ""),
    (218, "refused at line 17: BadEntry", 0, ""),
    (220, "refused at line 18: NoEnd", 0, ""),
    (228, "refused at line 18: BadEntry", 0, ""),
    (230, "refused at line 19: NoEnd", 0, ""),
    (240, "refused at line 19: BadEntry", 0, ""),
    (242, "refused at line 20: NoEnd", 0, ""),
    (256, "refused at line 20: BadEntry", 0, ""),
    (259, "refused at line 21: NoEnd", 0, ""),
    (277, "refused at line 21: BadEntry", 0, ""),
    (279, "refused at line 22: NoEnd", 0, ""),
    (310, "refused at line 22: BadEntry", 0, ""),
    (312, "refused at line 23: NoEnd", 0, ""),
    (325, "refused at line 23: BadEntry", 0, ""),
    (327, "refused at line 24: NoEnd", 0, ""),
    (338, "refused at line 24: BadEntry", 0, ""),
    (340, "refused at line 25: NoEnd", 0, ""),
    (348, "refused at line 25: BadEntry", 0, ""),
    (350, "refused at line 26: NoEnd", 0, ""),
    (358, "refused at line 26: BadEntry", 0, ""),
    (360, "refused at line 27: NoEnd", 0, ""),
    (368, "refused at line 27: BadEntry", 0, ""),
    (371, "refused at line 28: NoEnd", 0, ""),
    (379, "refused at line 28: BadEntry", 0, ""),
    (382, "refused at line 29: NoEnd", 0, ""),
    (390, "refused at line 29: BadEntry", 0, ""),
    (393, "refused at line 30: NoEnd", 0, ""),
    (401, "refused at line 30: BadEntry", 0, ""),
    (404, "refused at line 31: NoEnd", 0, ""),
    (412, "refused at line 31: BadEntry", 0, ""),
    (415, "refused at line 32: NoEnd", 0, ""),
    (429, "refused at line 32: BadEntry", 0, ""),
    (431, "refused at line 33: NoEnd", 0, ""),
    (440, "refused at line 33: BadEntry", 0, ""),
    (442, "", 0, "legal 29\n"),
];

/// So much of the text, and then this.
fn front_of(alloc: Global, text: &str, front: usize, last: &str) -> Result<Vec<u8>, Fail> {
    let before = text.as_bytes().get(..front).ok_or("a front")?;
    Ok([before, last.as_bytes()].concat(alloc)?)
}

/// Compares what the word makes of the front of this length with what is said and written of it.
fn ends_at(
    rt: &(impl Abort + Threads + Wait + Sync),
    alloc: Global,
    word: &str,
    front: &[u8],
    said: &str,
    wanted: &[u8],
) -> Result<(), Fail> {
    let (status, written) = ended(rt, alloc, &[word], front, &[], &[])?;
    let at = format!(in alloc; "{word} of the first {}", front.len())?;
    holds(rt, status_text(&status).as_str() == said, &at);
    holds(rt, written.as_slice() == wanted, &at);
    Ok(())
}

/// Compares what the word makes of the text with the table, at every length up to the whole. What is written begins as the history does.
fn ends_at_each_cut(
    rt: &(impl Abort + Threads + Wait + Sync),
    alloc: Global,
    word: &str,
    text: &str,
    history: &str,
    cuts: &[Cut],
) -> Result<(), Fail> {
    let mut next = 0;
    for &(below, said, front, last) in cuts {
        let wanted = front_of(alloc, history, front, last)?;
        for length in next..below {
            let kept = text.as_bytes().get(..length).ok_or("a front")?;
            ends_at(rt, alloc, word, kept, said, &wanted)?;
        }
        next = below;
    }
    holds(rt, next > text.len(), &word);
    Ok(())
}

#[test]
fn ends_by_the_first_fault_of_a_cut(rt: HostRuntime) -> Result<(), Fail> {
    let alloc = rt.alloc();
    let (script, played, _) = CHAIN;
    let (script, played) = (text_of(alloc, script)?, text_of(alloc, played)?);
    ends_at_each_cut(&rt, alloc, "play", &script, &played, &SCRIPT_CUTS)?;
    let (_, history, _) = RESERVE;
    let history = text_of(alloc, history)?;
    ends_at_each_cut(&rt, alloc, "check", &history, &history, &HISTORY_CUTS)
}
