//! Texts of version 2: plays, briefs, plans and verdicts, and what is refused in either version.

use super::rows::{Unwritten, Written, writes_each, writes_nothing};
use super::several_seats::plays;
use crate::status::Status;
use script_text::Cause;
use std::test::Fail;

/// A script, the history of its play, and how many entries that has. Lines stand with "; " between them.
const PLAYS: [(&str, &str, &str); 4] = [SWAPS, NO_ROOM, BETWEEN_SEATS, NO_PLACE];

// Register 5 was never read, so it is a nil with the stamp 0, as the field is that opens: the first cas writes, and the second finds the stamp of that. Register 2 is read with it, so the third
// one writes again. The board of two fields has one fragment.
const SWAPS: (&str, &str, &str) = (
    "schism 2; heap 1 0 1 2; 0 num 1 7; 0 cas 0 1 5 1; 0 cas 0 1 5 1; 0 get 2 0 1; 0 num 3 8; 0 cas 0 1 2 3",
    "history 2 play; heap 1 0 1 2; 0 num 1 7 = ok; 0 cas 0 1 5 1 = was -; 0 cas 0 1 5 1 = now 0:1; 0 get 2 0 1 = number 7 at 0:1; 0 num 3 8 = ok; 0 cas 0 1 2 3 = was 0:1; space used 1 of 16 spine 0 of 0; 0 leave = ok; c phase 1; c phase 2; c phase 3; c phase 4; c phase 5; c frees 1; c phase 6; c ends 0 kept 0; end used 0",
    "legal 15",
);

// A board of 47 fields has all sixteen fragments.
const NO_ROOM: (&str, &str, &str) = (
    "schism 2; heap 1 0 1 47",
    "history 2 play; heap 1 0 1 47; space used 16 of 16 spine 0 of 0; 0 leave = ok; c phase 1; c phase 2; c phase 3; c phase 4; c phase 5; c frees 16; c phase 6; c ends 0 kept 0; end used 0",
    "legal 9",
);

// Both seats expect a nil that was never set; the first one writes, and the second writes once it has read that.
const BETWEEN_SEATS: (&str, &str, &str) = (
    "schism 2; heap 1 0 2 32; 0 num 1 5; 1 num 1 6; 0 cas 0 3 5 1; 1 cas 0 3 5 1; 1 get 2 0 3; 1 cas 0 3 2 1; 0 get 4 0 3",
    "history 2 play; heap 1 0 2 32; 0 num 1 5 = ok; 1 num 1 6 = ok; 0 cas 0 3 5 1 = was -; 1 cas 0 3 5 1 = now 0:1; 1 get 2 0 3 = number 5 at 0:1; 1 cas 0 3 2 1 = was 0:1; 0 get 4 0 3 = number 6 at 1:1; space used 11 of 16 spine 0 of 0; 0 leave = ok; 1 leave = ok; c phase 1; c phase 2; c phase 3; c phase 4; c phase 5; c frees 11; c phase 6; c ends 0 kept 0; end used 0",
    "legal 17",
);

// A cas is refused as a set is: without an object, and behind the last field.
const NO_PLACE: (&str, &str, &str) = (
    "schism 2; heap 1 0 1 1; 0 cas 5 0 5 5; 0 cas 0 1 5 5; 0 cas 0 0 5 0; 0 get 1 0 0",
    "history 2 play; heap 1 0 1 1; 0 cas 5 0 5 5 = no object; 0 cas 0 1 5 5 = no field; 0 cas 0 0 5 0 = was -; 0 get 1 0 0 = object board at 0:1; space used 1 of 16 spine 0 of 0; 0 leave = ok; c phase 1; c phase 2; c phase 3; c phase 4; c phase 5; c frees 1; c phase 6; c ends 0 kept 0; end used 0",
    "legal 13",
);

#[test]
fn plays_scripts_of_version_2(rt: HostRuntime) -> Result<(), Fail> {
    plays(&rt, rt.alloc(), &PLAYS)
}

/// Words, a text, and what is written of it.
const WRITTEN: [Written; 4] = [
    (
        "play --brief",
        "schism 2; heap 1 0 1 2; 0 num 1 7; 0 cas 0 1 5 1; 0 cas 0 1 5 1; 0 get 2 0 1; 0 num 3 8; 0 cas 0 1 2 3",
        "brief 1; heap 1 0 1 2; commands 6 refused 0; made 0 cycles 1 freed 1 swung 0; space used 1 of 16 spine 0 of 0; end used 0",
    ),
    (
        "play --press --brief",
        "schism 2; heap 1 0 1 47; 0 new 1 1",
        "brief 1; heap 1 0 1 47; commands 3 refused 2; made 0 cycles 2 freed 16 swung 0; space used 16 of 16 spine 0 of 0; end used 0",
    ),
    (
        "plan",
        "history 2 play; heap 1 0 1 47; space used 16 of 16 spine 0 of 0; 0 leave = ok; c phase 1; c phase 2; c phase 3; c phase 4; c phase 5; c frees 16; c phase 6; c ends 0 kept 0; end used 0",
        "plan 1; heap 1 0 1 47; cycle 0 reach 0 since 0 bound 0 used 0 kept 0; most reach 16 takes 0 need 0; groups 2 turns 325; full 0",
    ),
    (
        "check",
        "history 2 run; heap 1 0 1 2; 0 num 1 7 = ok; 0 cas 0 1 5 1 = was -; 0 cas 0 1 5 1 = now 0:1; end used 1",
        "legal 3",
    ),
];

#[test]
fn tells_the_heap_line_of_version_2(rt: HostRuntime) -> Result<(), Fail> {
    writes_each(&rt, rt.alloc(), &WRITTEN)
}

/// Words, a text, and the line at which it is refused, for this cause.
const REFUSED: [Unwritten; 16] = [
    (
        "play",
        "schism 1; heap 1 0 1; 0 cas 0 1 5 1",
        refused!(3, Cause::NoCommand),
    ),
    (
        "run",
        "schism 1; heap 1 0 1; 0 cas 0 1 5 1",
        refused!(3, Cause::NoCommand),
    ),
    (
        "play",
        "schism 1; heap 1 0 1 32",
        refused!(2, Cause::BadHeap),
    ),
    ("play", "schism 2; heap 1 0 1", refused!(2, Cause::BadHeap)),
    ("run", "schism 2; heap 1 0 1", refused!(2, Cause::BadHeap)),
    (
        "play",
        "schism 2; heap 1 0 1 2 2",
        refused!(2, Cause::BadHeap),
    ),
    (
        "play",
        "schism 2; heap 1 0 1 0",
        refused!(2, Cause::BadHeap),
    ),
    (
        "play",
        "schism 2; heap 1 0 1 48",
        refused!(2, Cause::BadHeap),
    ),
    (
        "play",
        "schism 2; heap 1 0 1 2; 0 cas 16 1 5 1",
        refused!(3, Cause::OutOfRange),
    ),
    (
        "play",
        "schism 2; heap 1 0 1 2; 0 cas 0 1 5",
        refused!(3, Cause::BadNumber),
    ),
    (
        "play",
        "schism 2; heap 1 0 1 2; c cas 0 1 5 1",
        refused!(3, Cause::NoCommand),
    ),
    (
        "play",
        "schism 3; heap 1 0 1 2",
        refused!(1, Cause::NoHeader),
    ),
    (
        "check",
        "history 3 run; heap 1 0 1 2; end used 1",
        refused!(1, Cause::NoHeader),
    ),
    (
        "check",
        "history 2 run; heap 1 0 1; end used 11",
        refused!(2, Cause::BadHeap),
    ),
    (
        "check",
        "history 1 run; heap 1 0 1 2; end used 1",
        refused!(2, Cause::BadHeap),
    ),
    (
        "check",
        "history 1 run; heap 1 0 1; 0 cas 0 1 5 1 = was -; end used 11",
        refused!(3, Cause::BadEntry),
    ),
];

#[test]
fn refuses_what_is_of_the_other_version(rt: HostRuntime) -> Result<(), Fail> {
    writes_nothing(&rt, rt.alloc(), &REFUSED)
}

/// The word by which histories are checked, and the first line of each that isn't legal: a cas that tells `now` where the field is as it expects, and `was` where it isn't, or shows another stamp, or has no field; and what is in
/// use where a board of another size opens.
const ILLEGAL: [Unwritten; 8] = [
    (
        "check",
        "history 2 run; heap 1 0 1 2; 0 cas 0 1 5 1 = now -; end used 1",
        illegal!(3),
    ),
    (
        "check",
        "history 2 run; heap 1 0 1 2; 0 num 1 7 = ok; 0 cas 0 1 5 1 = was -; 0 cas 0 1 5 1 = was 0:1; end used 1",
        illegal!(5),
    ),
    (
        "check",
        "history 2 run; heap 1 0 1 2; 0 num 1 7 = ok; 0 cas 0 1 5 1 = was -; 0 cas 0 1 5 1 = now 0:2; end used 1",
        illegal!(5),
    ),
    (
        "check",
        "history 2 run; heap 1 0 1 2; 0 cas 0 2 5 1 = was -; end used 1",
        illegal!(3),
    ),
    (
        "check",
        "history 2 run; heap 1 0 1 2; 0 len 0 = 32; end used 1",
        illegal!(3),
    ),
    (
        "check",
        "history 2 run; heap 1 0 1 47; end used 11",
        illegal!(3),
    ),
    (
        "check",
        "history 2 play; heap 1 0 1 2; space used 11 of 16 spine 0 of 0; end used 1",
        illegal!(3),
    ),
    (
        "check",
        "history 2 play; heap 1 0 1 2; 0 takes 16; space used 17 of 16 spine 0 of 0; end used 17",
        illegal!(3),
    ),
];

#[test]
fn finds_histories_of_version_2_not_legal(rt: HostRuntime) -> Result<(), Fail> {
    writes_nothing(&rt, rt.alloc(), &ILLEGAL)
}
