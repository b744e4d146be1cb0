//! Plays in which seats collect: a collect makes the turns itself, and its seat answers the phases that begin.

use super::several_seats::{plays, plays_by};
use std::test::Fail;

/// A script, the history of its play, and how many entries that has. Lines stand with "; " between them.
const PLAYS: [(&str, &str, &str); 7] = [
    RESERVE,
    SCATTERED,
    RAGGED,
    MOVED,
    CYCLIC,
    IN_THE_BOARD,
    SILENT,
];

// A refused record leaves the four fragments of the reserve alone, and these are no garbage: the cycle frees the one of the dropped record.
pub(super) const RESERVE: (&str, &str, &str) = (
    "schism 1; heap 1 0 1; 0 new 1 2; 0 new 2 47; 0 nil 1; 0 collect",
    "history 1 play; heap 1 0 1; 0 takes 5; 0 new 1 2 = 0.0; 0 new 2 47 = full need 16 found 4; 0 nil 1 = ok; c phase 1; 0 answers 1; c phase 2; 0 answers 2; c phase 3; 0 answers 3; c phase 4; 0 answers 4; c phase 5; 0 answers 5; c frees 1; c phase 6; 0 answers 6; c ends 0 kept 15; 0 collect = cycle 0; space used 15 of 16 spine 0 of 0; 0 gives back 4; 0 leave = ok; c phase 8; c phase 9; c phase 10; c phase 11; c phase 12; c frees 11; c phase 13; c ends 1 kept 0; end used 0",
    "legal 29",
);

// Five records of a fragment each are all that there is beside the board. The second and the fourth are dropped, and the cycle frees
// their two fragments, which lie apart: a record of five fields takes just these.
const SCATTERED: (&str, &str, &str) = (
    "schism 1; heap 1 0 1; 0 new 1 2; 0 new 2 2; 0 new 3 2; 0 new 4 2; 0 new 5 2; 0 nil 2; 0 nil 4; 0 collect; 0 new 6 5",
    "history 1 play; heap 1 0 1; 0 takes 5; 0 new 1 2 = 0.0; 0 new 2 2 = 0.1; 0 new 3 2 = 0.2; 0 new 4 2 = 0.3; 0 new 5 2 = 0.4; 0 nil 2 = ok; 0 nil 4 = ok; c phase 1; 0 answers 1; c phase 2; 0 answers 2; c phase 3; 0 answers 3; c phase 4; 0 answers 4; c phase 5; 0 answers 5; c frees 2; c phase 6; 0 answers 6; c ends 0 kept 14; 0 collect = cycle 0; 0 takes 2; 0 new 6 5 = 0.5; space used 16 of 16 spine 0 of 0; 0 leave = ok; c phase 8; c phase 9; c phase 10; c phase 11; c phase 12; c frees 16; c phase 13; c ends 1 kept 0; end used 0",
    "legal 34",
);

// The first seat answers phase 1 and then waits for the second. Once that has answered too, phase 2 begins, which it hasn't answered.
const RAGGED: (&str, &str, &str) = (
    "schism 1; heap 1 0 2; 0 collect; 1 poll; 0 collect",
    "history 1 play; heap 1 0 2; c phase 1; 0 answers 1; 0 collect = waits 1 answered 0 phase 1; 1 answers 1; 1 poll = 1; c phase 2; 0 answers 2; 0 collect = waits 1 answered 1 phase 2; space used 11 of 16 spine 0 of 0; 0 leave = ok; 1 leave = ok; c phase 3; c phase 4; c phase 5; c frees 11; c phase 6; c ends 0 kept 0; c phase 8; c phase 9; c phase 10; c phase 11; c phase 12; c phase 13; c ends 1 kept 0; end used 0",
    "legal 23",
);

// A reference moves behind the scan while a cycle is under way. The collect brings that cycle to its end and then makes a whole
// one, and neither frees what the reference leads to.
const MOVED: (&str, &str, &str) = (
    "schism 1; heap 2 0 1; 0 new 1 2; 0 new 2 2; 0 new 3 2; 0 set 2 0 3; 0 nil 3; c cycle; 0 poll; c cycle; 0 poll; c cycle; 0 poll; c turns 81; 0 get 4 2 0; 0 set 1 0 4; 0 nil 5; 0 set 2 0 5; 0 nil 4; 0 collect; 0 get 6 1 0",
    "history 1 play; heap 2 0 1; 0 takes 5; 0 new 1 2 = 0.0; 0 new 2 2 = 0.1; 0 new 3 2 = 0.2; 0 set 2 0 3 = was -; 0 nil 3 = ok; c phase 1; c cycle = waits 0 answered 0 phase 1; 0 answers 1; 0 poll = 1; c phase 2; c cycle = waits 0 answered 1 phase 2; 0 answers 2; 0 poll = 2; c phase 3; c cycle = waits 0 answered 2 phase 3; 0 answers 3; 0 poll = 3; c turns 81 = done; 0 get 4 2 0 = object 0.2 at 0:1; 0 set 1 0 4 = was -; 0 nil 5 = ok; 0 set 2 0 5 = was 0:1; 0 nil 4 = ok; c phase 4; 0 answers 4; c phase 5; 0 answers 5; c phase 6; 0 answers 6; c ends 0 kept 16; 0 answers 7; c phase 8; 0 answers 8; c phase 9; 0 answers 9; c phase 10; 0 answers 10; c phase 11; 0 answers 11; c phase 12; 0 answers 12; c phase 13; 0 answers 13; c ends 1 kept 16; 0 collect = cycle 1; 0 get 6 1 0 = object 0.2 at 0:2; space used 16 of 32 spine 0 of 0; 0 gives back 2; 0 leave = ok; c phase 15; c phase 16; c phase 17; c phase 18; c phase 19; c frees 14; c phase 20; c ends 2 kept 0; end used 0",
    "legal 57",
);

// Two records lead to each other and are dropped: both are freed.
const CYCLIC: (&str, &str, &str) = (
    "schism 1; heap 1 0 1; 0 new 1 2; 0 new 2 2; 0 set 1 0 2; 0 set 2 0 1; 0 nil 1; 0 nil 2; 0 collect",
    "history 1 play; heap 1 0 1; 0 takes 5; 0 new 1 2 = 0.0; 0 new 2 2 = 0.1; 0 set 1 0 2 = was -; 0 set 2 0 1 = was -; 0 nil 1 = ok; 0 nil 2 = ok; c phase 1; 0 answers 1; c phase 2; 0 answers 2; c phase 3; 0 answers 3; c phase 4; 0 answers 4; c phase 5; 0 answers 5; c frees 2; c phase 6; 0 answers 6; c ends 0 kept 14; 0 collect = cycle 0; space used 14 of 16 spine 0 of 0; 0 gives back 3; 0 leave = ok; c phase 8; c phase 9; c phase 10; c phase 11; c phase 12; c frees 11; c phase 13; c ends 1 kept 0; end used 0",
    "legal 32",
);

// A record is in a field of the board alone: it is kept.
const IN_THE_BOARD: (&str, &str, &str) = (
    "schism 1; heap 1 0 1; 0 new 1 1; 0 set 0 31 1; 0 nil 1; 0 collect; 0 get 2 0 31",
    "history 1 play; heap 1 0 1; 0 takes 5; 0 new 1 1 = 0.0; 0 set 0 31 1 = was -; 0 nil 1 = ok; c phase 1; 0 answers 1; c phase 2; 0 answers 2; c phase 3; 0 answers 3; c phase 4; 0 answers 4; c phase 5; 0 answers 5; c phase 6; 0 answers 6; c ends 0 kept 16; 0 collect = cycle 0; 0 get 2 0 31 = object 0.0 at 0:1; space used 16 of 16 spine 0 of 0; 0 gives back 4; 0 leave = ok; c phase 8; c phase 9; c phase 10; c phase 11; c phase 12; c frees 12; c phase 13; c ends 1 kept 0; end used 0",
    "legal 29",
);

// The second seat never answers: each collect waits for it.
const SILENT: (&str, &str, &str) = (
    "schism 1; heap 1 0 2; 0 collect; 0 collect",
    "history 1 play; heap 1 0 2; c phase 1; 0 answers 1; 0 collect = waits 1 answered 0 phase 1; 0 collect = waits 1 answered 0 phase 1; space used 11 of 16 spine 0 of 0; 0 leave = ok; 1 leave = ok; c phase 2; c phase 3; c phase 4; c phase 5; c frees 11; c phase 6; c ends 0 kept 0; c phase 8; c phase 9; c phase 10; c phase 11; c phase 12; c phase 13; c ends 1 kept 0; end used 0",
    "legal 20",
);

// The play of the scattered fragments without its collect: where seats collect when they are refused, the record is refused once, and
// then it takes just these two fragments.
const MAKES_ROOM: (&str, &str, &str) = (
    "schism 1; heap 1 0 1; 0 new 1 2; 0 new 2 2; 0 new 3 2; 0 new 4 2; 0 new 5 2; 0 nil 2; 0 nil 4; 0 new 6 5",
    "history 1 play; heap 1 0 1; 0 takes 5; 0 new 1 2 = 0.0; 0 new 2 2 = 0.1; 0 new 3 2 = 0.2; 0 new 4 2 = 0.3; 0 new 5 2 = 0.4; 0 nil 2 = ok; 0 nil 4 = ok; 0 new 6 5 = full need 2 found 0; c phase 1; 0 answers 1; c phase 2; 0 answers 2; c phase 3; 0 answers 3; c phase 4; 0 answers 4; c phase 5; 0 answers 5; c frees 2; c phase 6; 0 answers 6; c ends 0 kept 14; 0 collect = cycle 0; 0 takes 2; 0 new 6 5 = 0.5; space used 16 of 16 spine 0 of 0; 0 leave = ok; c phase 8; c phase 9; c phase 10; c phase 11; c phase 12; c frees 16; c phase 13; c ends 1 kept 0; end used 0",
    "legal 35",
);

// Sixteen fragments are more than the heap has beside the board, and stay so: the last reply is the refusal again.
const MAKES_NONE: (&str, &str, &str) = (
    "schism 1; heap 1 0 1; 0 new 1 47",
    "history 1 play; heap 1 0 1; 0 takes 5; 0 gives back 5; 0 new 1 47 = full need 16 found 5; c phase 1; 0 answers 1; c phase 2; 0 answers 2; c phase 3; 0 answers 3; c phase 4; 0 answers 4; c phase 5; 0 answers 5; c phase 6; 0 answers 6; c ends 0 kept 11; 0 collect = cycle 0; 0 takes 5; 0 gives back 5; 0 new 1 47 = full need 16 found 5; space used 11 of 16 spine 0 of 0; 0 leave = ok; c phase 8; c phase 9; c phase 10; c phase 11; c phase 12; c frees 11; c phase 13; c ends 1 kept 0; end used 0",
    "legal 29",
);

#[test]
fn plays_presses(rt: HostRuntime) -> Result<(), Fail> {
    let rows = [MAKES_ROOM, MAKES_NONE];
    plays_by(&rt, rt.alloc(), &["play", "--press"], &rows)
}

#[test]
fn plays_collects(rt: HostRuntime) -> Result<(), Fail> {
    plays(&rt, rt.alloc(), &PLAYS)
}
