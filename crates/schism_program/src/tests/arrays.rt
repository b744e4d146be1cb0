//! Plays with arrays. An array of N cells has a first fragment and one for each four cells, and a spine word for each of these.

use super::several_seats::plays;
use std::test::Fail;

/// A script, the history of its play, and how many entries that has. Lines stand with "; " between them.
const PLAYS: [(&str, &str, &str); 7] = [
    NO_WORDS,
    NOTHING_KEPT,
    NEITHER,
    ALL_WORDS,
    BY_TURNS,
    RING,
    KEPT,
];

// A heap without spine words has no array.
const NO_WORDS: (&str, &str, &str) = (
    "schism 1; heap 2 0 1; 0 array 1 4",
    "history 1 play; heap 2 0 1; 0 array 1 4 = spine need 1 used 0; space used 11 of 32 spine 0 of 0; 0 leave = ok; c phase 1; c phase 2; c phase 3; c phase 4; c phase 5; c frees 11; c phase 6; c ends 0 kept 0; end used 0",
    "legal 10",
);

// Each claim gets the five fragments beside the board and gives them back, for a record of 16 as for an array of 6. The five
// spine words of that one are taken back too.
const NOTHING_KEPT: (&str, &str, &str) = (
    "schism 1; heap 1 8 1; 0 new 1 47; 0 array 1 20",
    "history 1 play; heap 1 8 1; 0 takes 5; 0 gives back 5; 0 new 1 47 = full need 16 found 5; 0 takes 5; 0 gives back 5; 0 array 1 20 = full need 6 found 5; space used 11 of 16 spine 0 of 8; 0 leave = ok; c phase 1; c phase 2; c phase 3; c phase 4; c phase 5; c frees 11; c phase 6; c ends 0 kept 0; end used 0",
    "legal 15",
);

// Both its five spine words and its six fragments are too many: the spine words are refused, and nothing is claimed.
const NEITHER: (&str, &str, &str) = (
    "schism 1; heap 1 2 1; 0 array 1 20",
    "history 1 play; heap 1 2 1; 0 array 1 20 = spine need 5 used 0; space used 11 of 16 spine 0 of 2; 0 leave = ok; c phase 1; c phase 2; c phase 3; c phase 4; c phase 5; c frees 11; c phase 6; c ends 0 kept 0; end used 0",
    "legal 10",
);

// An array of 16 cells takes the four spine words, and five fragments. None is left for an array of one cell.
const ALL_WORDS: (&str, &str, &str) = (
    "schism 1; heap 2 4 1; 0 array 1 16; 0 array 2 1",
    "history 1 play; heap 2 4 1; 0 takes 5; 0 array 1 16 = 0.0; 0 array 2 1 = spine need 1 used 4; space used 16 of 32 spine 4 of 4; 0 leave = ok; c phase 1; c phase 2; c phase 3; c phase 4; c phase 5; c frees 16; c returns 4; c phase 6; c ends 0 kept 0; end used 0",
    "legal 13",
);

// Of three spine words the first seat takes two, for three fragments. The second seat finds one left, which is too little for
// eight cells and enough for four. Then none is left for the first seat.
const BY_TURNS: (&str, &str, &str) = (
    "schism 1; heap 4 3 2; 0 array 1 8; 1 array 1 8; 1 array 1 4; 0 array 2 1",
    "history 1 play; heap 4 3 2; 0 takes 5; 0 array 1 8 = 0.0; 1 array 1 8 = spine need 2 used 2; 1 takes 16; 1 array 1 4 = 1.0; 0 array 2 1 = spine need 1 used 3; space used 32 of 64 spine 3 of 3; 0 gives back 2; 0 leave = ok; 1 gives back 14; 1 leave = ok; c phase 1; c phase 2; c phase 3; c phase 4; c phase 5; c frees 14; c returns 2; c frees 2; c returns 1; c phase 6; c ends 0 kept 0; end used 0",
    "legal 21",
);

// Three arrays of 2, 3 and 2 fragments lead to each other, the second one by a cell of its second payload fragment, and are dropped:
// the cycle frees the five of the first group and the two of the second. A fourth stays, with two fragments beside the board's
// eleven and a reserve of twelve; it swings to a copy of its spine word, and the four others are returned.
const RING: (&str, &str, &str) = (
    "schism 1; heap 2 6 1; 0 array 1 1; 0 array 2 5; 0 array 3 1; 0 array 4 4; 0 set 1 0 2; 0 set 2 4 3; 0 set 3 0 1; 0 nil 1; 0 nil 2; 0 nil 3; 0 collect; 0 len 4",
    "history 1 play; heap 2 6 1; 0 takes 5; 0 array 1 1 = 0.0; 0 array 2 5 = 0.1; 0 takes 16; 0 array 3 1 = 0.2; 0 array 4 4 = 0.3; 0 set 1 0 2 = was -; 0 set 2 4 3 = was -; 0 set 3 0 1 = was -; 0 nil 1 = ok; 0 nil 2 = ok; 0 nil 3 = ok; c phase 1; 0 answers 1; c phase 2; 0 answers 2; c phase 3; 0 answers 3; c phase 4; 0 answers 4; c swings 0.3; c phase 5; 0 answers 5; c frees 5; c returns 3; c frees 2; c returns 1; c phase 6; 0 answers 6; c ends 0 kept 25; 0 collect = cycle 0; 0 len 4 = 4; space used 25 of 32 spine 1 of 6; 0 gives back 12; 0 leave = ok; c phase 8; c phase 9; c phase 10; c phase 11; c phase 12; c frees 11; c frees 2; c returns 1; c phase 13; c ends 1 kept 0; end used 0",
    "legal 44",
);

// An array that a register holds is kept with all its fragments through a cycle. An index past its length is no field, though the
// fragment of its last cell has words there. In the first cycle it swings, in the second it is freed.
const KEPT: (&str, &str, &str) = (
    "schism 1; heap 2 4 1; 0 array 1 5; 0 num 2 7; 0 set 1 4 2; 0 collect; 0 get 3 1 4; 0 get 3 1 5; 0 get 3 1 7; 0 len 1",
    "history 1 play; heap 2 4 1; 0 takes 5; 0 array 1 5 = 0.0; 0 num 2 7 = ok; 0 set 1 4 2 = was -; c phase 1; 0 answers 1; c phase 2; 0 answers 2; c phase 3; 0 answers 3; c phase 4; 0 answers 4; c swings 0.0; c phase 5; 0 answers 5; c phase 6; 0 answers 6; c ends 0 kept 16; 0 collect = cycle 0; 0 get 3 1 4 = number 7 at 0:1; 0 get 3 1 5 = no field; 0 get 3 1 7 = no field; 0 len 1 = 5; space used 16 of 32 spine 2 of 4; 0 gives back 2; 0 leave = ok; c phase 8; c phase 9; c phase 10; c phase 11; c phase 12; c frees 14; c returns 2; c phase 13; c ends 1 kept 0; end used 0",
    "legal 34",
);

#[test]
fn plays_arrays(rt: HostRuntime) -> Result<(), Fail> {
    plays(&rt, rt.alloc(), &PLAYS)
}

// 1,024 spine words and 1,025 fragments: 5 of group 0, 16 each of the groups 1 to 63, and 12 of group 64, of which 4 are given back. An
// index of 4,096 is past its end.
#[test]
fn plays_the_largest_array(rt: HostRuntime) -> Result<(), Fail> {
    let alloc = rt.alloc();
    let takes = "0 takes 16; ".repeat(alloc, 64)?;
    let frees = "c frees 16; ".repeat(alloc, 63)?;
    let history = format!(in alloc;
        "history 1 play; heap 66 1024 1; 0 takes 5; {takes}0 array 1 4096 = 0.0; 0 num 2 1 = ok; 0 set 1 4095 2 = was -; 0 get 3 1 4095 = number 1 at 0:1; 0 get 3 1 4096 = no field; 0 len 1 = 4096; space used 1040 of 1056 spine 1024 of 1024; 0 gives back 4; 0 leave = ok; c phase 1; c phase 2; c phase 3; c phase 4; c phase 5; c frees 16; c returns 1024; {frees}c frees 12; c phase 6; c ends 0 kept 0; end used 0"
    )?;
    let script =
        "schism 1; heap 66 1024 1; 0 array 1 4096; 0 num 2 1; 0 set 1 4095 2; 0 get 3 1 4095; 0 get 3 1 4096; 0 len 1";
    plays(&rt, alloc, &[(script, history.as_str(), "legal 146")])
}
