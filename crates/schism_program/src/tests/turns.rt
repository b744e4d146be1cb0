//! Plays with turns of the collector between the commands, up to the end of a cycle.

use super::several_seats::plays;
use std::test::Fail;

/// A script, the history of its play, and how many entries that has. Lines stand with "; " between them.
///
/// In each phase the collector looks at the seats in their order, one a turn, and then begins the next phase by one turn
/// more. A turn that finds a seat which hasn't answered the phase waits, and the collector stays before that seat.
const PLAYS: [(&str, &str, &str); 5] = [ONE_SEAT, TWO_SEATS, ONE_WAIT, BARRIERS, SWEPT];

// Every seat has answered phase 0 from the start, so two turns are a look and phase 1. A turn that waits is answered so where
// it is the last that was asked for, and where it is the first of a million. No turn at all is done at once.
const ONE_SEAT: (&str, &str, &str) = (
    "schism 1; heap 1 0 1; c turns 2; c turns 1; 0 poll; 0 poll; c turns 2; 0 poll; c turns 0; c turns 1; c turns 1; c turns 1000000",
    "history 1 play; heap 1 0 1; c phase 1; c turns 2 = done; c turns 1 = waits 0 answered 0 phase 1; 0 answers 1; 0 poll = 1; 0 poll = 1; c phase 2; c turns 2 = done; 0 answers 2; 0 poll = 2; c turns 0 = done; c turns 1 = done; c phase 3; c turns 1 = done; c turns 1000000 = waits 0 answered 2 phase 3; space used 11 of 16 spine 0 of 0; 0 leave = ok; c phase 4; c phase 5; c frees 11; c phase 6; c ends 0 kept 0; c phase 8; c phase 9; c phase 10; c phase 11; c phase 12; c phase 13; c ends 1 kept 0; end used 0",
    "legal 28",
);

// Three turns look at both seats and begin phase 1. Seat 0 answers it, so the next turn goes on to seat 1, and the second
// waits. Once that has answered too, the collector looks at it alone. A record is made meanwhile as ever.
const TWO_SEATS: (&str, &str, &str) = (
    "schism 1; heap 4 0 2; c turns 3; 0 poll; c turns 2; 1 new 1 2; 1 poll; c turns 2; c turns 3",
    "history 1 play; heap 4 0 2; c phase 1; c turns 3 = done; 0 answers 1; 0 poll = 1; c turns 2 = waits 1 answered 0 phase 1; 1 takes 16; 1 new 1 2 = 1.0; 1 answers 1; 1 poll = 1; c phase 2; c turns 2 = done; c turns 3 = waits 0 answered 1 phase 2; space used 27 of 64 spine 0 of 0; 0 leave = ok; 1 gives back 15; 1 leave = ok; c phase 3; c phase 4; c phase 5; c frees 11; c frees 1; c phase 6; c ends 0 kept 0; c phase 8; c phase 9; c phase 10; c phase 11; c phase 12; c phase 13; c ends 1 kept 0; end used 0",
    "legal 29",
);

// The fourth turn would be the first look of phase 1, which the seat hasn't answered.
const ONE_WAIT: (&str, &str, &str) = (
    "schism 1; heap 1 0 1; c turns 2; c turns 5",
    "history 1 play; heap 1 0 1; c phase 1; c turns 2 = done; c turns 5 = waits 0 answered 0 phase 1; space used 11 of 16 spine 0 of 0; 0 leave = ok; c phase 2; c phase 3; c phase 4; c phase 5; c frees 11; c phase 6; c ends 0 kept 0; c phase 8; c phase 9; c phase 10; c phase 11; c phase 12; c phase 13; c ends 1 kept 0; end used 0",
    "legal 18",
);

// Three records of a fragment each, the third in a field of the second alone. At its answer to phase 3 the seat marks the
// board, the first and the second. After 81 turns, a look and 80 steps of marking, the board is scanned, the first record is
// scanned and the second isn't. Then the reference to the third moves from the second into the first, which the barrier
// marks: so marking comes to its end, the next phase begins, and the third is still there to be read.
const BARRIERS: (&str, &str, &str) = (
    "schism 1; heap 2 0 1; 0 new 1 2; 0 new 2 2; 0 new 3 2; 0 set 2 0 3; 0 nil 3; c turns 2; 0 poll; c turns 2; 0 poll; c turns 2; 0 poll; c turns 81; 0 get 4 2 0; 0 set 1 0 4; 0 nil 5; 0 set 2 0 5; 0 nil 4; c turns 1000; 0 get 6 1 0",
    "history 1 play; heap 2 0 1; 0 takes 5; 0 new 1 2 = 0.0; 0 new 2 2 = 0.1; 0 new 3 2 = 0.2; 0 set 2 0 3 = was -; 0 nil 3 = ok; c phase 1; c turns 2 = done; 0 answers 1; 0 poll = 1; c phase 2; c turns 2 = done; 0 answers 2; 0 poll = 2; c phase 3; c turns 2 = done; 0 answers 3; 0 poll = 3; c turns 81 = done; 0 get 4 2 0 = object 0.2 at 0:1; 0 set 1 0 4 = was -; 0 nil 5 = ok; 0 set 2 0 5 = was 0:1; 0 nil 4 = ok; c phase 4; c turns 1000 = waits 0 answered 3 phase 4; 0 get 6 1 0 = object 0.2 at 0:2; space used 16 of 32 spine 0 of 0; 0 gives back 2; 0 leave = ok; c phase 5; c phase 6; c ends 0 kept 14; c phase 8; c phase 9; c phase 10; c phase 11; c phase 12; c frees 14; c phase 13; c ends 1 kept 0; end used 0",
    "legal 40",
);

// A record of three fragments is dropped before the cycle begins. Marking ends in the third phase. The fourth is fifteen turns: a
// look, the group's load, the load of a first word for each of twelve marked fragments, which begin no array, and the advance. The
// fifth phase frees the three, which the next record takes again. In the sixth the marks are cleared and the cycle ends: the
// board's fragments, the first record's and the reserve's are taken, 13. Then the next cycle's rest waits for an answer.
const SWEPT: (&str, &str, &str) = (
    "schism 1; heap 1 0 1; 0 new 1 2; 0 new 2 8; 0 nil 2; c turns 2; 0 poll; c turns 2; 0 poll; c turns 2; 0 poll; c turns 1000; 0 poll; c turns 15; 0 new 3 5; 0 poll; c turns 1000; 0 poll; c turns 1000; 0 new 3 5",
    "history 1 play; heap 1 0 1; 0 takes 5; 0 new 1 2 = 0.0; 0 new 2 8 = 0.1; 0 nil 2 = ok; c phase 1; c turns 2 = done; 0 answers 1; 0 poll = 1; c phase 2; c turns 2 = done; 0 answers 2; 0 poll = 2; c phase 3; c turns 2 = done; 0 answers 3; 0 poll = 3; c phase 4; c turns 1000 = waits 0 answered 3 phase 4; 0 answers 4; 0 poll = 4; c phase 5; c turns 15 = done; 0 new 3 5 = full need 2 found 1; 0 answers 5; 0 poll = 5; c frees 3; c phase 6; c turns 1000 = waits 0 answered 5 phase 6; 0 answers 6; 0 poll = 6; c ends 0 kept 13; c turns 1000 = waits 0 answered 6 phase 7; 0 takes 3; 0 new 3 5 = 0.2; space used 16 of 16 spine 0 of 0; 0 gives back 2; 0 leave = ok; c phase 8; c phase 9; c phase 10; c phase 11; c phase 12; c frees 14; c phase 13; c ends 1 kept 0; end used 0",
    "legal 44",
);

#[test]
fn plays_turns(rt: HostRuntime) -> Result<(), Fail> {
    plays(&rt, rt.alloc(), &PLAYS)
}
