//! Plays in which cycles of the collector end, by lines for it between the commands.

use super::several_seats::plays;
use std::test::Fail;

/// A script, the history of its play, and how many entries that has. Lines stand with "; " between them.
///
/// A cycle of the collector has the phases 0 to 6, the next one 7 to 13, and so on. `c cycle` makes turns up to the first
/// that waits or ends a cycle, and a seat answers the phase by a poll. What a cycle frees is told in its phase 5. Once all seats
/// have left, the cycle under way is brought to its end, and one more is made, which frees what is left. Where none is under
/// way, that one alone is made.
const PLAYS: [(&str, &str, &str); 2] = [RAGGED, TWO_CYCLES];

// Both seats have answered phase 0 from the start, so phase 1 begins, and the first seat is waited for. Once the second has answered
// the first is still behind; once that has too, phase 2 begins. The cycle under way ends once both have left, and one more is made
// of which nothing is left to free.
const RAGGED: (&str, &str, &str) = (
    "schism 1; heap 1 0 2; c cycle; 1 poll; c cycle; 0 poll; c cycle",
    "history 1 play; heap 1 0 2; c phase 1; c cycle = waits 0 answered 0 phase 1; 1 answers 1; 1 poll = 1; c cycle = waits 0 answered 0 phase 1; 0 answers 1; 0 poll = 1; c phase 2; c cycle = waits 0 answered 1 phase 2; space used 11 of 16 spine 0 of 0; 0 leave = ok; 1 leave = ok; c phase 3; c phase 4; c phase 5; c frees 11; c phase 6; c ends 0 kept 0; c phase 8; c phase 9; c phase 10; c phase 11; c phase 12; c phase 13; c ends 1 kept 0; end used 0",
    "legal 24",
);

// The first cycle frees a record, and the second nothing. Behind an end the next phase, one of rest, is to be answered first.
const TWO_CYCLES: (&str, &str, &str) = (
    "schism 1; heap 1 0 1; 0 new 1 2; 0 nil 1; c cycle; 0 poll; c cycle; 0 poll; c cycle; 0 poll; c cycle; 0 poll; c cycle; 0 poll; c cycle; 0 poll; c cycle; c cycle; 0 poll; c cycle; 0 poll; c cycle; 0 poll; c cycle; 0 poll; c cycle; 0 poll; c cycle; 0 poll; c cycle; 0 poll; c cycle",
    "history 1 play; heap 1 0 1; 0 takes 5; 0 new 1 2 = 0.0; 0 nil 1 = ok; c phase 1; c cycle = waits 0 answered 0 phase 1; 0 answers 1; 0 poll = 1; c phase 2; c cycle = waits 0 answered 1 phase 2; 0 answers 2; 0 poll = 2; c phase 3; c cycle = waits 0 answered 2 phase 3; 0 answers 3; 0 poll = 3; c phase 4; c cycle = waits 0 answered 3 phase 4; 0 answers 4; 0 poll = 4; c phase 5; c cycle = waits 0 answered 4 phase 5; 0 answers 5; 0 poll = 5; c frees 1; c phase 6; c cycle = waits 0 answered 5 phase 6; 0 answers 6; 0 poll = 6; c ends 0 kept 15; c cycle = cycle 0; c cycle = waits 0 answered 6 phase 7; 0 answers 7; 0 poll = 7; c phase 8; c cycle = waits 0 answered 7 phase 8; 0 answers 8; 0 poll = 8; c phase 9; c cycle = waits 0 answered 8 phase 9; 0 answers 9; 0 poll = 9; c phase 10; c cycle = waits 0 answered 9 phase 10; 0 answers 10; 0 poll = 10; c phase 11; c cycle = waits 0 answered 10 phase 11; 0 answers 11; 0 poll = 11; c phase 12; c cycle = waits 0 answered 11 phase 12; 0 answers 12; 0 poll = 12; c phase 13; c cycle = waits 0 answered 12 phase 13; 0 answers 13; 0 poll = 13; c ends 1 kept 15; c cycle = cycle 1; space used 15 of 16 spine 0 of 0; 0 gives back 4; 0 leave = ok; c phase 15; c phase 16; c phase 17; c phase 18; c phase 19; c frees 11; c phase 20; c ends 2 kept 0; end used 0",
    "legal 69",
);

#[test]
fn plays_cycles(rt: HostRuntime) -> Result<(), Fail> {
    plays(&rt, rt.alloc(), &PLAYS)
}
