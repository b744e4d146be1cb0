//! Plays in which spines are copied into the other half of the spine space, and spine words are returned.

use super::several_seats::plays;
use std::test::Fail;

/// A script, the history of its play, and how many entries that has. Lines stand with "; " between them.
const PLAYS: [(&str, &str, &str); 3] = [SCATTERED, READER, ALL_LIVE];

// Four arrays of eight cells have three fragments and two spine words each. The first and the third are dropped, and the others
// swing to copies beside each other: so the four spine words of the fifth stand in a row. Its five fragments are those of the reserve.
const SCATTERED: (&str, &str, &str) = (
    "schism 1; heap 4 8 1; 0 array 1 8; 0 array 2 8; 0 array 3 8; 0 array 4 8; 0 nil 1; 0 nil 3; 0 collect; 0 array 5 16",
    "history 1 play; heap 4 8 1; 0 takes 5; 0 array 1 8 = 0.0; 0 takes 16; 0 array 2 8 = 0.1; 0 array 3 8 = 0.2; 0 array 4 8 = 0.3; 0 nil 1 = ok; 0 nil 3 = ok; c phase 1; 0 answers 1; c phase 2; 0 answers 2; c phase 3; 0 answers 3; c phase 4; 0 answers 4; c swings 0.1; c swings 0.3; c phase 5; 0 answers 5; c frees 3; c returns 2; c frees 3; c returns 2; c phase 6; 0 answers 6; c ends 0 kept 26; 0 collect = cycle 0; 0 array 5 16 = 0.4; space used 26 of 64 spine 8 of 8; 0 gives back 4; 0 leave = ok; c phase 8; c phase 9; c phase 10; c phase 11; c phase 12; c frees 13; c returns 2; c frees 9; c returns 6; c phase 13; c ends 1 kept 0; end used 0",
    "legal 42",
);

// A get before the seat's answer to the phase of copying, and one after the array has swung and before the answer to the sweep's
// phase, read the same cell. The seat leaves without that answer, so the cycle goes on.
const READER: (&str, &str, &str) = (
    "schism 1; heap 2 4 1; 0 array 1 4; 0 num 2 7; 0 set 1 3 2; c cycle; 0 poll; c cycle; 0 poll; c cycle; 0 poll; c cycle; 0 get 3 1 3; 0 poll; c cycle; 0 get 3 1 3",
    "history 1 play; heap 2 4 1; 0 takes 5; 0 array 1 4 = 0.0; 0 num 2 7 = ok; 0 set 1 3 2 = was -; c phase 1; c cycle = waits 0 answered 0 phase 1; 0 answers 1; 0 poll = 1; c phase 2; c cycle = waits 0 answered 1 phase 2; 0 answers 2; 0 poll = 2; c phase 3; c cycle = waits 0 answered 2 phase 3; 0 answers 3; 0 poll = 3; c phase 4; c cycle = waits 0 answered 3 phase 4; 0 get 3 1 3 = number 7 at 0:1; 0 answers 4; 0 poll = 4; c swings 0.0; c phase 5; c cycle = waits 0 answered 4 phase 5; 0 get 3 1 3 = number 7 at 0:1; space used 16 of 32 spine 1 of 4; 0 gives back 3; 0 leave = ok; c phase 6; c ends 0 kept 13; c phase 8; c phase 9; c phase 10; c phase 11; c phase 12; c frees 13; c returns 1; c phase 13; c ends 1 kept 0; end used 0",
    "legal 38",
);

// The four spine words of the budget are an array's of sixteen cells. It swings in two cycles, there and back, and no word is left for
// another array meanwhile. In the third cycle it is freed, and its words and fragments go to the next one.
const ALL_LIVE: (&str, &str, &str) = (
    "schism 1; heap 2 4 1; 0 array 1 16; 0 num 2 7; 0 set 1 15 2; 0 collect; 0 array 3 1; 0 get 4 1 15; 0 collect; 0 get 4 1 15; 0 nil 1; 0 collect; 0 array 3 16",
    "history 1 play; heap 2 4 1; 0 takes 5; 0 array 1 16 = 0.0; 0 num 2 7 = ok; 0 set 1 15 2 = was -; c phase 1; 0 answers 1; c phase 2; 0 answers 2; c phase 3; 0 answers 3; c phase 4; 0 answers 4; c swings 0.0; c phase 5; 0 answers 5; c phase 6; 0 answers 6; c ends 0 kept 16; 0 collect = cycle 0; 0 array 3 1 = spine need 1 used 4; 0 get 4 1 15 = number 7 at 0:1; 0 answers 7; c phase 8; 0 answers 8; c phase 9; 0 answers 9; c phase 10; 0 answers 10; c phase 11; 0 answers 11; c swings 0.0; c phase 12; 0 answers 12; c phase 13; 0 answers 13; c ends 1 kept 16; 0 collect = cycle 1; 0 get 4 1 15 = number 7 at 0:1; 0 nil 1 = ok; 0 answers 14; c phase 15; 0 answers 15; c phase 16; 0 answers 16; c phase 17; 0 answers 17; c phase 18; 0 answers 18; c phase 19; 0 answers 19; c frees 5; c returns 4; c phase 20; 0 answers 20; c ends 2 kept 11; 0 collect = cycle 2; 0 takes 5; 0 array 3 16 = 0.1; space used 16 of 32 spine 4 of 4; 0 leave = ok; c phase 22; c phase 23; c phase 24; c phase 25; c phase 26; c frees 16; c returns 4; c phase 27; c ends 3 kept 0; end used 0",
    "legal 68",
);

#[test]
fn plays_copies(rt: HostRuntime) -> Result<(), Fail> {
    plays(&rt, rt.alloc(), &PLAYS)
}
