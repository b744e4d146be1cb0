//! Scripts that are played, with their histories and what the check of these says, and one that is refused.

use super::several_seats::{ends_so, plays};
use crate::status::Status;
use script_text::Cause;
use std::test::Fail;

/// A script, the history of its play, and how many entries that has. Lines stand with "; " between them.
const PLAYS: [(&str, &str, &str); 9] = [
    (
        "schism 1; heap 1 0 1; 0 new 1 2; 0 num 2 9; 0 set 1 0 2; 0 get 3 1 0",
        "history 1 play; heap 1 0 1; 0 takes 5; 0 new 1 2 = 0.0; 0 num 2 9 = ok; 0 set 1 0 2 = was -; 0 get 3 1 0 = number 9 at 0:1; space used 16 of 16 spine 0 of 0; 0 gives back 4; 0 leave = ok; c phase 1; c phase 2; c phase 3; c phase 4; c phase 5; c frees 12; c phase 6; c ends 0 kept 0; end used 0",
        "legal 15",
    ),
    (
        "schism 1; heap 1 0 1",
        "history 1 play; heap 1 0 1; space used 11 of 16 spine 0 of 0; 0 leave = ok; c phase 1; c phase 2; c phase 3; c phase 4; c phase 5; c frees 11; c phase 6; c ends 0 kept 0; end used 0",
        "legal 9",
    ),
    (
        "schism 1; heap 1 0 1; 0 new 1 1; 0 new 1 1; 0 new 1 1; 0 new 1 1; 0 new 1 1; 0 new 1 1",
        "history 1 play; heap 1 0 1; 0 takes 5; 0 new 1 1 = 0.0; 0 new 1 1 = 0.1; 0 new 1 1 = 0.2; 0 new 1 1 = 0.3; 0 new 1 1 = 0.4; 0 new 1 1 = full need 1 found 0; space used 16 of 16 spine 0 of 0; 0 leave = ok; c phase 1; c phase 2; c phase 3; c phase 4; c phase 5; c frees 16; c phase 6; c ends 0 kept 0; end used 0",
        "legal 16",
    ),
    (
        "schism 1; heap 1 0 1; 0 get 1 0 32; 0 get 1 5 0; 0 len 0; 0 len 5; 0 copy 2 0; 0 same 0 2; 0 same 0 3; 0 poll",
        "history 1 play; heap 1 0 1; 0 get 1 0 32 = no field; 0 get 1 5 0 = no object; 0 len 0 = 32; 0 len 5 = no object; 0 copy 2 0 = ok; 0 same 0 2 = yes; 0 same 0 3 = no; 0 poll = 0; space used 11 of 16 spine 0 of 0; 0 leave = ok; c phase 1; c phase 2; c phase 3; c phase 4; c phase 5; c frees 11; c phase 6; c ends 0 kept 0; end used 0",
        "legal 17",
    ),
    (
        "schism 1; heap 1 0 1; 0 num 1 1073741823",
        "history 1 play; heap 1 0 1; 0 num 1 1073741823 = ok; space used 11 of 16 spine 0 of 0; 0 leave = ok; c phase 1; c phase 2; c phase 3; c phase 4; c phase 5; c frees 11; c phase 6; c ends 0 kept 0; end used 0",
        "legal 10",
    ),
    (
        "schism 1; heap 17 0 1; 0 num 1 1073741823; 0 set 0 31 1; 0 nil 1; 0 get 2 0 31",
        "history 1 play; heap 17 0 1; 0 num 1 1073741823 = ok; 0 set 0 31 1 = was -; 0 nil 1 = ok; 0 get 2 0 31 = number 1073741823 at 0:1; space used 11 of 272 spine 0 of 0; 0 leave = ok; c phase 1; c phase 2; c phase 3; c phase 4; c phase 5; c frees 11; c phase 6; c ends 0 kept 0; end used 0",
        "legal 13",
    ),
    (
        "schism 1; heap 1 0 1; 0 new 1 2; 0 new 2 47; 0 len 1",
        "history 1 play; heap 1 0 1; 0 takes 5; 0 new 1 2 = 0.0; 0 new 2 47 = full need 16 found 4; 0 len 1 = 2; space used 16 of 16 spine 0 of 0; 0 gives back 4; 0 leave = ok; c phase 1; c phase 2; c phase 3; c phase 4; c phase 5; c frees 12; c phase 6; c ends 0 kept 0; end used 0",
        "legal 14",
    ),
    CHAIN,
    (
        "schism 1; heap 4 0 2; 0 new 1 2; 1 new 1 2; 0 num 2 7; 0 set 0 3 2; 1 get 3 0 3; 1 set 0 3 1; 0 get 4 0 3",
        "history 1 play; heap 4 0 2; 0 takes 5; 0 new 1 2 = 0.0; 1 takes 16; 1 new 1 2 = 1.0; 0 num 2 7 = ok; 0 set 0 3 2 = was -; 1 get 3 0 3 = number 7 at 0:1; 1 set 0 3 1 = was 0:1; 0 get 4 0 3 = object 1.0 at 1:1; space used 32 of 64 spine 0 of 0; 0 gives back 4; 0 leave = ok; 1 gives back 15; 1 leave = ok; c phase 1; c phase 2; c phase 3; c phase 4; c phase 5; c frees 12; c frees 1; c phase 6; c ends 0 kept 0; end used 0",
        "legal 22",
    ),
];

// A record with as many fields as there may be, of which the last stands in the last fragment of its chain.
pub(super) const CHAIN: (&str, &str, &str) = (
    "schism 1; heap 4 0 1; 0 new 1 47; 0 num 2 9; 0 set 1 46 2; 0 get 3 1 46; 0 set 1 47 2",
    "history 1 play; heap 4 0 1; 0 takes 5; 0 takes 16; 0 new 1 47 = 0.0; 0 num 2 9 = ok; 0 set 1 46 2 = was -; 0 get 3 1 46 = number 9 at 0:1; 0 set 1 47 2 = no field; space used 32 of 64 spine 0 of 0; 0 gives back 5; 0 leave = ok; c phase 1; c phase 2; c phase 3; c phase 4; c phase 5; c frees 16; c frees 11; c phase 6; c ends 0 kept 0; end used 0",
    "legal 18",
);

#[test]
fn plays_scripts_and_checks_the_plays(rt: HostRuntime) -> Result<(), Fail> {
    plays(&rt, rt.alloc(), &PLAYS)
}

#[test]
fn refuses_a_number_that_begins_with_a_zero(rt: HostRuntime) -> Result<(), Fail> {
    let text = "schism 1\nheap 1 0 1\n0 poll\n0 num 1 01\n";
    let rows = [(text, refused!(4, Cause::BadNumber), "")];
    ends_so(&rt, rt.alloc(), "play", &rows)
}
