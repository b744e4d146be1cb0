//! The words of the opening, and records that are made, step by step.

use super::trial::tries;
use std::test::Fail;

/// Where each word stands in the table, and what it is at the opening: the seats 0 and 1 have answered phase 0 and no other
/// seat is there, no spine word is granted and the next stands first in half 0, and the board is in the fragments 0 to 10.
/// The table ends at 165, and past its end 0 is read.
const OPENING: &[&str] = &[
    "free => 21",
    "phase => 0",
    "phase word => 0 at 0",
    "answer 0 => 0 at 1",
    "answer 1 => 0 at 2",
    "answer 2 => ffffffffffffffff at 3",
    "answer 15 => ffffffffffffffff at 16",
    "budget => 0 at 17",
    "spot => c000000000000000 at 18",
    "control 0 => 7ff07ff at 19",
    "control 1 => 0 at 20",
    "word 0 0 => c000002000000001 at 21",
    "word 0 1 => c000000000000000 at 22",
    "word 0 2 => 0 at 23",
    "word 1 0 => 8000000200000000 at 25",
    "word 9 0 => 8000000a00000000 at 57",
    "word 10 0 => 0 at 61",
    "word 11 0 => 0 at 65",
    "spine 7 0 => 0 at 156",
    "spine 7 1 => 0 at 164",
    "spine 8 0 => 0 at 165",
];

#[test]
fn opens_with_the_board(rt: HostRuntime) -> Result<(), Fail> {
    tries(&rt, (2, 4, 2), OPENING)
}

/// The reserve of 4, the fragments 12 to 15, stands where a record of 16 fragments is refused; a record of eleven fields is
/// then stored there without a claim.
const ONE_FRAGMENT: &[&str] = &[
    "0 new 1 2 => 0 takes 5; 0 new 1 2 = 0.0",
    "0 new 2 47 => 0 new 2 47 = full need 16 found 4",
    "0 begin new 1 11 => true",
    "0 stores => 12: c000000b0000000d c000000100000001 0 0",
    "0 stores => 13: 8000000e00000000 0 0 0",
    "0 stores => 14: 8000000f00000000 0 0 0",
    "0 stores => 15: 0 0 0 0",
    "0 step => last birth 0 f000 white found fffffff; 0 new 1 11 = 0.1",
];

#[test]
fn makes_a_record_of_one_fragment(rt: HostRuntime) -> Result<(), Fail> {
    tries(&rt, (1, 0, 1), ONE_FRAGMENT)
}

#[test]
fn makes_the_longest_record(rt: HostRuntime) -> Result<(), Fail> {
    let longest = "0 new 1 47 => 0 takes 5; 0 takes 16; 0 new 1 47 = 0.0";
    tries(&rt, (4, 0, 1), &[longest])
}

#[test]
fn gives_back_what_is_too_little(rt: HostRuntime) -> Result<(), Fail> {
    let refused = "0 new 1 47 => 0 takes 5; 0 gives back 5; 0 new 1 47 = full need 16 found 5";
    tries(&rt, (1, 8, 1), &[refused])
}

/// Two seats on two groups, whose steps alternate as written.
const BY_TURNS: &[&str] = &[
    "0 begin new 1 2 => true",
    "1 begin new 1 6 => true",
    "0 step => claim 0 found 7ff07ff; 0 takes 5",
    "1 step => claim 1 found 0; 1 takes 16",
    "0 step => store 11.0 c000000200000000 found 0",
    "1 step => store 16.0 c000000600000011 found 0",
    "1 step => store 16.1 c000000200000000 found 0",
    "0 step => store 11.1 c000000100000000 found 0",
    "0 step => store 11.2 0 found 0",
    "0 step => store 11.3 0 found 0",
    "1 step => store 16.2 0 found 0",
    "1 step => store 16.3 0 found 0",
    "1 step => store 17.0 8000001200000000 found 0",
    "0 step => last birth 0 800 white found 7ffffff; 0 new 1 2 = 0.0",
    "1 step => store 17.1 0 found 0",
    "1 step => store 17.2 0 found 0",
    "1 step => store 17.3 0 found 0",
    "1 stores => 18: 0 0 0 0",
    "1 step => last birth 1 7 white found ffff; 1 new 1 6 = 1.0",
];

#[test]
fn steps_seats_by_turns(rt: HostRuntime) -> Result<(), Fail> {
    tries(&rt, (2, 0, 2), BY_TURNS)
}

/// A gather that begins at the last group and wraps to the first, and births from the last group back to the first. The
/// first record takes 13 fragments of group 1, so that 3 are left; the second has 4, the 3 and one of group 0. The rest of
/// group 0, the fragments 12 to 15, is the reserve, and the cursor is group 0: there the claims of the record after the
/// next begin.
const WRAPPED: &[&str] = &[
    "1 new 1 38 => 1 takes 16; 1 new 1 38 = 1.0",
    "1 begin new 1 11 => true",
    "1 step => claim 1 found 1fffffff",
    "1 step => claim 0 found 7ff07ff; 1 takes 5",
    "1 stores => 29: c000000b0000001e c000000200000001 0 0",
    "1 stores => 30: 8000001f00000000 0 0 0",
    "1 stores => 31: 8000000b00000000 0 0 0",
    "1 stores => 11: 0 0 0 0",
    "1 step => birth 0 800 white found 7ffffff",
    "1 step => last birth 1 e000 white found 1fffffff; 1 new 1 11 = 1.1",
    "1 begin new 1 11 => true",
    "1 stores => 12: c000000b0000000d c000000200000002 0 0",
    "1 stores => 13: 8000000e00000000 0 0 0",
    "1 stores => 14: 8000000f00000000 0 0 0",
    "1 stores => 15: 0 0 0 0",
    "1 step => last birth 0 f000 white found fffffff; 1 new 1 11 = 1.2",
    "1 begin new 1 2 => true",
    "1 step => claim 0 found ffffffff",
];

#[test]
fn wraps_at_the_last_group(rt: HostRuntime) -> Result<(), Fail> {
    tries(&rt, (2, 0, 2), WRAPPED)
}
