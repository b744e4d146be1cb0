//! The sweep and the clearing of the collector, step by step.

use super::trial::tries;
use std::test::Fail;

/// One group: the board in the fragments 0 to 10, a record of two fields in 11, which a register holds, and one of eight
/// fields in 12, 13 and 14, which nothing holds any longer. The fragment 15 is the seat's reserve. A control word has
/// scanned, marked, born and taken bits, from the left.
///
/// The board's scans are 75 turns: 6 for its head, 7 for each of nine fragments and 6 for its last one, the group's load
/// after each counted in. The record's are 3 loads, and it is told to be scanned.
///
/// Then the flip lets the next spine begin in the other half of the spine space, which has no words here. Of the twelve marked
/// fragments copying loads the first words, and finds no array.
///
/// The sweep finds 12 to 14 born and not marked, looks at their first words, a meta, a link and the last link, and frees
/// them. What isn't born stays. As the marks are cleared the board's fragments, 11 and 15 are taken, and so 13 are kept.
///
/// Then the seat takes 12 to 14 again, makes a record of five fields in 15 and 12, and lets go of both records. The next
/// cycle marks the board alone. It finds 11, 12 and 15 dead, a meta, a last link and a meta, and frees 12 for the second
/// time. The reserve, 13 and 14, stays, and with the board's fragments 13 are kept again. The seat takes what was freed, and
/// makes a record of 13, 14 and 11.
const TWO_CYCLES: &[&str] = &[
    "0 new 1 2 => 0 takes 5; 0 new 1 2 = 0.0",
    "0 new 2 8 => 0 new 2 8 = 0.1",
    "0 nil 2 => 0 nil 2 = ok",
    "control 0 => 7fffffff at 19",
    "three phases",
    "c step => look 0 found 3",
    "c step => group 0 found 8017fffffff",
    "c steps 75 => group 0 found 7ff0fff7fffffff",
    "c steps 4 => blacken 11 found 7ff0fff7fffffff",
    "c step => group 0 found fff0fff7fffffff",
    "c step => group 0 found fff0fff7fffffff",
    "c step => flip 1 found c000000000000000",
    "c step => advance 4 found 3; c phase 4",
    "c turn => waits for 0 at 3 of 4",
    "0 poll => 0 answers 4; 0 poll = 4",
    "c step => look 0 found 4",
    "c step => group 0 found fff0fff7fffffff",
    "c step => meta 0 found c000002000000001",
    "c steps 11 => meta 11 found c000000200000000",
    "c step => advance 5 found 4; c phase 5",
    "c turn => waits for 0 at 4 of 5",
    "0 poll => 0 answers 5; 0 poll = 5",
    "c step => look 0 found 5",
    "c step => group 0 found fff0fff7fffffff",
    "c step => meta 12 found c00000080000000d",
    "c step => meta 13 found 8000000e00000000",
    "c step => meta 14 found 0",
    "free => 0",
    "c step => free 0 7000 found fff0fff7fffffff; c frees 3",
    "control 0 => fff0fff0fff8fff at 19",
    "free => 3",
    "c step => advance 6 found 5; c phase 6",
    "0 poll => 0 answers 6; 0 poll = 6",
    "c step => look 0 found 6",
    "c step => clear 0 found fff0fff0fff8fff",
    "control 0 => fff8fff at 19",
    "c step => end 7 kept 13 found 6; c ends 0 kept 13",
    "phase => 7",
    "c turn => waits for 0 at 6 of 7",
    "0 new 3 5 => 0 takes 3; 0 new 3 5 = 0.2",
    "control 0 => 9fffffff at 19",
    "free => 0",
    "0 nil 1 => 0 nil 1 = ok",
    "0 nil 3 => 0 nil 3 = ok",
    "three phases more",
    "c step => look 0 found a",
    "c step => group 0 found 19fffffff",
    "c steps 75 => group 0 found 7ff07ff9fffffff",
    "c step => group 0 found 7ff07ff9fffffff",
    "c step => flip 0 found c000000100000000",
    "c step => advance 11 found a; c phase 11",
    "0 poll => 0 answers 11; 0 poll = 11",
    "c steps 14 => advance 12 found b; c phase 12",
    "0 poll => 0 answers 12; 0 poll = 12",
    "c step => look 0 found c",
    "c step => group 0 found 7ff07ff9fffffff",
    "c step => meta 11 found c000000200000000",
    "c step => meta 12 found 0",
    "c step => meta 15 found c00000050000000c",
    "c step => free 0 9800 found 7ff07ff9fffffff; c frees 3",
    "control 0 => 7ff07ff07ff67ff at 19",
    "free => 3",
    "c step => advance 13 found c; c phase 13",
    "0 poll => 0 answers 13; 0 poll = 13",
    "c step => look 0 found d",
    "c step => clear 0 found 7ff07ff07ff67ff",
    "control 0 => 7ff67ff at 19",
    "c turn => ended 1 kept 13; c ends 1 kept 13",
    "phase => 14",
    "c turn => waits for 0 at 13 of 14",
    "0 new 4 8 => 0 takes 3; 0 new 4 8 = 0.3",
    "control 0 => 6fffffff at 19",
    "free => 0",
];

#[test]
fn frees_again_in_the_next_cycle(rt: HostRuntime) -> Result<(), Fail> {
    tries(&rt, (1, 0, 1), TWO_CYCLES)
}

/// Two groups, and a seat that has left. A record of seventeen fields in the fragments 11 to 16 leads to one in 18, and
/// nothing holds either; the board's field 0 leads to one in 17. The seat's reserve is 19 to 31.
///
/// The board's scans are 76 turns here, with the mark of 17. That one is found by the same pass in group 1, and the next
/// pass finds nothing. The sweep frees 11 to 15 in group 0, and 16 and 18 in group 1. As the marks are cleared 11
/// fragments are taken in group 0 and 14 in group 1, all but those two: 25 are kept.
const TWO_GROUPS: &[&str] = &[
    "1 leave => 1 leave = ok",
    "0 new 1 17 => 0 takes 5; 0 takes 16; 0 new 1 17 = 0.0",
    "0 new 2 2 => 0 new 2 2 = 0.1",
    "0 new 3 2 => 0 new 3 2 = 0.2",
    "0 set 1 0 3 => 0 set 1 0 3 = was -",
    "0 set 0 0 2 => 0 set 0 0 2 = was -",
    "0 nil 1 => 0 nil 1 = ok",
    "0 nil 2 => 0 nil 2 = ok",
    "0 nil 3 => 0 nil 3 = ok",
    "c steps 3 => advance 1 found 0; c phase 1",
    "0 poll => 0 answers 1; 0 poll = 1",
    "c steps 3 => advance 2 found 1; c phase 2",
    "0 poll => 0 answers 2; 0 poll = 2",
    "c steps 3 => advance 3 found 2; c phase 3",
    "0 poll => 0 answers 3; 0 poll = 3",
    "c steps 2 => look 1 found ffffffffffffffff",
    "c step => group 0 found 1ffffffff",
    "c steps 76 => group 0 found 7ff07ffffffffff",
    "c step => group 1 found 20007ffff",
    "c steps 4 => blacken 17 found 20007ffff",
    "c step => group 1 found 200020007ffff",
    "c step => group 0 found 7ff07ffffffffff",
    "c step => group 1 found 200020007ffff",
    "c step => flip 1 found c000000000000000",
    "c step => advance 4 found 3; c phase 4",
    "0 poll => 0 answers 4; 0 poll = 4",
    "c steps 3 => group 0 found 7ff07ffffffffff",
    "c steps 12 => group 1 found 200020007ffff",
    "c step => meta 17 found c000000200000000",
    "c step => advance 5 found 4; c phase 5",
    "0 poll => 0 answers 5; 0 poll = 5",
    "c steps 2 => look 1 found ffffffffffffffff",
    "c step => group 0 found 7ff07ffffffffff",
    "c step => meta 11 found c00000110000000c",
    "c step => meta 12 found 8000000d00000000",
    "c step => meta 13 found 8000000e00000000",
    "c step => meta 14 found 8000000f00000000",
    "c step => meta 15 found 8000001000000000",
    "c step => free 0 f800 found 7ff07ffffffffff; c frees 5",
    "c step => group 1 found 200020007ffff",
    "c step => meta 16 found 0",
    "c step => meta 18 found c000000200000000",
    "c step => free 1 5 found 200020007ffff; c frees 2",
    "free => 7",
    "c step => advance 6 found 5; c phase 6",
    "0 poll => 0 answers 6; 0 poll = 6",
    "c steps 2 => look 1 found ffffffffffffffff",
    "c step => clear 0 found 7ff07ff07ff07ff",
    "c step => clear 1 found 200020002fffa",
    "control 0 => 7ff07ff at 19",
    "control 1 => 2fffa at 20",
    "c step => end 7 kept 25 found 6; c ends 0 kept 25",
    "phase => 7",
];

#[test]
fn frees_in_two_groups(rt: HostRuntime) -> Result<(), Fail> {
    tries(&rt, (2, 0, 2), TWO_GROUPS)
}

/// One group and two seats. Seat 1 makes a record of two fields in the fragment 11, to which the board's field 0 leads, and
/// one of five fields in 12 and 13, which only its register holds; its reserve is 14 and 15. The collector waits for it in
/// the phase of marking, as it leaves without an answer: so its registers' objects aren't marked by it, and it gives back
/// its reserve.
///
/// The board's scans are 76 turns, with the mark of 11. The sweep finds 12 and 13, a meta and the last link. 12 fragments
/// are kept: the board's and 11. Seat 0 still gets the record in 11 from the board, and takes all that is free.
const A_LEAVE: &[&str] = &[
    "1 new 1 2 => 1 takes 5; 1 new 1 2 = 1.0",
    "1 new 2 5 => 1 new 2 5 = 1.1",
    "1 set 0 0 1 => 1 set 0 0 1 = was -",
    "two phases of a pair",
    "c steps 3 => advance 3 found 2; c phase 3",
    "0 poll => 0 answers 3; 0 poll = 3",
    "c turn => stepped",
    "c turn => waits for 1 at 2 of 3",
    "1 leave => 1 gives back 2; 1 leave = ok",
    "c step => look 1 found ffffffffffffffff",
    "c step => group 0 found 13fff3fff",
    "c steps 76 => group 0 found 7ff0fff3fff3fff",
    "c steps 4 => blacken 11 found 7ff0fff3fff3fff",
    "c step => group 0 found fff0fff3fff3fff",
    "c step => group 0 found fff0fff3fff3fff",
    "c step => flip 1 found c000000000000000",
    "c step => advance 4 found 3; c phase 4",
    "0 poll => 0 answers 4; 0 poll = 4",
    "c steps 16 => advance 5 found 4; c phase 5",
    "0 poll => 0 answers 5; 0 poll = 5",
    "c steps 2 => look 1 found ffffffffffffffff",
    "c step => group 0 found fff0fff3fff3fff",
    "c step => meta 12 found c00000050000000d",
    "c step => meta 13 found 0",
    "c step => free 0 3000 found fff0fff3fff3fff; c frees 2",
    "control 0 => fff0fff0fff0fff at 19",
    "free => 4",
    "c step => advance 6 found 5; c phase 6",
    "0 poll => 0 answers 6; 0 poll = 6",
    "c steps 2 => look 1 found ffffffffffffffff",
    "c step => clear 0 found fff0fff0fff0fff",
    "control 0 => fff0fff at 19",
    "c step => end 7 kept 12 found 6; c ends 0 kept 12",
    "phase => 7",
    "c turn => waits for 0 at 6 of 7",
    "0 get 1 0 0 => 0 get 1 0 0 = object 1.0 at 1:1",
    "0 new 2 5 => 0 takes 4; 0 new 2 5 = 0.0",
    "control 0 => 3fffffff at 19",
    "0 poll => 0 answers 7; 0 poll = 7",
    "c steps 2 => look 1 found ffffffffffffffff",
    "c step => advance 8 found 7; c phase 8",
];

#[test]
fn ends_a_cycle_in_which_a_seat_leaves(rt: HostRuntime) -> Result<(), Fail> {
    tries(&rt, (1, 0, 2), A_LEAVE)
}
