//! Spines that are copied while seats read them, step by step.

use super::trial::tries;
use std::test::Fail;

/// One group, two spine words and one seat. An array of five cells in the fragments 11 to 13 has the spine words 0 and 1 of half 0.
/// Marking takes 98 turns: the look, the group's load, 75 for the board, 8 for the array's first fragment, 6 for each of its
/// payload fragments, the group's load after each counted in, and the load of the next pass. Then the flip: the next spine begins
/// in half 1.
///
/// Copying looks at the first words of the eleven fragments of the board, and then finds the array. A get has loaded the place of the spine
/// when it is copied into the words 0 and 1 of half 1; it still finds its cell through the old words after the array has swung,
/// and the next get does so through the new ones. Nothing is dead then.
///
/// In the next cycle nothing holds the array. The flip goes back to half 0, nothing is copied, and the sweep frees the three
/// fragments and then returns the two spine words.
const COPIED: &[&str] = &[
    "0 array 1 5 => 0 takes 5; 0 array 1 5 = 0.0",
    "0 num 2 7 => 0 num 2 7 = ok",
    "0 set 1 4 2 => 0 set 1 4 2 = was -",
    "three phases",
    "c steps 98 => group 0 found 3fff3fff3fffffff",
    "c step => flip 1 found c000000000000002",
    "spot => c000000100000000 at 18",
    "c step => advance 4 found 3; c phase 4",
    "c turn => waits for 0 at 3 of 4",
    "0 poll => 0 answers 4; 0 poll = 4",
    "c steps 2 => group 0 found 3fff3fff3fffffff",
    "c step => meta 0 found c000002000000001",
    "c steps 10 => meta 10 found 0",
    "c step => meta 11 found e000000500000000",
    "c step => name 11 found c000000100000000",
    "c step => locate 11 found c000000000000000",
    "0 begin get 3 1 4 => true",
    "0 step => walk 11 found e000000500000000",
    "0 step => locate 11 found c000000000000000",
    "c step => copy 2 found c000000100000000",
    "spot => c000000100000002 at 18",
    "c step => read 0.0 found c000000c00000000",
    "c step => write 1.0 c000000c00000000 found 0",
    "c step => read 0.1 found c000000d00000000",
    "c step => write 1.1 c000000d00000000 found 0",
    "word 11 2 => c000000000000000 at 66",
    "c step => swing 11 c000000100000000 found c000000000000000; c swings 0.0",
    "word 11 2 => c000000100000000 at 66",
    "spine 0 0 => c000000c00000000 at 84",
    "spine 1 0 => c000000d00000000 at 85",
    "spine 0 1 => c000000c00000000 at 88",
    "spine 1 1 => c000000d00000000 at 89",
    "budget => 2 at 17",
    "0 step => index 0.1 found c000000d00000000",
    "0 step => get 13.0 found 4000000704000001; 0 get 3 1 4 = number 7 at 0:1",
    "0 begin get 3 1 4 => true",
    "0 step => walk 11 found e000000500000000",
    "0 step => locate 11 found c000000100000000",
    "0 step => index 1.1 found c000000d00000000",
    "0 step => get 13.0 found 4000000704000001; 0 get 3 1 4 = number 7 at 0:1",
    "c step => meta 12 found 0",
    "c step => meta 13 found 4000000704000001",
    "c step => advance 5 found 4; c phase 5",
    "0 poll => 0 answers 5; 0 poll = 5",
    "c steps 3 => advance 6 found 5; c phase 6",
    "0 poll => 0 answers 6; 0 poll = 6",
    "c steps 3 => end 7 kept 16 found 6; c ends 0 kept 16",
    "0 nil 1 => 0 nil 1 = ok",
    "three phases more",
    "c steps 78 => group 0 found 7ff07ff3fffffff",
    "c step => flip 0 found c000000100000002",
    "c step => advance 11 found a; c phase 11",
    "0 poll => 0 answers 11; 0 poll = 11",
    "c steps 14 => advance 12 found b; c phase 12",
    "0 poll => 0 answers 12; 0 poll = 12",
    "c steps 2 => group 0 found 7ff07ff3fffffff",
    "c step => meta 11 found e000000500000000",
    "c steps 2 => meta 13 found 4000000704000001",
    "c step => free 0 3800 found 7ff07ff3fffffff; c frees 3",
    "budget => 2 at 17",
    "c step => return 2 found 2; c returns 2",
    "budget => 0 at 17",
    "spot => c000000000000000 at 18",
    "c step => advance 13 found c; c phase 13",
];

#[test]
fn copies_a_spine_under_a_reader(rt: HostRuntime) -> Result<(), Fail> {
    tries(&rt, (1, 2, 1), COPIED)
}

/// Two groups, four spine words and two seats. Seat 0 has an array of four cells in the fragments 11 and 12. Before the flip it loads
/// the place of its spine for a get, and seat 1 claims the spine word 1 of half 0 for an array in the fragments 16 and 17. Marking
/// scans the board, 11 and 12.
///
/// After the flip the get still reads its cell. Seat 0 makes another array, in 13 and 14, whose spine word is the first of half 1; seat 1's
/// is born with its word in half 0. Both are black. Once both seats have answered, copying leaves the array at 13 where it is, and
/// copies the two others' words behind its.
const BOTH_SIDES: &[&str] = &[
    "0 array 1 4 => 0 takes 5; 0 array 1 4 = 0.0",
    "two phases of a pair",
    "c steps 3 => advance 3 found 2; c phase 3",
    "0 poll => 0 answers 3; 0 poll = 3",
    "1 poll => 1 answers 3; 1 poll = 3",
    "1 begin array 1 4 => true",
    "1 step => grant 1 found 1",
    "1 step => claim 1 found 0; 1 takes 16",
    "1 step => place 1 found c000000000000001",
    "0 begin get 2 1 0 => true",
    "0 step => walk 11 found e000000400000000",
    "0 step => locate 11 found c000000000000000",
    "c steps 3 => group 0 found 8011fffffff",
    "c steps 75 => group 0 found 7ff0fff1fffffff",
    "c steps 12 => group 0 found 1fff1fff1fffffff",
    "c steps 3 => group 1 found ffff",
    "c step => flip 1 found c000000000000002",
    "c step => advance 4 found 3; c phase 4",
    "0 step => index 0.0 found c000000c00000000",
    "0 step => get 12.0 found 0; 0 get 2 1 0 = nil at -",
    "0 begin array 3 4 => true",
    "0 step => grant 1 found 2",
    "0 step => place 1 found c000000100000000",
    "0 step => list 1.0 14 found 0",
    "0 stores => 13: e000000400000000 c000000100000001 c000000100000000 c000000000000000",
    "0 stores => 14: 0 0 0 0",
    "0 step => last birth 0 6000 black found 1fff1fff1fffffff; 0 array 3 4 = 0.1",
    "1 step => list 0.1 17 found 0",
    "1 stores => 16: e000000400000000 c000000200000000 c000000000000001 c000000000000000",
    "1 stores => 17: 0 0 0 0",
    "1 step => last birth 1 3 black found ffff; 1 array 1 4 = 1.0",
    "0 poll => 0 answers 4; 0 poll = 4",
    "c turn => stepped",
    "c turn => waits for 1 at 3 of 4",
    "1 poll => 1 answers 4; 1 poll = 4",
    "c step => look 1 found 4",
    "c step => group 0 found 7fff7fff7fffffff",
    "c steps 11 => meta 10 found 0",
    "c steps 3 => locate 11 found c000000000000000",
    "c step => copy 1 found c000000100000001",
    "c steps 2 => write 1.1 c000000c00000000 found 0",
    "c step => swing 11 c000000100000001 found c000000000000000; c swings 0.0",
    "c step => meta 12 found 0",
    "c steps 3 => locate 13 found c000000100000000",
    "c step => meta 14 found 0",
    "c step => group 1 found 300030003ffff",
    "c steps 3 => locate 16 found c000000000000001",
    "c step => copy 1 found c000000100000002",
    "c steps 2 => write 1.2 c000001100000000 found 0",
    "c step => swing 16 c000000100000002 found c000000000000001; c swings 1.0",
    "c step => meta 17 found 0",
    "c step => advance 5 found 4; c phase 5",
    "spot => c000000100000003 at 18",
    "budget => 3 at 17",
    "0 len 3 => 0 len 3 = 4",
    "1 set 1 3 1 => 1 set 1 3 1 = was -",
    "1 get 2 1 3 => 1 get 2 1 3 = object 1.0 at 1:1",
];

#[test]
fn bears_arrays_on_both_sides_of_the_flip(rt: HostRuntime) -> Result<(), Fail> {
    tries(&rt, (2, 4, 2), BOTH_SIDES)
}
