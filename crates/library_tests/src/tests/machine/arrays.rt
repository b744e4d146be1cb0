//! Arrays that are made, taken back and scanned, step by step.

use super::trial::tries;
use std::test::Fail;

/// Two arrays of five cells. The first has the fragments 11 to 13 and the spine words 0 and 1. For the second the reserve has the
/// fragments 14 and 15, and the last one is claimed in group 1: so its payload fragments are 15 and 16, and two steps bear it. Its
/// cells 3 and 4 stand in these. Then no spine word is left.
const TWO_GROUPS: &[&str] = &[
    "0 array 1 5 => 0 takes 5; 0 array 1 5 = 0.0",
    "0 begin array 2 5 => true",
    "0 step => grant 2 found 2",
    "0 step => claim 0 found 3fffffff",
    "0 step => claim 1 found 0; 0 takes 16",
    "0 step => place 2 found c000000000000002",
    "0 step => list 0.2 15 found 0",
    "0 step => list 0.3 16 found 0",
    "0 stores => 14: e000000500000000 c000000100000001 c000000000000002 c000000000000000",
    "0 stores => 15: 0 0 0 0",
    "0 stores => 16: 0 0 0 0",
    "0 step => birth 1 1 white found ffff",
    "0 step => last birth 0 c000 white found 3fffffff; 0 array 2 5 = 0.1",
    "budget => 4 at 17",
    "spot => c000000000000004 at 18",
    "control 0 => ffffffff at 19",
    "control 1 => 1ffff at 20",
    "word 11 0 => e000000500000000 at 65",
    "word 11 1 => c000000100000000 at 66",
    "word 11 2 => c000000000000000 at 67",
    "word 11 3 => c000000000000000 at 68",
    "word 14 0 => e000000500000000 at 77",
    "word 14 1 => c000000100000001 at 78",
    "word 14 2 => c000000000000002 at 79",
    "word 14 3 => c000000000000000 at 80",
    "word 15 3 => 0 at 84",
    "word 16 0 => 0 at 85",
    "spine 0 0 => c000000c00000000 at 149",
    "spine 1 0 => c000000d00000000 at 150",
    "spine 2 0 => c000000f00000000 at 151",
    "spine 3 0 => c000001000000000 at 152",
    "0 num 3 5 => 0 num 3 5 = ok",
    "0 begin set 2 4 3 => true",
    "0 step => walk 14 found e000000500000000",
    "0 step => locate 14 found c000000000000002",
    "0 step => index 0.3 found c000001000000000",
    "0 step => swap 16.0 4000000504000001 found 0; 0 set 2 4 3 = was -",
    "0 begin get 4 2 4 => true",
    "0 step => walk 14 found e000000500000000",
    "0 step => locate 14 found c000000000000002",
    "0 step => index 0.3 found c000001000000000",
    "0 step => get 16.0 found 4000000504000001; 0 get 4 2 4 = number 5 at 0:1",
    "0 begin get 4 2 3 => true",
    "0 step => walk 14 found e000000500000000",
    "0 step => locate 14 found c000000000000002",
    "0 step => index 0.2 found c000000f00000000",
    "0 step => get 15.3 found 0; 0 get 4 2 3 = nil at -",
    "0 begin get 4 2 5 => true",
    "0 step => walk 14 found e000000500000000; 0 get 4 2 5 = no field",
    "0 begin array 5 1 => true",
    "0 step => grant 1 found 4",
    "budget => 5 at 17",
    "0 step => take back 1 found 5; 0 array 5 1 = spine need 1 used 4",
    "budget => 4 at 17",
];

#[test]
fn makes_an_array_in_two_groups(rt: HostRuntime) -> Result<(), Fail> {
    tries(&rt, (2, 4, 1), TWO_GROUPS)
}

/// An array whose fragments are too many gives back what it claimed, and then its spine words, with the step that tells the refusal.
const TOO_LARGE: &[&str] = &[
    "0 begin array 1 20 => true",
    "0 step => grant 5 found 0",
    "0 step => claim 0 found 7ff07ff; 0 takes 5",
    "0 step => give back 0 f800 found 7ffffff; 0 gives back 5",
    "budget => 5 at 17",
    "0 step => take back 5 found 5; 0 array 1 20 = full need 6 found 5",
    "budget => 0 at 17",
    "spot => c000000000000000 at 18",
];

#[test]
fn takes_spine_words_back(rt: HostRuntime) -> Result<(), Fail> {
    tries(&rt, (1, 8, 1), TOO_LARGE)
}

/// An array of five cells in the fragments 11 to 13, whose last cell, in the fragment 13, refers to it. A register holds it, so its
/// first fragment is grey as marking begins; the board is scanned in the next 75 turns. Then the array's first fragment: its
/// meta, the place of its spine, and each spine word before the fragment that it names is marked. The payload fragments have four
/// words of cells each. The next pass finds nothing: the flip comes, and the next phase begins.
const SCANNED: &[&str] = &[
    "0 array 1 5 => 0 takes 5; 0 array 1 5 = 0.0",
    "0 set 1 4 1 => 0 set 1 4 1 = was -",
    "three phases",
    "c step => look 0 found 3",
    "c step => group 0 found 8013fffffff",
    "c steps 75 => group 0 found 7ff0fff3fffffff",
    "c step => scan 11.0 found e000000500000000",
    "c step => locate 11 found c000000000000000",
    "c step => index 0.0 found c000000c00000000",
    "c step => mark 12 found 7ff0fff3fffffff",
    "c step => index 0.1 found c000000d00000000",
    "c step => mark 13 found 7ff1fff3fffffff",
    "c step => blacken 11 found 7ff3fff3fffffff",
    "c step => group 0 found fff3fff3fffffff",
    "c step => scan 12.0 found 0",
    "c step => scan 12.1 found 0",
    "c step => scan 12.2 found 0",
    "c step => scan 12.3 found 0",
    "c step => blacken 12 found fff3fff3fffffff",
    "c step => group 0 found 1fff3fff3fffffff",
    "c step => scan 13.0 found 8000000b04000001",
    "c step => mark 11 found 1fff3fff3fffffff",
    "c step => scan 13.1 found 0",
    "c step => scan 13.2 found 0",
    "c step => scan 13.3 found 0",
    "c step => blacken 13 found 1fff3fff3fffffff",
    "c step => group 0 found 3fff3fff3fffffff",
    "c step => group 0 found 3fff3fff3fffffff",
    "c step => flip 1 found c000000000000002",
    "c step => advance 4 found 3; c phase 4",
];

#[test]
fn scans_a_spine(rt: HostRuntime) -> Result<(), Fail> {
    tries(&rt, (1, 2, 1), SCANNED)
}
