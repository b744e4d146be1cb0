//! The inner calls of a collect, and which phase a seat has loaded last.

use super::trial::tries;
use std::test::Fail;

/// Each load of the phase is seen: that of a local command, of a reply without an object, of a poll, of a refused record and of a
/// look. A field that isn't there is found without one, and so is that an array lacks spine words.
const SEEN: &[&str] = &[
    "0 seen => 0",
    "c steps 2 => advance 1 found 0; c phase 1",
    "0 seen => 0",
    "0 nil 1 => 0 nil 1 = ok",
    "0 seen => 1",
    "0 poll => 0 answers 1; 0 poll = 1",
    "c steps 2 => advance 2 found 1; c phase 2",
    "0 len 2 => 0 len 2 = no object",
    "0 seen => 2",
    "0 poll => 0 answers 2; 0 poll = 2",
    "c steps 2 => advance 3 found 2; c phase 3",
    "0 get 3 0 40 => 0 get 3 0 40 = no field",
    "0 seen => 2",
    "0 poll => 0 answers 3; 0 poll = 3",
    "0 seen => 3",
    "c steps 80 => advance 4 found 3; c phase 4",
    "0 new 1 47 => 0 takes 5; 0 gives back 5; 0 new 1 47 = full need 16 found 5",
    "0 seen => 4",
    "0 poll => 0 answers 4; 0 poll = 4",
    "c steps 14 => advance 5 found 4; c phase 5",
    "0 array 1 1 => 0 array 1 1 = spine need 1 used 0",
    "0 seen => 4",
    "0 inner look => true",
    "0 seen => 5",
];

#[test]
fn sees_each_load_of_the_phase(rt: HostRuntime) -> Result<(), Fail> {
    tries(&rt, (1, 0, 1), SEEN)
}

/// A collect may tell that the cycle has ended that began after its first look: the answer to the phase behind it has shown that.
const ENDED: &[&str] = &[
    "0 inner look => true",
    "c steps 2 => advance 1 found 0; c phase 1",
    "0 inner answer => true; 0 answers 1",
    "c steps 2 => advance 2 found 1; c phase 2",
    "0 inner answer => true; 0 answers 2",
    "c steps 2 => advance 3 found 2; c phase 3",
    "0 inner answer => true; 0 answers 3",
    "c steps 80 => advance 4 found 3; c phase 4",
    "0 inner answer => true; 0 answers 4",
    "c steps 14 => advance 5 found 4; c phase 5",
    "0 inner answer => true; 0 answers 5",
    "c steps 3 => advance 6 found 5; c phase 6",
    "0 inner answer => true; 0 answers 6",
    "c steps 3 => end 7 kept 11 found 6; c ends 0 kept 11",
    "0 inner cycle 0 => false",
    "0 inner answer => true; 0 answers 7",
    "0 inner cycle 1 => false",
    "0 inner cycle 0 => true; 0 collect = cycle 0",
    "0 inner cycle 0 => false",
];

#[test]
fn notes_a_cycle_that_an_answer_has_shown(rt: HostRuntime) -> Result<(), Fail> {
    tries(&rt, (1, 0, 1), ENDED)
}
