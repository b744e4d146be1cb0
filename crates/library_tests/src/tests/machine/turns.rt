//! The turns of the collector and the answers of the seats up to the third phase, step by step.

use super::trial::tries;
use std::test::Fail;

/// Three rounds of a look, an advance and a poll: the seat answered 3, the board's head is marked and not scanned. Then
/// the collector marks, and the phase stays.
const THREE_PHASES: &[&str] = &[
    "c turn => stepped",
    "c turn => stepped; c phase 1",
    "phase => 1",
    "c turn => waits for 0 at 0 of 1",
    "0 poll => 0 answers 1; 0 poll = 1",
    "c turn => stepped",
    "c turn => stepped; c phase 2",
    "phase => 2",
    "c turn => waits for 0 at 1 of 2",
    "0 poll => 0 answers 2; 0 poll = 2",
    "c turn => stepped",
    "c turn => stepped; c phase 3",
    "phase => 3",
    "c turn => waits for 0 at 2 of 3",
    "0 poll => 0 answers 3; 0 poll = 3",
    "answer 0 => 3 at 1",
    "control 0 => 107ff07ff at 19",
    "c turn => stepped",
    "c turn => stepped",
    "phase => 3",
];

#[test]
fn answers_three_phases(rt: HostRuntime) -> Result<(), Fail> {
    tries(&rt, (1, 0, 1), THREE_PHASES)
}

/// In a cycle's third phase the registers' objects are shaded, register 0 first, before the answer is stored. The record
/// is the fragment 11.
const SHADED: &[&str] = &[
    "0 new 1 2 => 0 takes 5; 0 new 1 2 = 0.0",
    "0 copy 7 1 => 0 copy 7 1 = ok",
    "c turn => stepped",
    "c turn => stepped; c phase 1",
    "0 poll => 0 answers 1; 0 poll = 1",
    "c turn => stepped",
    "c turn => stepped; c phase 2",
    "0 poll => 0 answers 2; 0 poll = 2",
    "c turn => stepped",
    "c turn => stepped; c phase 3",
    "0 begin poll => true",
    "0 step => load the phase found 3",
    "0 step => shade 0 found fffffff",
    "0 step => shade 11 found 10fffffff",
    "0 step => shade 11 found 8010fffffff",
    "0 step => answer 0 3 found 2; 0 answers 3; 0 poll = 3",
];

#[test]
fn shades_the_registers(rt: HostRuntime) -> Result<(), Fail> {
    tries(&rt, (1, 0, 1), SHADED)
}

/// Births are black once the seat has answered a cycle's second phase: what it made before is taken and born, the fragment
/// 12 marked and scanned as well.
const BLACK_BIRTH: &[&str] = &[
    "c turn => stepped",
    "c turn => stepped; c phase 1",
    "0 poll => 0 answers 1; 0 poll = 1",
    "0 new 1 2 => 0 takes 5; 0 new 1 2 = 0.0",
    "control 0 => fffffff at 19",
    "c turn => stepped",
    "c turn => stepped; c phase 2",
    "0 poll => 0 answers 2; 0 poll = 2",
    "0 begin new 2 2 => true",
    "0 stores => 12: c000000200000000 c000000100000001 0 0",
    "0 step => last birth 0 1000 black found fffffff; 0 new 2 2 = 0.1",
    "control 0 => 100010001fffffff at 19",
];

#[test]
fn bears_black_after_the_second_phase(rt: HostRuntime) -> Result<(), Fail> {
    tries(&rt, (1, 0, 1), BLACK_BIRTH)
}

/// The collector looks at each seat in order, and at the one that it waits for again; a seat that left is passed.
const LOOKS: &[&str] = &[
    "1 begin leave => true",
    "1 step => leave 1 found 0; 1 leave = ok",
    "c step => look 0 found 0",
    "c step => look 1 found ffffffffffffffff",
    "c step => look 2 found 0",
    "c step => advance 1 found 0; c phase 1",
    "c step => look 0 found 0",
    "c step => look 0 found 0",
    "0 poll => 0 answers 1; 0 poll = 1",
    "c turn => stepped",
    "c turn => stepped",
    "c turn => waits for 2 at 0 of 1",
];

#[test]
fn looks_at_the_seats_in_order(rt: HostRuntime) -> Result<(), Fail> {
    tries(&rt, (1, 0, 3), LOOKS)
}
