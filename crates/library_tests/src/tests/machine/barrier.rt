//! The barrier of a set beside the marking of the collector, step by step.

use super::trial::tries;
use std::test::Fail;

/// A set takes an unmarked object out of the one field that leads to it, while the collector scans.
///
/// The fragments of group 0 are the board's (0 to 10) and those of four records of seat 0, one each: 11, to which the board's
/// field 0 leads; 12, to which only field 0 of 11 leads; 13, to which nothing leads; and 14, made after the seat's answer to
/// black births. The fragment 15 stays in reserve. The answers that begin marking shade the board's head, 11 and 14.
///
/// The collector has scanned the board's head and loaded the link of the fragment 1, but not yet marked the fragment 2. Seat 1
/// has got 12 into a register. The set of seat 0 has loaded the field of 11 and not yet shaded 12. The control word says then,
/// scanned, marked, born and taken from the left:
///
/// - scanned 4001: the fragments 0 and 14, which are black
/// - marked 4803: these, and 1 and 11, which are grey
/// - born 7fff: 0 to 14, so that 12 and 13 are white, and 2 to 10 too
/// - taken ffff: 15 too, which isn't born
///
/// The set shades 12 and takes the reference out, so the scan of 11 finds nothing there. At the end 0 to 12 and 14 are marked
/// and scanned (5fff), and the fragment 13 is neither.
const TAKEN_OUT: &[&str] = &[
    "0 new 1 2 => 0 takes 5; 0 new 1 2 = 0.0",
    "0 new 2 2 => 0 new 2 2 = 0.1",
    "0 set 1 0 2 => 0 set 1 0 2 = was -",
    "0 set 0 0 1 => 0 set 0 0 1 = was -",
    "0 new 2 2 => 0 new 2 2 = 0.2",
    "0 nil 2 => 0 nil 2 = ok",
    "1 get 1 0 0 => 1 get 1 0 0 = object 0.0 at 0:2",
    "two phases of a pair",
    "0 new 2 2 => 0 new 2 2 = 0.3",
    "c steps 3 => advance 3 found 2; c phase 3",
    "0 poll => 0 answers 3; 0 poll = 3",
    "1 poll => 1 answers 3; 1 poll = 3",
    "c steps 2 => look 1 found 3",
    "c step => group 0 found 400048017fffffff",
    "c step => scan 0.0 found c000002000000001",
    "c step => mark 1 found 400048017fffffff",
    "c step => scan 0.2 found 8000000b04000002",
    "c step => mark 11 found 400048037fffffff",
    "c step => scan 0.3 found 0",
    "c step => blacken 0 found 400048037fffffff",
    "c step => group 0 found 400148037fffffff",
    "c step => scan 1.0 found 8000000200000000",
    "1 get 2 1 0 => 1 get 2 1 0 = object 0.1 at 0:1",
    "0 begin set 1 0 3 => true",
    "0 step => walk 11 found c000000200000000",
    "0 step => old 11.2 found 8000000c04000001",
    "phase word => 3 at 0",
    "control 0 => 400148037fffffff at 19",
    "0 due => shade 12",
    "c due => mark 2",
    "0 step => shade 12 found 400148037fffffff",
    "0 step => swap 11.2 4000003 found 8000000c04000001; 0 set 1 0 3 = was 0:1",
    "c step => mark 2 found 400158037fffffff",
    "c steps 67 => group 0 found 47ff5fff7fffffff",
    "c step => scan 11.0 found c000000200000000",
    "c step => scan 11.2 found 4000003",
    "c step => scan 11.3 found 0",
    "c step => blacken 11 found 47ff5fff7fffffff",
    "c step => group 0 found 4fff5fff7fffffff",
    "c step => scan 12.0 found c000000200000000",
    "c step => scan 12.2 found 0",
    "c step => scan 12.3 found 0",
    "c step => blacken 12 found 4fff5fff7fffffff",
    "c step => group 0 found 5fff5fff7fffffff",
    "c step => group 0 found 5fff5fff7fffffff",
    "c step => flip 1 found c000000000000000",
    "c step => advance 4 found 3; c phase 4",
    "c due => look 0",
    "control 0 => 5fff5fff7fffffff at 19",
    "phase => 4",
];

#[test]
fn keeps_what_a_set_takes_out(rt: HostRuntime) -> Result<(), Fail> {
    tries(&rt, (1, 0, 2), TAKEN_OUT)
}

/// Two sets on both sides of a seat's answer to clearing: the barrier is on while the answer is 1 to 5.
///
/// The fragments of the group are the board's (0 to 10) and those of two records of two fields, 11, whose field 0 leads to
/// 12, and 12; the seat holds both. The fragments 13 to 15 are its reserve. When marking has ended 0 to 12 are marked and
/// scanned (1fff), and the sweep finds nothing to free.
///
/// While the seat's answer is 5, also when the phase is 6 already, a set loads the old value and shades it and the new one.
/// They are marked, so no control word changes. Once it has answered 6 a set goes from the way to the swap.
///
/// Marking takes 91 steps: the look, the group's load, 75 for the board with each group's load after a scan, 5 for the
/// fragment 11 and 4 for 12, with a group's load after each, the load of the next pass, the flip and the advance. Copying takes 16:
/// the look, the group's load, the load of a first word for each of the 13 marked fragments, and the advance.
const AROUND_THE_SWEEP: &[&str] = &[
    "0 new 1 2 => 0 takes 5; 0 new 1 2 = 0.0",
    "0 new 2 2 => 0 new 2 2 = 0.1",
    "0 set 1 0 2 => 0 set 1 0 2 = was -",
    "three phases",
    "c steps 91 => advance 4 found 3; c phase 4",
    "0 poll => 0 answers 4; 0 poll = 4",
    "c steps 16 => advance 5 found 4; c phase 5",
    "0 poll => 0 answers 5; 0 poll = 5",
    "0 begin set 1 0 1 => true",
    "0 step => walk 11 found c000000200000000",
    "0 step => old 11.2 found 8000000c04000001",
    "0 step => shade 12 found 1fff1fff1fffffff",
    "0 step => shade 11 found 1fff1fff1fffffff",
    "0 step => swap 11.2 8000000b04000002 found 8000000c04000001; 0 set 1 0 1 = was 0:1",
    "c step => look 0 found 5",
    "c step => group 0 found 1fff1fff1fffffff",
    "c step => advance 6 found 5; c phase 6",
    "answer 0 => 5 at 1",
    "0 begin set 1 0 2 => true",
    "0 step => walk 11 found c000000200000000",
    "0 step => old 11.2 found 8000000b04000002",
    "0 step => shade 11 found 1fff1fff1fffffff",
    "0 step => shade 12 found 1fff1fff1fffffff",
    "0 step => swap 11.2 8000000c04000003 found 8000000b04000002; 0 set 1 0 2 = was 0:2",
    "0 poll => 0 answers 6; 0 poll = 6",
    "answer 0 => 6 at 1",
    "0 begin set 1 0 1 => true",
    "0 step => walk 11 found c000000200000000",
    "0 step => swap 11.2 8000000b04000004 found 8000000c04000003; 0 set 1 0 1 = was 0:3",
    "control 0 => 1fff1fff1fffffff at 19",
    "c step => look 0 found 6",
    "c step => clear 0 found 1fff1fff1fffffff",
    "c step => end 7 kept 16 found 6; c ends 0 kept 16",
];

#[test]
fn shades_up_to_the_answer_to_clearing(rt: HostRuntime) -> Result<(), Fail> {
    tries(&rt, (1, 0, 1), AROUND_THE_SWEEP)
}
