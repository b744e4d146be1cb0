//! Fields that are got and set, step by step.

use super::trial::tries;
use std::test::Fail;

/// A record of twelve fields in the fragments 11 to 15: its last field is reached by three links.
const LAST_FIELD: &[&str] = &[
    "0 new 1 12 => 0 takes 5; 0 new 1 12 = 0.0",
    "0 num 2 5 => 0 num 2 5 = ok",
    "0 begin set 1 11 2 => true",
    "0 step => walk 11 found c000000c0000000c",
    "0 step => walk 12 found 8000000d00000000",
    "0 step => walk 13 found 8000000e00000000",
    "0 step => walk 14 found 8000000f00000000",
    "0 step => swap 15.1 4000000504000001 found 0; 0 set 1 11 2 = was -",
    "0 begin get 3 1 11 => true",
    "0 step => walk 11 found c000000c0000000c",
    "0 step => walk 12 found 8000000d00000000",
    "0 step => walk 13 found 8000000e00000000",
    "0 step => walk 14 found 8000000f00000000",
    "0 step => get 15.1 found 4000000504000001; 0 get 3 1 11 = number 5 at 0:1",
];

#[test]
fn walks_to_the_last_field(rt: HostRuntime) -> Result<(), Fail> {
    tries(&rt, (1, 0, 1), LAST_FIELD)
}

/// The first fields stand beside the head's name, the third in the second fragment's first cell.
const PLACES: &[&str] = &[
    "0 new 1 6 => 0 takes 5; 0 new 1 6 = 0.0",
    "0 begin get 2 1 0 => true",
    "0 step => walk 11 found c00000060000000c",
    "0 step => get 11.2 found 0; 0 get 2 1 0 = nil at -",
    "0 begin get 2 1 1 => true",
    "0 step => walk 11 found c00000060000000c",
    "0 step => get 11.3 found 0; 0 get 2 1 1 = nil at -",
    "0 begin get 2 1 2 => true",
    "0 step => walk 11 found c00000060000000c",
    "0 step => get 12.1 found 0; 0 get 2 1 2 = nil at -",
    "0 begin get 2 1 3 => true",
    "0 step => walk 11 found c00000060000000c",
    "0 step => get 12.2 found 0; 0 get 2 1 3 = nil at -",
    "0 begin get 2 1 4 => true",
    "0 step => walk 11 found c00000060000000c",
    "0 step => get 12.3 found 0; 0 get 2 1 4 = nil at -",
    "0 begin get 2 1 5 => true",
    "0 step => walk 11 found c00000060000000c",
    "0 step => walk 12 found 8000000d00000000",
    "0 step => get 13.1 found 0; 0 get 2 1 5 = nil at -",
];

#[test]
fn finds_each_field_in_its_place(rt: HostRuntime) -> Result<(), Fail> {
    tries(&rt, (1, 0, 1), PLACES)
}

/// A get of an object waits for its name: until then the seat's own list lacks its entry.
const NAMED: &[&str] = &[
    "0 new 1 2 => 0 takes 5; 0 new 1 2 = 0.0",
    "0 nil 2 => 0 nil 2 = ok",
    "0 set 1 0 2 => 0 set 1 0 2 = was -",
    "0 begin set 1 0 1 => true",
    "0 step => walk 11 found c000000200000000",
    "0 step => swap 11.2 8000000b04000002 found 4000001; 0 set 1 0 1 = was 0:1",
    "0 begin get 4 1 0 => true",
    "0 step => walk 11 found c000000200000000",
    "0 step => get 11.2 found 8000000b04000002",
    "0 step => name 11 found c000000100000000; 0 get 4 1 0 = object 0.0 at 0:2",
];

#[test]
fn waits_for_a_name(rt: HostRuntime) -> Result<(), Fail> {
    tries(&rt, (1, 0, 1), NAMED)
}

/// Local commands, and refusals. The reserve of 4 is given back before the seat leaves, and it begins nothing more.
const LOCAL: &[&str] = &[
    "0 new 1 2 => 0 takes 5; 0 new 1 2 = 0.0",
    "0 len 0 => 0 len 0 = 32",
    "0 len 1 => 0 len 1 = 2",
    "0 len 2 => 0 len 2 = no object",
    "0 get 3 2 0 => 0 get 3 2 0 = no object",
    "0 set 2 4096 0 => 0 set 2 4096 0 = no object",
    "0 get 3 1 2 => 0 get 3 1 2 = no field",
    "0 set 1 2 0 => 0 set 1 2 0 = no field",
    "0 num 2 7 => 0 num 2 7 = ok",
    "0 num 3 8 => 0 num 3 8 = ok",
    "0 same 2 3 => 0 same 2 3 = no",
    "0 num 3 7 => 0 num 3 7 = ok",
    "0 same 2 3 => 0 same 2 3 = yes",
    "0 len 2 => 0 len 2 = no object",
    "0 same 0 1 => 0 same 0 1 = no",
    "0 copy 4 1 => 0 copy 4 1 = ok",
    "0 same 4 1 => 0 same 4 1 = yes",
    "0 nil 4 => 0 nil 4 = ok",
    "0 same 4 5 => 0 same 4 5 = yes",
    "0 same 4 2 => 0 same 4 2 = no",
    "0 poll => 0 poll = 0",
    "0 leave => 0 gives back 4; 0 leave = ok",
    "0 begin poll => false",
    "answer 0 => ffffffffffffffff at 1",
    "control 0 => fff0fff at 19",
];

#[test]
fn answers_by_the_registers_alone(rt: HostRuntime) -> Result<(), Fail> {
    tries(&rt, (1, 0, 1), LOCAL)
}

/// With the barrier on a set loads the old value, shades it and the new one where they are objects, and then swaps. The
/// record is the fragment 11.
const BARRIER: &[&str] = &[
    "0 new 1 2 => 0 takes 5; 0 new 1 2 = 0.0",
    "c turn => stepped",
    "c turn => stepped; c phase 1",
    "0 poll => 0 answers 1; 0 poll = 1",
    "0 begin set 1 1 0 => true",
    "0 step => walk 11 found c000000200000000",
    "0 step => old 11.3 found 0",
    "0 step => shade 0 found fffffff",
    "0 step => swap 11.3 8000000004000001 found 0; 0 set 1 1 0 = was -",
    "0 begin set 1 1 1 => true",
    "0 step => walk 11 found c000000200000000",
    "0 step => old 11.3 found 8000000004000001",
    "0 step => shade 0 found 10fffffff",
    "0 step => shade 11 found 10fffffff",
    "0 step => swap 11.3 8000000b04000002 found 8000000004000001; 0 set 1 1 1 = was 0:1",
    "0 begin set 1 1 2 => true",
    "0 step => walk 11 found c000000200000000",
    "0 step => old 11.3 found 8000000b04000002",
    "0 step => shade 11 found 8010fffffff",
    "0 step => swap 11.3 4000003 found 8000000b04000002; 0 set 1 1 2 = was 0:2",
];

#[test]
fn shades_behind_the_barrier(rt: HostRuntime) -> Result<(), Fail> {
    tries(&rt, (2, 0, 1), BARRIER)
}
