//! Histories that are checked, or by which space is planned, and texts that are none.

use super::FIRST;
use super::several_seats::ends_so;
use crate::status::Status;
use script_text::Cause;
use std::test::Fail;

// The history of a seat that made one record and left, and of the cycle that then freed it with the board. The reply in the
// fourth line says which object was made.
macro_rules! one_made {
    ($id:literal) => {
        concat!(
            "history 1 play\nheap 1 0 1\n0 takes 5\n0 new 1 2 = ",
            $id,
            "\nspace used 16 of 16 spine 0 of 0\n0 gives back 4\n0 leave = ok\nc phase 1\nc phase 2\nc phase 3\nc phase 4\nc phase 5\nc frees 12\nc phase 6\nc ends 0 kept 0\nend used 0\n"
        )
    };
}

// The history of a seat that dropped its record, collected it while four fragments were its own, and left, and of the cycle
// that freed the board. The twentieth line says how much the first cycle kept.
macro_rules! one_dropped {
    ($kept:literal) => {
        concat!(
            "history 1 play\nheap 1 0 1\n0 takes 5\n0 new 1 2 = 0.0\n0 new 2 47 = full need 16 found 4\n0 nil 1 = ok\nc phase 1\n0 answers 1\nc phase 2\n0 answers 2\nc phase 3\n0 answers 3\nc phase 4\n0 answers 4\nc phase 5\n0 answers 5\nc frees 1\nc phase 6\n0 answers 6\nc ends 0 kept ",
            $kept,
            "\n0 collect = cycle 0\nspace used 15 of 16 spine 0 of 0\n0 gives back 4\n0 leave = ok\nc phase 8\nc phase 9\nc phase 10\nc phase 11\nc phase 12\nc frees 11\nc phase 13\nc ends 1 kept 0\nend used 0\n"
        )
    };
}

/// A history, the status with which its check ends, and what that writes.
const CHECKED: [(&str, Status, &str); 6] = [
    (one_made!("0.0"), Status::Done, "legal 12\n"),
    (one_made!("0.1"), illegal!(4), ""),
    (one_dropped!(15), Status::Done, "legal 29\n"),
    (one_dropped!(11), Status::Done, "legal 29\n"),
    (one_dropped!(10), illegal!(20), ""),
    (one_dropped!(16), illegal!(20), ""),
];

#[test]
fn checks_histories_of_collections(rt: HostRuntime) -> Result<(), Fail> {
    ends_so(&rt, rt.alloc(), "check", &CHECKED)
}

// The history of a play without a line.
const EMPTY: &str =
    "history 1 play\nheap 1 0 1\nspace used 11 of 16 spine 0 of 0\n0 leave = ok\nc phase 1\nc phase 2\nc phase 3\nc phase 4\nc phase 5\nc frees 11\nc phase 6\nc ends 0 kept 0\nend used 0\n";

const EMPTY_PLAN: &str =
    "plan 1\nheap 1 0 1\ncycle 0 reach 0 since 0 bound 0 used 0 kept 0\nmost reach 11 takes 0 need 0\ngroups 2 turns 325\nfull 0\n";

const DROPPED_PLAN: &str =
    "plan 1\nheap 1 0 1\ncycle 0 reach 11 since 0 bound 15 used 15 kept 15\ncycle 1 reach 0 since 0 bound 0 used 0 kept 0\nmost reach 11 takes 5 need 16\ngroups 4 turns 325\nfull 1\n";

/// A history, the status with which the plan by it ends, and what that writes.
const PLANNED: [(&str, Status, &str); 6] = [
    (EMPTY, Status::Done, EMPTY_PLAN),
    (one_dropped!(15), Status::Done, DROPPED_PLAN),
    (one_dropped!(10), illegal!(20), ""),
    (
        "history 1 run\nheap 1 0 1\nend used 11\n",
        refused!(1, Cause::NotPlay),
        "",
    ),
    ("history 1 run\nheap 1 0 1\n", refused!(3, Cause::NoEnd), ""),
    (FIRST, refused!(1, Cause::NoHeader), ""),
];

#[test]
fn plans_space_by_histories_of_plays(rt: HostRuntime) -> Result<(), Fail> {
    ends_so(&rt, rt.alloc(), "plan", &PLANNED)
}

#[test]
fn checks_no_script(rt: HostRuntime) -> Result<(), Fail> {
    let rows = [(FIRST, refused!(1, Cause::NoHeader), "")];
    ends_so(&rt, rt.alloc(), "check", &rows)
}
