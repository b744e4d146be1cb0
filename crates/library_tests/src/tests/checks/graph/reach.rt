//! What a graph reaches, and the fragments of its objects.

use super::{graph_of, grow};
use crate::tests::comparing::same;
use heap_model::{Graph, Id};
use std::alloc::Global;
use std::process::Abort;
use std::test::Fail;

const HEAD: Id = Id::Made { seat: 0, count: 0 };

const MIDDLE: Id = Id::Made { seat: 0, count: 1 };

const TAIL: Id = Id::Made { seat: 0, count: 2 };

const ROUND: Id = Id::Made { seat: 1, count: 0 };

const ROUND_BACK: Id = Id::Made { seat: 1, count: 1 };

const ON_BOARD: Id = Id::Made { seat: 1, count: 2 };

const LEFT_BEHIND: Id = Id::Made { seat: 2, count: 0 };

const TAKEN_ALONG: Id = Id::Made { seat: 2, count: 1 };

/// The first seat makes a chain of three records, the second one two that hold each other and an array that the
/// board holds, the third one a record that the board holds and one in its register.
const BUILT: &[&str] = &[
    "0 new 1 2 = 0.0",
    "0 new 2 3 = 0.1",
    "0 new 3 47 = 0.2",
    "0 set 1 1 2 = was -",
    "0 set 2 2 3 = was -",
    "1 new 1 1 = 1.0",
    "1 new 2 1 = 1.1",
    "1 set 1 0 2 = was -",
    "1 set 2 0 1 = was -",
    "1 array 3 4096 = 1.2",
    "1 set 0 31 3 = was -",
    "2 array 4 9 = 2.0",
    "2 set 0 0 4 = was -",
    "2 new 5 5 = 2.1",
];

const ALL: &[Id] = &[
    Id::Board,
    HEAD,
    MIDDLE,
    TAIL,
    ROUND,
    ROUND_BACK,
    ON_BOARD,
    LEFT_BEHIND,
    TAKEN_ALONG,
];

/// The chain hangs on its first record alone, nobody holds the loop, and the third seat is gone.
const DROPPED: &[&str] = &[
    "0 nil 2 = ok",
    "0 nil 3 = ok",
    "1 nil 1 = ok",
    "1 nil 2 = ok",
    "1 nil 3 = ok",
    "2 leave = ok",
];

const KEPT: &[Id] = &[Id::Board, HEAD, MIDDLE, TAIL, ON_BOARD, LEFT_BEHIND];

/// The first seat holds the array that the board holds too, and no longer its chain.
const SHARED: &[&str] = &["0 get 4 0 31 = object 1.2 at 1:3", "0 nil 1 = ok"];

const HELD_TWICE: &[Id] = &[Id::Board, ON_BOARD, LEFT_BEHIND];

/// Nobody is there any more.
const EMPTY: &[&str] = &["0 leave = ok", "1 leave = ok"];

/// What the lines lead to, one list of them after another, and what is reached then.
const STEPS: [(&str, &[&str], &[Id]); 5] = [
    ("the beginning", &[], &[Id::Board]),
    ("built", BUILT, ALL),
    ("dropped", DROPPED, KEPT),
    ("shared", SHARED, HELD_TWICE),
    ("empty", EMPTY, &[]),
];

/// The graph grows by the entries that the lines are.
fn grow_by(alloc: Global, graph: &mut Graph, lines: &[&str]) -> Result<(), Fail> {
    for line in lines {
        grow(alloc, graph, line)?;
    }
    Ok(())
}

/// The graph reaches these objects.
fn reaches(rt: &impl Abort, graph: &Graph, wanted: &[Id], at: &str) -> Result<(), Fail> {
    same(rt, &graph.reach()?.as_slice(), &wanted, &at);
    Ok(())
}

#[test]
fn reaches_what_a_path_leads_to(rt: HostRuntime) -> Result<(), Fail> {
    let mut graph = graph_of(rt.alloc(), 256, 1024, 3)?;
    for (name, lines, reached) in STEPS {
        grow_by(rt.alloc(), &mut graph, lines)?;
        reaches(&rt, &graph, reached, name)?;
    }
    Ok(())
}

/// An object, and its fragments.
const FRAGMENTS: [(Id, u32); 10] = [
    (Id::Board, 11),
    (HEAD, 1),
    (MIDDLE, 2),
    (TAIL, 16),
    (ROUND, 1),
    (ON_BOARD, 1025),
    (LEFT_BEHIND, 4),
    (TAKEN_ALONG, 2),
    (Id::Made { seat: 0, count: 3 }, 0),
    (Id::Made { seat: 3, count: 0 }, 0),
];

#[test]
fn counts_fragments(rt: HostRuntime) -> Result<(), Fail> {
    let alloc = rt.alloc();
    let mut graph = graph_of(alloc, 256, 1024, 3)?;
    grow_by(alloc, &mut graph, BUILT)?;
    for (id, fragments) in FRAGMENTS {
        let at = format!(in alloc; "{id:?}")?;
        same(&rt, &graph.frags(id), &fragments, &at);
    }
    Ok(())
}
