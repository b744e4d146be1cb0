//! Commands and replies that no history has.

use super::{FIRST, graph_of};
use crate::tests::comparing::same;
use heap_model::Command::{self, Array, Cas, Collect, Get, Leave, Len, New, Num, Poll, Set};
use heap_model::Reply::{self, Cycle, Done, Got, Made, NoObject, SpineFull, Was, Yes};
use heap_model::{ApplyFault, Entry, Graph, Value};
use std::process::Abort;
use std::test::Fail;

const NO_SPINE: Reply = SpineFull { need: 12, used: 0 };

// No set gives the stamp 1.
const NIL_LATER: Reply = Got {
    value: Value::Nil,
    stamp: 1,
};

/// A command out of its range, or a reply that it can't have. No history has such a line. With another reply, or in its
/// range, each may stand first.
const UNWRITTEN: [(Command, Reply); 22] = [
    (New { d: 1, fields: 2 }, Done),
    (New { d: 0, fields: 2 }, Made(FIRST)),
    (New { d: 16, fields: 2 }, Made(FIRST)),
    (New { d: 1, fields: 0 }, Made(FIRST)),
    (New { d: 1, fields: 48 }, Made(FIRST)),
    (New { d: 2, fields: 47 }, NO_SPINE),
    (Array { d: 2, cells: 4097 }, NO_SPINE),
    (Get { d: 4, r: 0, i: 0 }, NIL_LATER),
    (
        Get {
            d: 4,
            r: 3,
            i: 4097,
        },
        NoObject,
    ),
    (Set { r: 0, i: 0, v: 3 }, Done),
    (Set { r: 0, i: 0, v: 3 }, Was(1)),
    (
        Num {
            d: 3,
            n: 1073741824,
        },
        Done,
    ),
    (Num { d: 3, n: 7 }, Yes),
    (Len { r: 16 }, NoObject),
    (Poll, Cycle(1)),
    (Collect, Done),
    (Leave, Yes),
    (
        Cas {
            r: 0,
            i: 3,
            a: 5,
            v: 1,
        },
        Done,
    ),
    (
        Cas {
            r: 1,
            i: 4097,
            a: 5,
            v: 2,
        },
        NoObject,
    ),
    (
        Cas {
            r: 16,
            i: 0,
            a: 5,
            v: 2,
        },
        NoObject,
    ),
    (
        Cas {
            r: 1,
            i: 0,
            a: 16,
            v: 2,
        },
        NoObject,
    ),
    (
        Cas {
            r: 1,
            i: 0,
            a: 5,
            v: 16,
        },
        NoObject,
    ),
];

/// The first seat doesn't say so.
fn refuses(
    rt: &(impl Abort + AllocGlobal),
    graph: &mut Graph,
    command: Command,
    reply: Reply,
) -> Result<(), Fail> {
    let given = graph.apply(&Entry::Said {
        seat: 0,
        command,
        reply,
    });
    let at = format!(in rt.alloc(); "{command:?} = {reply:?}")?;
    same(rt, &given, &Err(ApplyFault::NotLegal), &at);
    Ok(())
}

#[test]
fn accepts_no_other_commands_and_replies(rt: HostRuntime) -> Result<(), Fail> {
    let mut graph = graph_of(rt.alloc(), 1, 0, 2)?;
    for (command, reply) in UNWRITTEN {
        refuses(&rt, &mut graph, command, reply)?;
    }
    Ok(())
}
