//! Two seats race for the last group in threads of their own: one gets it, and the other is refused.

ghost use Rattle.heap_model.specs.Heap.{IsHeap};

use crate::tests::books::accepts_all;
use crate::tests::comparing::holds;
use crate::tests::table::{Task, run_two};
use heap_model::{Account, Entry, Graph, Heap, Memory, Reply};
use std::alloc::Global;
use std::test::Fail;

/// How often they race.
const RACES: u32 = 50;

/// How many of the entries tell that fragments are too few.
fn refusals(log: &[Entry]) -> usize {
    log.iter()
        .filter(|entry| {
            matches!(
                entry,
                Entry::Said {
                    reply: Reply::Full { .. },
                    ..
                }
            )
        })
        .count()
}

/// Whether both books count all entries, those of one seat behind all of the other's.
fn are_counted(
    graph: &mut Graph,
    account: &mut Account,
    first: &[Entry],
    second: &[Entry],
) -> Result<bool, Memory> {
    if !accepts_all(graph, account, first)? {
        return Ok(false);
    }
    accepts_all(graph, account, second)
}

/// Whether the entries may stand in a run, those of one seat behind all of the other's.
fn may_follow(alloc: Global, heap: Heap, first: &[Entry], second: &[Entry]) -> Result<bool, Memory>
    requires { IsHeap heap }
{
    let mut graph = Graph::new(alloc, heap)?;
    let mut account = Account::new(alloc, heap)?;
    are_counted(&mut graph, &mut account, first, second)
}

/// Whether the refused one's entries may stand behind those of the other, where one of the two logs tells one refusal.
fn one_lost(alloc: Global, heap: Heap, logs: &[Vec<Entry>]) -> Result<bool, Fail>
    requires { IsHeap heap }
{
    let [one, other, _] = logs else {
        return Err("the logs".into());
    };
    let (one, other) = (one.as_slice(), other.as_slice());
    match (refusals(one), refusals(other)) {
        (0, 1) => Ok(may_follow(alloc, heap, one, other)?),
        (1, 0) => Ok(may_follow(alloc, heap, other, one)?),
        _ => Err("the refusals".into()),
    }
}

/// A heap of two groups has five fragments free in the first and sixteen in the second, and each seat asks for sixteen, one beginning at either group. So
/// whoever claims the second group has its record, and the other is refused.
#[test]
fn one_of_two_gets_the_last_group(rt: HostRuntime) -> Result<(), Fail> {
    let heap = Heap::make(2, 0, 2, 32).ok_or("the limits")?;
    for race in 0..RACES {
        let closed = run_two(&rt, rt.alloc(), heap, Task::LongRecord)?.ok_or("a seat hasn't left")?;
        let legal = one_lost(rt.alloc(), heap, closed.logs())?;
        holds(&rt, legal, &race);
    }
    Ok(())
}
