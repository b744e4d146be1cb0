//! Entries that an account accepts or refuses, in a play and in a run.

ghost use Rattle.heap_model.specs.Heap.{IsHeap};

use super::entry_of;
use crate::tests::comparing::{holds, same};
use heap_model::{Account, ApplyFault, Graph, Heap};
use std::process::Abort;
use std::test::Fail;

/// An entry, whether it stands in a play or in a run, and whether it may stand after those above that may. The heap has
/// 2 groups, so 32 fragments, of which the board has 11; 4 spine words; and 2 seats.
const ENTRIES: &[&str] = &[
    "0 takes 0 => play, not legal",
    "0 takes 22 => play, not legal",
    "0 takes 5 => play, legal",
    "0 gives back 6 => play, not legal",
    "1 gives back 1 => play, not legal",
    // A record of 17 fields has 6 fragments, and an array of 16 cells has 5, and 4 spine words.
    "0 new 1 17 = 0.0 => play, not legal",
    "0 array 1 16 = 0.0 => play, legal",
    "0 array 2 1 = spine need 1 used 3 => play, not legal",
    "0 array 2 1 = spine need 2 used 4 => play, not legal",
    "0 array 2 1 = spine need 1 used 5 => play, not legal",
    "0 array 2 1 = spine need 1 used 1029 => run, not legal",
    "0 array 2 1 = spine need 1 used 1028 => run, legal",
    "0 array 2 1 = spine need 1 used 4 => play, legal",
    // With 16 fragments in use a refusal can't show less than 16, until the other seat takes 3.
    "0 new 2 47 = full need 16 found 16 => play, not legal",
    "1 takes 3 => play, legal",
    "0 new 2 47 = full need 16 found 12 => play, not legal",
    "0 new 2 47 = full need 16 found 12 => run, not legal",
    "0 new 2 47 = full need 17 found 13 => play, not legal",
    "0 new 2 47 = full need 16 found 14 => play, not legal",
    "0 new 2 47 = full need 16 found 15 => run, legal",
    "0 new 2 47 = full need 16 found 14 => run, not legal",
    "0 new 2 47 = full need 16 found 13 => play, legal",
    "c phase 2 => play, not legal",
    "c frees 1 => play, not legal",
    "c phase 1 => play, legal",
    "0 answers 2 => play, not legal",
    "0 answers 1 => play, legal",
    "0 answers 1 => play, not legal",
    "0 poll = 0 => play, not legal",
    "0 poll = 1 => play, legal",
    "1 poll = 1 => play, not legal",
    "c phase 2 => play, not legal",
    "0 collect = waits 0 answered 0 phase 1 => play, not legal",
    "0 collect = waits 1 answered 1 phase 1 => play, not legal",
    "0 collect = waits 2 answered 0 phase 1 => play, not legal",
    "0 collect = waits 1 answered 0 phase 1 => play, legal",
    "1 answers 1 => play, legal",
    "0 collect = waits 1 answered 0 phase 1 => play, not legal",
    "0 collect = waits 1 answered 0 phase 1 => run, legal",
    "0 collect = waits 1 answered 0 phase 1 => run, not legal",
    "c phase 2 => play, legal",
    "0 answers 2 => play, legal",
    "1 answers 2 => play, legal",
    "c phase 3 => play, legal",
    "0 answers 3 => play, legal",
    "1 answers 3 => play, legal",
    "c swings 0.0 => play, not legal",
    "c phase 4 => play, legal",
    "c swings board => play, not legal",
    "c swings 0.0 => play, legal",
    "c swings 0.0 => play, not legal",
    "0 answers 4 => play, legal",
    "1 answers 4 => play, legal",
    "c phase 5 => play, legal",
    // There are 19 fragments and 4 spine words in use.
    "c frees 0 => play, not legal",
    "c frees 20 => play, not legal",
    "c frees 1 => play, legal",
    "c returns 5 => play, not legal",
    "0 answers 5 => play, legal",
    "1 answers 5 => play, legal",
    "c phase 6 => play, legal",
    "c ends 0 kept 18 => play, not legal",
    "0 answers 6 => play, legal",
    "1 answers 6 => play, legal",
    // The board and the array were reached, with 16 fragments, and the second seat had taken 3.
    "c ends 0 kept 15 => play, not legal",
    "c ends 0 kept 20 => play, not legal",
    "c ends 1 kept 18 => play, not legal",
    "c phase 7 => play, not legal",
    "c ends 0 kept 18 => play, legal",
    "c cycle = cycle 0 => play, legal",
    // The first seat has had replies since the cycle began, and the second has had none.
    "0 collect = cycle 0 => play, not legal",
    "1 collect = cycle 0 => play, legal",
    "1 leave = ok => play, not legal",
    "1 gives back 3 => play, legal",
    "1 leave = ok => play, legal",
    // The array that the first cycle reached is dropped before the second, which has to free what is left of it.
    "0 nil 1 = ok => play, legal",
    "0 answers 7 => play, legal",
    "c phase 8 => play, legal",
    "0 answers 8 => play, legal",
    "c phase 9 => play, legal",
    "0 answers 9 => play, legal",
    "c phase 10 => play, legal",
    "0 answers 10 => play, legal",
    "c phase 11 => play, legal",
    "0 answers 11 => play, legal",
    "c phase 12 => play, legal",
    "c frees 4 => play, legal",
    "c returns 4 => play, legal",
    "0 answers 12 => play, legal",
    "c phase 13 => play, legal",
    "0 answers 13 => play, legal",
    "c ends 1 kept 10 => play, not legal",
    "c ends 1 kept 12 => play, not legal",
    "c ends 1 kept 11 => play, legal",
];

/// What an account answers to an entry with this verdict.
fn answer_of(verdict: &str) -> Result<(), ApplyFault> {
    if verdict.ends_with(", legal") {
        Ok(())
    } else {
        Err(ApplyFault::NotLegal)
    }
}

/// The account accepts the entry exactly if it may stand; then both books count it.
fn judges(
    rt: &(impl Abort + AllocGlobal),
    graph: &mut Graph,
    account: &mut Account,
    line: &str,
) -> Result<(), Fail> {
    let (line, verdict) = line.split_once(" => ").ok_or("an entry has a verdict")?;
    let entry = entry_of(rt.alloc(), line)?;
    holds(rt, account.entries() < 1 << 32, &line);
    holds(rt, account.has_seat(&entry), &line);
    let given = account.apply(graph, &entry, verdict.starts_with("play"));
    same(rt, &given, &answer_of(verdict), &line);
    if given.is_ok() {
        graph.apply(&entry)?;
    }
    Ok(())
}

/// All entries are counted so.
fn judges_all(
    rt: &(impl Abort + AllocGlobal),
    heap: Heap,
    account: &mut Account,
) -> Result<(), Fail>
    requires { IsHeap heap }
{
    let mut graph = Graph::new(rt.alloc(), heap)?;
    for line in ENTRIES {
        judges(rt, &mut graph, account, line)?;
    }
    Ok(())
}

#[test]
fn accepts_what_keeps_the_rules(rt: HostRuntime) -> Result<(), Fail> {
    let heap = Heap::make(2, 4, 2, 32).ok_or("the limits")?;
    let mut account = Account::new(rt.alloc(), heap)?;
    judges_all(&rt, heap, &mut account)?;
    same(&rt, &account.used(), &11, &"the fragments in use");
    same(&rt, &account.spine(), &0, &"the spine words in use");
    same(&rt, &account.phase(), &14, &"the phase");
    holds(&rt, !account.is_overdrawn(), &"the end");
    Ok(())
}
