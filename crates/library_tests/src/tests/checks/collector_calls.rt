//! The calls of a collector by their trait, on a small collector that goes through a cycle.

ghost use Rattle.std.specs.Prelude.{◌≡◌, ◌≤◌};

use super::entry_of;
use crate::tests::comparing::same;
use crate::tests::cycling::{Cycling, wait_in};
use heap_model::{CollectorCalls, Turn};
use std::test::Fail;

/// What the collector has told when its first cycle has ended.
const FIRST_CYCLE: &[&str] = &[
    "c phase 1",
    "c phase 2",
    "c phase 3",
    "c phase 4",
    "c swings 0.0",
    "c phase 5",
    "c frees 3",
    "c returns 2",
    "c phase 6",
    "c ends 0 kept 0",
];

/// What the turns of the first cycle answer: 0 for a step, 7 for the cycle's end, and else the phase that the seat 0 has yet
/// to answer.
const ANSWERS: [u64; 24] = [
    0, 0, 0, 0, 0, 2, 0, 0, 0, 3, 0, 0, 0, 4, 0, 0, 0, 5, 0, 0, 0, 6, 0, 7,
];

fn answer_of(number: u64) -> Turn {
    match number {
        0 => Turn::Stepped,
        7 => Turn::Ended { cycle: 0, kept: 0 },
        phase => wait_in(phase),
    }
}

#[test]
fn turns_through_a_cycle(rt: HostRuntime) -> Result<(), Fail> {
    let alloc = rt.alloc();
    let mut collector = Cycling::new(alloc);
    for number in ANSWERS {
        collector.room(2)?;
        let turn = next_turn(&mut collector);
        same(&rt, &turn, &answer_of(number), &collector.turns());
    }
    let mut log = Vec::new(alloc);
    for line in FIRST_CYCLE {
        log.push(entry_of(alloc, line)?)?;
    }
    same(
        &rt,
        &collector.log.as_slice(),
        &log.as_slice(),
        &"the entries",
    );
    same(&rt, &collector.turns(), &24, &"the turns");
    same(&rt, &collector.phase(), &7, &"the phase");
    Ok(())
}

fn next_turn<C: CollectorCalls>(collector: &mut C) -> Turn
    requires { 2 ≤ (C.state collector.old).spare }
    ensures { (C.state collector.new).last_turn ≡ Some result }
{
    collector.turn()
}
