//! Paces of the collector, and the turns that are made by them.

use super::comparing::same;
use super::cycling::Cycling;
use heap_model::{CollectorCalls, Memory, Turn};
use slack_pace::{Debt, Pace, Paces, SlackDone, Steady, slack};
use std::process::Abort;
use std::test::Fail;

/// What is claimed, the turns that are asked for and made, all that were made, and the phase that the seat 0 has answered and the one that begun last.
const WAITS: [(u64, u64, u64, u64, u64, u64); 3] = [
    (0, 16, 6, 6, 1, 2),
    (7, 72, 4, 10, 2, 3),
    (1000, 4096, 4, 14, 3, 4),
];

/// Turns are made by the pace up to one that waits.
fn waits(
    rt: &impl Abort,
    pace: &mut Box<dyn Pace>,
    collector: &mut Cycling,
    row: (u64, u64, u64, u64, u64, u64),
) -> Result<(), Memory> {
    let (claimed, asked, made, turns, answered, phase) = row;
    collector.room(4098)?;
    let done = slack(pace, collector, claimed);
    let last = Some(Turn::Waits {
        seat: 0,
        answered,
        phase,
    });
    same(rt, &done, &SlackDone { asked, made, last }, &claimed);
    same(rt, &collector.turns(), &turns, &claimed);
    same(rt, &collector.phase(), &phase, &claimed);
    Ok(())
}

// The collector waits in its phases 2, 3 and 4 by its sixth turn, its tenth and its fourteenth. How many turns are made where none waits is tested in heap_runs.
#[test]
fn makes_turns_up_to_one_that_waits(rt: HostRuntime) -> Result<(), Fail> {
    let mut pace: Box<dyn Pace> = Box::new(rt.alloc(), Steady)?;
    let mut collector = Cycling::new(rt.alloc());
    for row in WAITS {
        waits(&rt, &mut pace, &mut collector, row)?;
    }
    Ok(())
}

/// What is claimed, and the turns that are asked for.
const ASKED: [(u64, u64); 6] = [
    (0, 16),
    (1, 24),
    (509, 4088),
    (510, 4096),
    (511, 4096),
    (u64::MAX, 4096),
];

#[test]
fn asks_steadily(rt: HostRuntime) -> Result<(), Fail> {
    let mut paces = Paces {
        steady: Box::new(rt.alloc(), Steady)?,
        debt: Box::new(rt.alloc(), Debt::make(64))?,
    };
    for (claimed, asked) in ASKED {
        same(&rt, &paces.steady.turns(claimed), &asked, &claimed);
    }
    Ok(())
}

/// What is claimed, the turns that are asked for, and what is owed then.
const OWED: [(u64, u64, u64); 7] = [
    (0, 0, 0),
    (100, 4096, 2304),
    (0, 2304, 0),
    (64, 4096, 0),
    (1, 64, 0),
    (u64::MAX, 4096, 0x7fff_ffff_ffff_f000),
    (u64::MAX, 4096, 0x7fff_ffff_ffff_f000),
];

// A debt of 64 turns a fragment: what it asks for by each claim, and what it owes behind it.
#[test]
fn owes_what_it_asks_for_later(rt: HostRuntime) -> Result<(), Fail> {
    let mut debt = Debt::make(64);
    for (claimed, asked, owed) in OWED {
        same(&rt, &debt.turns(claimed), &asked, &claimed);
        same(&rt, &debt.owed, &owed, &claimed);
    }
    Ok(())
}
