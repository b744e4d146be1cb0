ghost use Rattle.heap_model.specs.Heap.{IsHeap};

use super::comparing::same;
use super::told;
use heap_model::{Heap, Memory, Turn};
use heap_runs::{MachineHeap, PlayHeap, make_slack};
use slack_pace::{MOST_SLACK_TURNS, Pace, SlackDone};
use std::alloc::Global;
use std::test::Fail;

/// A pace that asks for the same each time.
#[derive(Drop)]
struct Fixed(u64);

impl Pace for Fixed {
    ghost use Rattle.std.specs.Prelude.{◌≡◌, [], min};
    ghost use Rattle.slack_pace.specs.Slack.{most_slack_turns};

    ghost asks = { λ pace _. min most_slack_turns pace.0 };

    ghost kept = { λ _. [] };

    ghost came = { λ _ _ kept. kept ≡ [] };

    fn turns(&mut self, _claimed: u64) -> u64 {
        self.0.min(MOST_SLACK_TURNS)
    }
}

/// What the heap makes by the pace, and how many turns it has then.
fn slack_of<H: PlayHeap + Drop>(
    mut whole: H,
    pace: &mut Box<dyn Pace>,
) -> Result<(SlackDone, u64), Memory> {
    whole.room(4098)?;
    let (whole, done) = make_slack(whole, pace, 0);
    Ok((done, whole.turns()))
}

/// What a heap that has just been opened makes by a pace that asks for so many turns, and how many turns it has then.
fn made_by(alloc: Global, heap: Heap, asked: u64) -> Result<(SlackDone, u64), Memory>
    requires { IsHeap heap }
{
    let mut pace: Box<dyn Pace> = Box::new(alloc, Fixed(asked))?;
    let whole = MachineHeap::make(alloc, heap)?;
    slack_of(whole, &mut pace)
}

/// The one seat is waited for in the first phase.
const WAITS: Turn = Turn::Waits {
    seat: 0,
    answered: 0,
    phase: 1,
};

/// How many turns are asked for, how many are made, and what the last one comes to. The third turn waits, since the seat has yet to answer the phase that the second began.
const ASKED: [(u64, u64, Option<Turn>); 3] = [
    (0, 0, None),
    (2, 2, Some(Turn::Stepped)),
    (5, 3, Some(WAITS)),
];

#[test]
fn makes_what_is_asked_for_or_waits(rt: HostRuntime) -> Result<(), Fail> {
    let heap = Heap::make(1, 0, 1, 32).ok_or("a heap")?;
    for (asked, made, last) in ASKED {
        let (done, turns) = made_by(rt.alloc(), heap, asked)?;
        same(&rt, &done, &SlackDone { asked, made, last }, &asked);
        same(&rt, &turns, &made, &asked);
    }
    Ok(())
}

// Two turns follow each line of the seat, and none the collector's line.
#[test]
fn plays_with_a_pace(rt: HostRuntime) -> Result<(), Fail> {
    let text = "schism 1\nheap 1 0 1\n0 new 1 2\nc turns 1\n0 poll\n";
    let wanted =
        "history 1 play\nheap 1 0 1\n0 takes 5\n0 new 1 2 = 0.0\nc phase 1\nc turns 1 = waits 0 answered 0 phase 1\n0 answers 1\n0 poll = 1\nc phase 2\nspace used 16 of 16 spine 0 of 0\n0 gives back 4\n0 leave = ok\nc phase 3\nc phase 4\nc phase 5\nc frees 12\nc phase 6\nc ends 0 kept 0\nc phase 8\nc phase 9\nc phase 10\nc phase 11\nc phase 12\nc phase 13\nc ends 1 kept 0\nend used 0\n";
    let pace: Box<dyn Pace> = Box::new(rt.alloc(), Fixed(2))?;
    let told = told(rt.alloc(), text, Some(pace))?;
    same(&rt, &told.as_slice(), &wanted.as_bytes(), &text);
    Ok(())
}
