//! Seats and collector of one table in one thread, whose single steps come in an order that is drawn: what they tell, in the order in which it came, is judged entry by entry.

ghost use Rattle.std.specs.Prelude.{◌≤◌};
ghost use Rattle.heap_model.specs.Heap.{IsHeap};
ghost use Rattle.script_text.specs.Made.{most_start};

use super::comparing::{holds, same};
use heap_model::{Entry, Heap, Reply};
use judging::fault_in;
use std::process::Abort;
use std::test::Fail;
use table::played;

mod draws;
mod judging;
mod player;
mod table;

/// How many seats work on a heap of so many groups and spine words, and how many scripts they get.
const PLAYS: [(u8, u16, u16, u32); 3] = [(1, 2, 12, 300), (2, 2, 12, 350), (4, 3, 16, 350)];

/// How often things have come that these plays are to bring.
#[derive(Clone, Copy)]
struct Seen {
    full: u32,
    spine_full: u32,
    ends: u32,
    swings: u32,
}

impl Seen {
    /// Counts the entry, if it is such a thing.
    fn note(&mut self, entry: &Entry) {
        let count = match entry {
            Entry::Said {
                reply: Reply::Full { .. },
                ..
            } => &mut self.full,
            Entry::Said {
                reply: Reply::SpineFull { .. },
                ..
            } => &mut self.spine_full,
            Entry::Ends { .. } => &mut self.ends,
            Entry::Swings(_) => &mut self.swings,
            _ => return,
        };
        *count = count.saturating_add(1);
    }

    /// Whether each has come often; a cycle also while scripts were under way, and not only behind them.
    fn is_ample(&self) -> bool {
        self.full > 500 && self.spine_full > 500 && self.swings > 500 && self.ends > 2500
    }
}

/// Plays the script that is made from this start, judges what it tells, and counts what has come.
fn plays(
    rt: &(impl Abort + AllocGlobal),
    heap: Heap,
    start: u32,
    seen: &mut Seen,
) -> Result<(), Fail>
    requires limits { IsHeap heap }
    requires start { start ≤ most_start }
{
    let alloc = rt.alloc();
    let (told, closed) = played(alloc, heap, start)?.ok_or("unfinished")?;
    same(rt, &fault_in(alloc, heap, &told, &closed)?, &None, &start);
    for entry in told.iter().flatten() {
        seen.note(entry);
    }
    Ok(())
}

#[test]
fn a_thousand_interleavings(rt: HostRuntime) -> Result<(), Fail> {
    let mut seen = Seen {
        full: 0,
        spine_full: 0,
        ends: 0,
        swings: 0,
    };
    for (seats, groups, spine, scripts) in PLAYS {
        let heap = Heap::make(groups, spine, seats, 32).ok_or("the limits")?;
        for start in 0..scripts {
            plays(&rt, heap, start, &mut seen)?;
        }
    }
    holds(&rt, seen.is_ample(), &"what has come");
    Ok(())
}
