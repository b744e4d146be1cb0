ghost use Rattle.std.specs.Prelude.{◌<◌, ◌≤◌};
ghost use Rattle.heap_model.specs.calls.ManyTurns.{MakesOnward, TakesTurns};
ghost use Rattle.heap_table.specs.ManyTurns.{MakesTurn, WorksOn};

use crate::collector::CollectorHolder;
use crate::collector::strides::copying::VisitLoads;
use crate::collector::strides::marking::{PassLoads, Scans};
use crate::collector::strides::sweeping::{Clears, SweepLoads};
use core_machine::{Copying, CountsEntries, Entries, Stage};
use heap_model::{Turn, TurnsMade};

impl<L: Entries, C: CountsEntries> CollectorHolder<L, C> {
    /// Makes the turns that are due and go in one loop, `n` at most, and answers how many.
    fn work_on(&mut self, n: u64) -> u64
        ensures most { result ≤ n }
        ensures works { MakesOnward WorksOn result self.old self.new }
    {
        match self.party.stage() {
            Stage::Passing { .. } => self.take_strides::<PassLoads>(n),
            Stage::Scanning(_) | Stage::Shading { .. } | Stage::Blackening(_) => {
                self.take_strides::<Scans>(n)
            }
            Stage::Copying(Copying::Visiting { .. } | Copying::Inspecting(_)) => {
                self.take_strides::<VisitLoads>(n)
            }
            Stage::Sweeping { .. } | Stage::Examining { .. } => self.take_strides::<SweepLoads>(n),
            Stage::Clearing { .. } => self.take_strides::<Clears>(n),
            _ => 0,
        }
    }

    /// Makes `n` turns, or those up to the first that waits.
    pub fn take_turns(&mut self, n: u64) -> TurnsMade
        requires { n < self.old.spare }
        ensures { TakesTurns MakesTurn n self.old self.new result }
    {
        let mut made = 0;
        let mut last = None;
        while made < n {
            let works = self.work_on(n - made);
            if works > 0 {
                made += works;
                last = Some(Turn::Stepped);
                continue;
            }
            let (_, turn) = self.turn();
            made += 1;
            last = Some(turn);
            if let Turn::Waits { .. } = turn {
                break;
            }
        }
        TurnsMade { made, last }
    }
}
