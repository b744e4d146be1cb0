ghost use Rattle.std.specs.Prelude.{◌≡◌, ◌≤◌, length, OnOk, OnErr};
ghost use Rattle.heap_model.specs.calls.CollectorCalls.{Turns};
ghost use Rattle.collector_turns.specs.Collector.{state_of};
ghost use Rattle.collector_turns.specs.Turning.{TakesTurn, MakesRoom};

use crate::collector::Collector;
use core_machine::{CountsEntries, Entries};
use heap_model::{CollectorCalls, Memory, Turn, TurnsMade};

impl<L: Entries, C: CountsEntries> CollectorCalls for Collector<L, C> {
    ghost state = { state_of };

    ghost turned = { TakesTurn };

    ghost roomed = { MakesRoom };

    fn turn(&mut self) -> Turn {
        let (_, turn) = self.holder.turn();
        self.last_turn = Some(turn);
        turn
    }

    fn take_turns(&mut self, n: u64) -> TurnsMade {
        let done = self.holder.take_turns(n);
        if let Some(last) = done.last {
            self.last_turn = Some(last);
        }
        done
    }

    fn room(&mut self, n: usize) -> Result<(), Memory> {
        self.holder.room(n)
    }

    fn spare(&self) -> usize {
        self.holder.spare()
    }

    fn phase(&self) -> u64 {
        self.holder.phase()
    }

    fn turns(&self) -> u64 {
        self.holder.turns()
    }
}
