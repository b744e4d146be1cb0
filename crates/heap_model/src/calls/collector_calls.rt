ghost use Rattle.std.specs.Prelude.{◌≡◌, ◌<◌, ◌≤◌, length, OnOk, OnErr};
ghost use Rattle.heap_model.specs.calls.CollectorCalls.{CollectorState, Turns};
ghost use Rattle.heap_model.specs.calls.ManyTurns.{TakesTurns};
ghost use Rattle.heap_model.specs.declared.calls.collector_calls.Turn.{Turn};

use crate::fault::Memory;

/// What one turn of the collector came to: a step, a seat that it waits for, or the end of a cycle.
#[derive(Clone, Copy, Debug, PartialEq, Eq)]
pub enum Turn {
    Stepped,
    Waits { seat: u8, answered: u64, phase: u64 },
    Ended { cycle: u64, kept: u64 },
}

/// How many turns were made in one go, and what the last of them came to.
#[derive(Clone, Copy, Debug, PartialEq, Eq)]
pub struct TurnsMade {
    pub made: u64,
    pub last: Option<Turn>,
}

/// The collector of a heap. No call but `room` takes memory.
pub trait CollectorCalls {
    /// The collector's entries and the room for more, its phase and its turns.
    ghost state: { Self → CollectorState };

    /// What more one of its turns does.
    ghost turned: { Self → Self → Turn → Type 0 };

    /// What more it comes to that room was made.
    ghost roomed: { Self → Self → Type 0 } = { λ _ _. Unit {0} };

    /// Makes one step, which is one operation on one word of the heap.
    fn turn(&mut self) -> Turn
        requires { 2 ≤ (state self.old).spare }
        ensures turns { Turns (state self.old) (state self.new) result }
        ensures turned { turned self.old self.new result };

    /// Makes `n` turns, or those up to the first that waits.
    fn take_turns(&mut self, n: u64) -> TurnsMade
        requires { n < (state self.old).spare }
        ensures turns { TakesTurns Turns n (state self.old) (state self.new) result }
        ensures turned { TakesTurns turned n self.old self.new result }
    {
        let mut last = None;
        for made in 0..n {
            let turn = self.turn();
            last = Some(turn);
            if let Turn::Waits { .. } = turn {
                return TurnsMade {
                    made: made + 1,
                    last,
                };
            }
        }
        TurnsMade { made: n, last }
    }

    /// Makes room for at least `n` more entries.
    fn room(&mut self, n: usize) -> Result<(), Memory>
        ensures same { state self.new ≡ record (state self.old) { spare = (state self.new).spare } }
        ensures more { (state self.old).spare ≤ (state self.new).spare }
        ensures room { OnOk result (n ≤ (state self.new).spare) }
        ensures memory { OnErr result (state self.new ≡ state self.old) }
        ensures stays { roomed self.old self.new };

    /// For how many more entries there is room.
    fn spare(&self) -> usize
        ensures { result ≡ (state self.now).spare };

    fn phase(&self) -> u64
        ensures phase { result ≡ (state self.now).phase }
        ensures logged { result ≤ length (state self.now).log };

    /// The number of turns that were made, or the last number of its type.
    fn turns(&self) -> u64
        ensures { result ≡ (state self.now).turns };
}
