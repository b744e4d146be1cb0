//! A small collector that goes through a cycle.

ghost use Rattle.std.specs.Prelude.{◌≡◌, ◌+◌, ◌-◌, ◌%◌, ◌<◌, ◌≤◌, [], ◌∷◌, ◌++◌, IfSome, vec_len, vec_capacity};
ghost use Rattle.heap_model.specs.declared.calls.collector_calls.Turn.TheVariants.{Stepped, Waits};
ghost use Rattle.heap_model.specs.calls.CollectorCalls.{StepsTo};

use heap_model::{CollectorCalls, Entry, Id, Memory, Turn};
use std::alloc::Global;
use std::marker::Model;

/// A collector that waits once for the seat 0 between two phases. In each cycle it swings one array, frees 3 fragments
/// and returns 2 spine words.
#[derive(Drop)]
pub(super) struct Cycling {
    pub(super) log: Vec<Entry>,
    phase: u64,
    turns: u64,
    last_turn: Option<Turn>,
}

impl Model for Cycling {
    ghost use Rattle.std.specs.Prelude.{◌-◌, ◌≤◌, length, vec_len, vec_capacity};
    ghost use Rattle.heap_model.specs.calls.CollectorCalls.{CollectorState};

    ghost Value = { CollectorState };

    ghost view = { λ c. record {
      log = c.log.items;
      spare = vec_capacity c.log - vec_len c.log;
      phase = c.phase;
      turns = c.turns;
      last_turn = c.last_turn;
    } };

    ghost invariant = { λ c. c.phase ≤ length c.log.items };
}

impl Cycling {
    pub(super) fn new(alloc: Global) -> Cycling
        ensures { result.log ≡ [] }
    {
        Cycling {
            log: Vec::new(alloc),
            phase: 0,
            turns: 0,
            last_turn: None,
        }
    }
}

/// Adds an entry, for which there is room.
fn note(log: &mut Vec<Entry>, entry: Entry)
    requires { vec_len log.old < vec_capacity log.old }
    ensures items { log.new.items ≡ log.old.items ++ entry ∷ [] }
    ensures len { vec_len log.new ≡ vec_len log.old + 1 }
    ensures capacity { vec_capacity log.new ≡ vec_capacity log.old }
{
    log.push_reserved(entry);
}

/// What a step adds that ends no phase.
fn work(phase: u64, turns: u64) -> Option<Entry>
    ensures { IfSome result (λ entry. StepsTo phase entry phase) }
{
    match (phase % 7, turns % 4) {
        (4, 0) => Some(Entry::Swings(Id::Made { seat: 0, count: 0 })),
        (5, 0) => Some(Entry::Frees(3)),
        (5, 2) => Some(Entry::Returns(2)),
        _ => None,
    }
}

/// The turn that finds the seat 0 one phase behind.
pub(super) fn wait_in(phase: u64) -> Turn
    requires { 1 ≤ phase }
    ensures { result ≡ Waits 0 (phase - 1) phase }
{
    Turn::Waits {
        seat: 0,
        answered: phase - 1,
        phase,
    }
}

impl CollectorCalls for Cycling {
    ghost state = { λ collector. collector };

    // Each second turn is a step.
    ghost turned = { λ old _ turn. old.turns % 2 ≡ 0 → turn ≡ Stepped };

    fn turn(&mut self) -> Turn {
        let phase = self.phase;
        let turn = if self.turns % 2 == 0 {
            if let Some(entry) = work(phase, self.turns) {
                note(&mut self.log, entry);
            }
            Turn::Stepped
        } else if self.turns % 4 == 1 && phase > 0 {
            wait_in(phase)
        } else {
            self.phase += 1;
            if phase % 7 == 6 {
                let cycle = phase / 7;
                note(&mut self.log, Entry::Ends { cycle, kept: 0 });
                Turn::Ended { cycle, kept: 0 }
            } else {
                note(&mut self.log, Entry::Advance(phase + 1));
                Turn::Stepped
            }
        };
        self.turns = self.turns.saturating_add(1);
        self.last_turn = Some(turn);
        turn
    }

    fn room(&mut self, n: usize) -> Result<(), Memory> {
        self.log.reserve(n)?;
        Ok(())
    }

    fn spare(&self) -> usize {
        self.log.capacity() - self.log.len()
    }

    fn phase(&self) -> u64 {
        self.phase
    }

    fn turns(&self) -> u64 {
        self.turns
    }
}
