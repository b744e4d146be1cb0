ghost use Rattle.std.specs.Prelude.{◌≡◌};
ghost use Rattle.fodderpause_c.specs.Parties.{ShowsCollector};
ghost use Rattle.fodderpause_c.specs.Phases.{phase_shown};
ghost use Rattle.fodderpause_c.specs.Turning.{TakesTurn, MakesTurns, TellsPhase, turn_shown, turns_shown};

use crate::codes::{DONE, refusal_code};
use crate::collector_work::{CollectorWork, on_collector};
use crate::handle::Handle;
use crate::party::HeapCollector;
use crate::phases::Phase;
use crate::refusal::Refusal;
use heap_model::{Turn, TurnsMade};
use std::alloc::Global;

/// A turn came to a step.
pub const STEPPED: u32 = 0;

/// It waits for a seat that has yet to answer the phase.
pub const WAITS: u32 = 1;

/// It ended a cycle.
pub const ENDED: u32 = 2;

/// What C is told of a turn: what it came to, and of a wait the seat, its last answer and the phase; of an end the cycle, and how many fragments it kept.
#[repr(C)]
#[derive(Clone, Copy)]
pub struct Turned {
    pub code: u32,
    pub kind: u32,
    pub seat: u64,
    pub answered: u64,
    pub phase: u64,
    pub cycle: u64,
    pub kept: u64,
}

impl Turned {
    /// With this code and this kind alone.
    fn with(code: u32, kind: u32) -> Turned
        ensures { result ≡ record { code = code; kind = kind; seat = 0; answered = 0; phase = 0; cycle = 0; kept = 0 } }
    {
        Turned {
            code,
            kind,
            seat: 0,
            answered: 0,
            phase: 0,
            cycle: 0,
            kept: 0,
        }
    }

    /// Of what a turn came to, or of why it wasn't made.
    pub fn of(answer: Result<Turn, Refusal>) -> Turned
        ensures { result ≡ turn_shown answer }
    {
        match answer {
            Ok(Turn::Stepped) => Turned::with(DONE, STEPPED),
            Ok(
                Turn::Waits {
                    seat,
                    answered,
                    phase,
                },
            ) => Turned {
                seat: u64::from(seat),
                answered,
                phase,
                ..Turned::with(DONE, WAITS)
            },
            Ok(Turn::Ended { cycle, kept }) => Turned {
                cycle,
                kept,
                ..Turned::with(DONE, ENDED)
            },
            Err(refusal) => Turned::with(refusal_code(refusal), STEPPED),
        }
    }
}

/// What the last of some turns came to, and how many were made; or why none was.
fn turns_shown(answer: Result<TurnsMade, Refusal>) -> (Turned, u64)
    ensures { result ≡ turns_shown answer }
{
    match answer {
        Ok(TurnsMade { made, last }) => (Turned::of(Ok(last.unwrap_or(Turn::Stepped))), made),
        Err(refusal) => (Turned::of(Err(refusal)), 0),
    }
}

/// One turn of the collector.
#[derive(Drop)]
pub struct TurnWork;

/// Many turns of the collector, in one go.
#[derive(Drop)]
pub struct TurnsWork {
    pub n: u64,
}

/// The phase.
#[derive(Drop)]
pub struct PhaseWork;

impl CollectorWork for TurnWork {
    ghost use Rattle.fodderpause_c.specs.Turning.{TakesTurn};

    type Answer = Turn;

    ghost comes_to = { λ _. TakesTurn };

    fn work(&self, collector: &mut HeapCollector) -> Result<Turn, Refusal> {
        if collector.spare() < 2 {
            return Err(Refusal::EntriesSpent);
        }
        let (_, turn) = collector.turn();
        Ok(turn)
    }
}

impl CollectorWork for TurnsWork {
    ghost use Rattle.fodderpause_c.specs.Turning.{MakesTurns};

    type Answer = TurnsMade;

    ghost comes_to = { λ work. MakesTurns work.n };

    fn work(&self, collector: &mut HeapCollector) -> Result<TurnsMade, Refusal> {
        if collector.spare() as u64 <= self.n {
            return Err(Refusal::EntriesSpent);
        }
        Ok(collector.take_turns(self.n))
    }
}

impl CollectorWork for PhaseWork {
    ghost use Rattle.fodderpause_c.specs.Turning.{TellsPhase};

    type Answer = u64;

    ghost comes_to = { λ _. TellsPhase };

    fn work(&self, collector: &mut HeapCollector) -> Result<u64, Refusal> {
        Ok(collector.phase())
    }
}

/// Makes one turn of the collector.
#[unsafe(no_mangle)]
pub extern "C" fn fodderpause_turn(alloc: Global, collector: &mut Handle) -> Turned
    ensures { ShowsCollector TakesTurn turn_shown collector.old.pointer.party collector.new.pointer.party result }
{
    Turned::of(on_collector(alloc, collector, &TurnWork))
}

/// Makes so many turns of the collector, or those up to the first that waits, and tells what the last of them came to, and how many they are.
#[unsafe(no_mangle)]
pub extern "C" fn fodderpause_turns(
    alloc: Global,
    collector: &mut Handle,
    n: u64,
    made: &mut u64,
) -> Turned
    ensures { ShowsCollector (MakesTurns n) turns_shown collector.old.pointer.party collector.new.pointer.party (result, made.new) }
{
    let (turned, count) = turns_shown(on_collector(alloc, collector, &TurnsWork { n }));
    *made = count;
    turned
}

/// The phase.
#[unsafe(no_mangle)]
pub extern "C" fn fodderpause_phase(alloc: Global, collector: &mut Handle) -> Phase
    ensures { ShowsCollector TellsPhase phase_shown collector.old.pointer.party collector.new.pointer.party result }
{
    Phase::of(on_collector(alloc, collector, &PhaseWork))
}
