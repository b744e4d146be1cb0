ghost use Rattle.std.specs.Prelude.{◌≡◌, ◌+◌};
ghost use Rattle.core_machine.specs.declared.step.Step.TheVariants.{Turning};
ghost use Rattle.core_machine.specs.declared.step.TurningStep.TheVariants.{AdvanceStore, EndAdvance};
ghost use Rattle.heap_table.specs.CollectorHeld.{MayTurn, IsTurned};

use crate::collector::CollectorHolder;
use core_machine::{CountsEntries, Entries, Step, TurningStep};

impl<L: Entries, C: CountsEntries> CollectorHolder<L, C> {
    /// The number of the next phase.
    fn next_phase(&self) -> u64
        ensures { result ≡ self.now.known.collector.phase + 1 }
    {
        self.party.phase() + 1
    }

    /// Stores the next phase, which begins.
    pub fn advance_store(&mut self)
        requires { MayTurn self.old (Turning (AdvanceStore (self.old.known.collector.phase + 1))) }
        ensures { IsTurned self.old self.new 0 }
    {
        let phase = self.next_phase();
        self.turn_quietly(&Step::Turning(TurningStep::AdvanceStore { phase }));
    }

    /// Stores the next phase, with which the cycle has ended; so many fragments were taken as its marks were cleared.
    pub fn end_advance(&mut self, kept: u64)
        requires { MayTurn self.old (Turning (EndAdvance (self.old.known.collector.phase + 1) kept)) }
        ensures { IsTurned self.old self.new 0 }
    {
        let phase = self.next_phase();
        self.turn_quietly(&Step::Turning(TurningStep::EndAdvance { phase, kept }));
    }
}
