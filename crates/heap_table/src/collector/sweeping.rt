ghost use Rattle.core_machine.specs.declared.step.Step.TheVariants.{Turning, Copying};
ghost use Rattle.core_machine.specs.declared.step.CopyingStep.TheVariants.{BudgetReturn};
ghost use Rattle.core_machine.specs.declared.step.TurningStep.TheVariants.{MetaLoad, Free, Clear};
ghost use Rattle.heap_table.specs.CollectorHeld.{MayTurn, IsTurned};

use crate::collector::CollectorHolder;
use crate::shared_steps::SharedSteps;
use core_machine::{CopyingStep, CountsEntries, Entries, Step, TurningStep};

impl<L: Entries, C: CountsEntries> CollectorHolder<L, C> {
    /// Loads the first word of a dead fragment.
    pub fn meta_load(&mut self, fragment: u16) -> u64
        requires { MayTurn self.old (Turning (MetaLoad fragment)) }
        ensures { IsTurned self.old self.new result }
    {
        self.found_by(&Step::Turning(TurningStep::MetaLoad { fragment }))
    }

    /// Frees these fragments of the group.
    pub fn free(&mut self, group: u16, bits: u16)
        requires { MayTurn self.old (Turning (Free group bits)) }
        ensures { IsTurned self.old self.new 0 }
    {
        self.turn_quietly(&Step::Turning(TurningStep::Free { group, bits }));
    }

    /// Returns the spine words of freed arrays, so many.
    pub fn budget_return(&mut self, words: u32)
        requires { MayTurn self.old (Copying (BudgetReturn words)) }
        ensures { IsTurned self.old self.new 0 }
    {
        self.turn_quietly(&Step::Copying(CopyingStep::BudgetReturn { words }));
    }

    /// Clears the marks of a group.
    pub fn clear(&mut self, group: u16) -> u64
        requires { MayTurn self.old (Turning (Clear group)) }
        ensures { IsTurned self.old self.new result }
    {
        self.found_by(&Step::Turning(TurningStep::Clear { group }))
    }
}
