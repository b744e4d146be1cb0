ghost use Rattle.core_machine.specs.declared.step.Step.TheVariants.{Spine};
ghost use Rattle.core_machine.specs.declared.step.SpineStep.TheVariants.{BudgetAdd, BudgetTakeBack, SpotClaim, SpineStore};
ghost use Rattle.heap_table.specs.SeatHeld.{MayStep, StepFinds, IsStepped};

use crate::holder::Holder;
use crate::shared_steps::SharedSteps;
use core_machine::{Entries, SpineStep, Step};

impl<L: Entries> Holder<L> {
    /// Asks for so many spine words.
    pub fn budget_add(&mut self, words: u16) -> u64
        requires { MayStep self.old (Spine (BudgetAdd words)) }
        ensures { StepFinds self.old self.new result }
    {
        self.found_by(&Step::Spine(SpineStep::BudgetAdd { words }))
    }

    /// Takes back so many.
    pub fn budget_take_back(&mut self, words: u16)
        requires { MayStep self.old (Spine (BudgetTakeBack words)) }
        ensures { IsStepped self.old self.new 0 }
    {
        self.step_quietly(&Step::Spine(SpineStep::BudgetTakeBack { words }));
    }

    /// Takes the next free spine words, so many.
    pub fn spot_claim(&mut self, words: u16) -> u64
        requires { MayStep self.old (Spine (SpotClaim words)) }
        ensures { StepFinds self.old self.new result }
    {
        self.found_by(&Step::Spine(SpineStep::SpotClaim { words }))
    }

    /// Stores in a spine word of an array that isn't born yet the fragment that it names.
    pub fn spine_store(&mut self, half: u8, offset: u32, fragment: u16)
        requires { MayStep self.old (Spine (SpineStore half offset fragment)) }
        ensures { IsStepped self.old self.new 0 }
    {
        self.step_quietly(&Step::Spine(SpineStep::SpineStore {
            half,
            offset,
            fragment,
        }));
    }
}
