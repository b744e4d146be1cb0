ghost use Rattle.core_machine.specs.declared.step.Step.TheVariants.{Access};
ghost use Rattle.core_machine.specs.declared.step.AccessStep.TheVariants.{WalkLoad, GetLoad, OldLoad, Shade, Swap, CompareSwap};
ghost use Rattle.heap_table.specs.SeatHeld.{MayStep, StepFinds, IsStepped};

use crate::holder::Holder;
use crate::shared_steps::SharedSteps;
use core_machine::{AccessStep, Entries, Step};

impl<L: Entries> Holder<L> {
    /// Loads the first word of a fragment: a meta or a link.
    pub fn walk_load(&mut self, fragment: u16) -> u64
        requires { MayStep self.old (Access (WalkLoad fragment)) }
        ensures { StepFinds self.old self.new result }
    {
        self.found_by(&Step::Access(AccessStep::WalkLoad { fragment }))
    }

    /// Loads a field for a get.
    pub fn get_load(&mut self, fragment: u16, part: u8) -> u64
        requires { MayStep self.old (Access (GetLoad fragment part)) }
        ensures { StepFinds self.old self.new result }
    {
        self.found_by(&Step::Access(AccessStep::GetLoad { fragment, part }))
    }

    /// Loads a field for a set.
    pub fn old_load(&mut self, fragment: u16, part: u8) -> u64
        requires { MayStep self.old (Access (OldLoad fragment part)) }
        ensures { StepFinds self.old self.new result }
    {
        self.found_by(&Step::Access(AccessStep::OldLoad { fragment, part }))
    }

    /// Marks a fragment.
    pub fn shade(&mut self, fragment: u16)
        requires { MayStep self.old (Access (Shade fragment)) }
        ensures { IsStepped self.old self.new 0 }
    {
        self.step_quietly(&Step::Access(AccessStep::Shade { fragment }));
    }

    /// Exchanges a field's word for this one.
    pub fn swap(&mut self, fragment: u16, part: u8, word: u64) -> u64
        requires { MayStep self.old (Access (Swap fragment part word)) }
        ensures { StepFinds self.old self.new result }
    {
        self.found_by(&Step::Access(AccessStep::Swap {
            fragment,
            part,
            word,
        }))
    }

    /// Exchanges a field's word for the new one, where it is the old one.
    pub fn compare_swap(&mut self, fragment: u16, part: u8, old: u64, new: u64) -> u64
        requires { MayStep self.old (Access (CompareSwap fragment part old new)) }
        ensures { StepFinds self.old self.new result }
    {
        self.found_by(&Step::Access(AccessStep::CompareSwap {
            fragment,
            part,
            old,
            new,
        }))
    }
}
