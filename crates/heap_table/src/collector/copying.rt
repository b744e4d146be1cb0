ghost use Rattle.core_machine.specs.collector.Collector.{next_half};
ghost use Rattle.core_machine.specs.declared.step.Step.TheVariants.{Copying};
ghost use Rattle.core_machine.specs.declared.step.CopyingStep.TheVariants.{FlipStore, CopyClaim, CopyLoad, CopyStore, SwingStore};
ghost use Rattle.heap_table.specs.CollectorHeld.{MayTurn, IsTurned};

use crate::collector::CollectorHolder;
use crate::shared_steps::SharedSteps;
use core_machine::{CopyingStep, CountsEntries, Entries, Step};

impl<L: Entries, C: CountsEntries> CollectorHolder<L, C> {
    /// Stores the other half's first word as the place of the next spine.
    pub fn flip_store(&mut self)
        requires { MayTurn self.old (Copying (FlipStore (next_half self.old.known.collector.phase))) }
        ensures { IsTurned self.old self.new 0 }
    {
        let step = self.due();
        self.turn_quietly(&step);
    }

    /// Takes the next free spine words for a copy, so many.
    pub fn copy_claim(&mut self, words: u16) -> u64
        requires { MayTurn self.old (Copying (CopyClaim words)) }
        ensures { IsTurned self.old self.new result }
    {
        self.found_by(&Step::Copying(CopyingStep::CopyClaim { words }))
    }

    /// Loads a word of a spine.
    pub fn copy_load(&mut self, half: u8, offset: u32) -> u64
        requires { MayTurn self.old (Copying (CopyLoad half offset)) }
        ensures { IsTurned self.old self.new result }
    {
        self.found_by(&Step::Copying(CopyingStep::CopyLoad { half, offset }))
    }

    /// Stores it in the copy.
    pub fn copy_store(&mut self, half: u8, offset: u32, word: u64)
        requires { MayTurn self.old (Copying (CopyStore half offset word)) }
        ensures { IsTurned self.old self.new 0 }
    {
        self.turn_quietly(&Step::Copying(CopyingStep::CopyStore { half, offset, word }));
    }

    /// Stores where the spine of the array with this first fragment stands now.
    pub fn swing_store(&mut self, sentinel: u16, spot: u64)
        requires { MayTurn self.old (Copying (SwingStore sentinel spot)) }
        ensures { IsTurned self.old self.new 0 }
    {
        self.turn_quietly(&Step::Copying(CopyingStep::SwingStore { sentinel, spot }));
    }
}
