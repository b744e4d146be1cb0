ghost use Rattle.core_machine.specs.declared.step.Step.TheVariants.{Access, Spine, Turning};
ghost use Rattle.core_machine.specs.declared.step.AccessStep.TheVariants.{NameLoad};
ghost use Rattle.core_machine.specs.declared.step.SpineStep.TheVariants.{AddressLoad, WordLoad};
ghost use Rattle.core_machine.specs.declared.step.TurningStep.TheVariants.{LookLoad};

use core_machine::{AccessStep, SpineStep, Step, TurningStep};

/// The typed calls that a seat's holder and the collector's have both.
pub trait SharedSteps {
    ghost use Rattle.std.specs.Prelude.{ℕ};
    ghost use Rattle.core_machine.specs.declared.step.Step.{Step as Steps};

    /// When the holder may make a step.
    ghost may: { Self → Steps → Type 0 };

    /// What it did by a step that found this word.
    ghost finds: { Self → Self → ℕ → Type 0 };

    /// Makes this step, and answers the word found.
    fn found_by(&mut self, step: &Step) -> u64
        requires { may self.old step.now }
        ensures { finds self.old self.new result };

    /// Loads the name of the object with this first fragment.
    fn name_load(&mut self, head: u16) -> u64
        requires { may self.old (Access (NameLoad head)) }
        ensures { finds self.old self.new result }
    {
        self.found_by(&Step::Access(AccessStep::NameLoad { head }))
    }

    /// Loads the place of the spine of the array with this first fragment.
    fn spine_address_load(&mut self, sentinel: u16) -> u64
        requires { may self.old (Spine (AddressLoad sentinel)) }
        ensures { finds self.old self.new result }
    {
        self.found_by(&Step::Spine(SpineStep::AddressLoad { sentinel }))
    }

    /// Loads a spine word.
    fn spine_word_load(&mut self, half: u8, offset: u32) -> u64
        requires { may self.old (Spine (WordLoad half offset)) }
        ensures { finds self.old self.new result }
    {
        self.found_by(&Step::Spine(SpineStep::WordLoad { half, offset }))
    }

    /// Loads a seat's word; of a seat's holder it is another seat.
    fn look_load(&mut self, seat: u8) -> u64
        requires { may self.old (Turning (LookLoad seat)) }
        ensures { finds self.old self.new result }
    {
        self.found_by(&Step::Turning(TurningStep::LookLoad { seat }))
    }
}
