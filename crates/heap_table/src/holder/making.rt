ghost use Rattle.core_machine.specs.Moves.{bears_black_of};
ghost use Rattle.core_machine.specs.declared.step.Step.TheVariants.{Making};
ghost use Rattle.core_machine.specs.declared.step.MakingStep.TheVariants.{Claim, GiveBack, NewbornStore, Birth, LastBirth};
ghost use Rattle.heap_table.specs.SeatHeld.{MayStep, StepFinds, IsStepped, FindsFree};

use crate::holder::Holder;
use crate::shared_steps::SharedSteps;
use core_machine::{Entries, MakingStep, Step};
use heap_words::Group;

impl<L: Entries> Holder<L> {
    /// Claims every fragment of the group, and answers which of them were free: bit `j` is fragment `j` of the group.
    pub fn claim(&mut self, group: u16) -> u16
        requires { MayStep self.old (Making (Claim group)) }
        ensures { FindsFree self.old self.new result }
    {
        let found = self.found_by(&Step::Making(MakingStep::Claim { group }));
        !Group::read(found).taken
    }

    /// Gives back these fragments of the group.
    pub fn give_back(&mut self, group: u16, bits: u16)
        requires { MayStep self.old (Making (GiveBack group bits)) }
        ensures { IsStepped self.old self.new 0 }
    {
        self.step_quietly(&Step::Making(MakingStep::GiveBack { group, bits }));
    }

    /// Stores a word of an own fragment that isn't born yet.
    pub fn newborn_store(&mut self, fragment: u16, part: u8, word: u64)
        requires { MayStep self.old (Making (NewbornStore fragment part word)) }
        ensures { IsStepped self.old self.new 0 }
    {
        self.step_quietly(&Step::Making(MakingStep::NewbornStore {
            fragment,
            part,
            word,
        }));
    }

    /// Bears these fragments of the group, in the colour of the seat's births.
    pub fn birth(&mut self, group: u16, bits: u16)
        requires { MayStep self.old (Making (Birth group bits (bears_black_of self.old.seat))) }
        ensures { IsStepped self.old self.new 0 }
    {
        let black = self.party.bears_black();
        self.step_quietly(&Step::Making(MakingStep::Birth { group, bits, black }));
    }

    /// Bears these fragments of the group, the last of their object, likewise.
    pub fn last_birth(&mut self, group: u16, bits: u16)
        requires { MayStep self.old (Making (LastBirth group bits (bears_black_of self.old.seat))) }
        ensures { IsStepped self.old self.new 0 }
    {
        let black = self.party.bears_black();
        self.step_quietly(&Step::Making(MakingStep::LastBirth { group, bits, black }));
    }
}
