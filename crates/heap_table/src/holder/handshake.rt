ghost use Rattle.core_machine.specs.declared.step.Step.TheVariants.{PollLoad, Handshake};
ghost use Rattle.core_machine.specs.declared.step.HandshakeStep.TheVariants.{AnswerStore, LeaveStore};
ghost use Rattle.heap_table.specs.SeatHeld.{MayStep, StepFinds, IsStepped};

use crate::holder::Holder;
use crate::shared_steps::SharedSteps;
use core_machine::{Entries, HandshakeStep, Step};

impl<L: Entries> Holder<L> {
    /// Loads the phase.
    pub fn poll_load(&mut self) -> u64
        requires { MayStep self.old (PollLoad) }
        ensures { StepFinds self.old self.new result }
    {
        self.found_by(&Step::PollLoad)
    }

    /// Stores in the seat's own word that it has answered the phase.
    pub fn answer_store(&mut self, phase: u64)
        requires { MayStep self.old (Handshake (AnswerStore self.old.number phase)) }
        ensures { IsStepped self.old self.new 0 }
    {
        let seat = self.number;
        self.step_quietly(&Step::Handshake(HandshakeStep::AnswerStore { seat, phase }));
    }

    /// Stores in the seat's own word that it has left.
    pub fn leave_store(&mut self)
        requires { MayStep self.old (Handshake (LeaveStore self.old.number)) }
        ensures { IsStepped self.old self.new 0 }
    {
        let seat = self.number;
        self.step_quietly(&Step::Handshake(HandshakeStep::LeaveStore { seat }));
    }
}
