ghost use Rattle.std.specs.Prelude.{◌≡◌, ◌≤◌, List, IsTrue};
ghost use Rattle.heap_model.specs.declared.command.Command.TheVariants.{Len, Poll};
ghost use Rattle.core_machine.specs.declared.point.Point.TheVariants.{Idle, Local};
ghost use Rattle.core_machine.specs.machine.Machine.{MayBegin, after_begin};
ghost use Rattle.heap_table.specs.Ahead.{begun};
ghost use Rattle.heap_table.specs.Made.{Made, MakesSteps};

use crate::ahead::step_first;
use crate::holder::Holder;
use crate::holder::near::catch_up;
use core_machine::{AccessStep, Entries, Register, Step};
use heap_model::Command;

impl<L: Entries> Holder<L> {
    /// Makes a call that looks at no word but the phase.
    #[inline(always)]
    pub fn local_near(&mut self, command: Command)
        requires may { MayBegin self.old.seat command }
        requires opens { after_begin self.old.heap self.old.seat command ≡ record self.old.seat { command = command; point = Local } }
        requires room { 2 ≤ self.old.spare }
        ensures steps { (made : List Made) × MakesSteps (begun self.old command) self.new made }
        ensures over { self.new.seat.point ≡ Idle }
    {
        let found = step_first(
            &self.table.shared,
            &mut self.token,
            &self.heap,
            self.number,
            &command,
            &Step::PollLoad,
        );
        self.party.end_local(self.number, command, found);
    }

    /// Makes a len.
    #[inline(always)]
    pub fn len_near(&mut self, r: u8)
        requires may { MayBegin self.old.seat (Len r) }
        requires room { 2 ≤ self.old.spare }
        ensures steps { (made : List Made) × MakesSteps (begun self.old (Len r)) self.new made }
        ensures over { self.new.seat.point ≡ Idle }
    {
        let command = Command::Len { r };
        let Register::Object { head, .. } = self.party.register(r) else {
            self.local_near(command);
            return;
        };
        let walk = Step::Access(AccessStep::WalkLoad { fragment: head });
        let meta = step_first(
            &self.table.shared,
            &mut self.token,
            &self.heap,
            self.number,
            &command,
            &walk,
        );
        self.party.end_len(self.number, r, meta);
    }

    /// Makes a poll, in one go where the phase is the one that was answered last. Answers whether it is over; else it is in flight.
    #[inline(always)]
    pub fn poll_near(&mut self) -> bool
        requires may { MayBegin self.old.seat Poll }
        requires room { 2 ≤ self.old.spare }
        ensures steps { (made : List Made) × MakesSteps (begun self.old Poll) self.new made }
        ensures over { IsTrue result → self.new.seat.point ≡ Idle }
    {
        let command = Command::Poll;
        let found = step_first(
            &self.table.shared,
            &mut self.token,
            &self.heap,
            self.number,
            &command,
            &Step::PollLoad,
        );
        if found != self.party.answered() {
            catch_up(&mut self.party, &self.heap, self.number, command, found);
            return false;
        }
        self.party.end_poll(self.number, found);
        true
    }
}
