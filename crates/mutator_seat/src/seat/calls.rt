ghost use Rattle.heap_model.specs.calls.SeatCalls.{IsReady};
ghost use Rattle.core_machine.specs.seat.Commands.{IsServed};
ghost use Rattle.mutator_seat.specs.Calls.{MakesCall};
ghost use Rattle.mutator_seat.specs.Replies.{IsReplyTo};
ghost use Rattle.mutator_seat.specs.Resting.{seat_state};

use crate::run::{last_reply, run_whole};
use crate::seat::Seat;
use core_machine::ShowsLast;
use heap_model::{Command, Reply};
use heap_table::step_laws;

impl<L: ShowsLast> Seat<L> {
    /// Makes a whole call, step by step, while others may step between any two, and answers its reply.
    #[inline(always)]
    pub fn call(&mut self, command: &Command) -> Reply
        requires ready { IsReady (seat_state self.old) command.now }
        requires served { IsServed command.now }
        ensures { MakesCall self.old self.new command.now result }
    {
        step_laws();
        run_whole(&mut self.holder, command);
        match last_reply(self.holder.party()) {
            Some(reply) => reply,
            None => unreachable!(),
        }
    }

    /// Makes a whole call, and answers its reply, which is of a kind that the command can have.
    #[inline(always)]
    pub(crate) fn reply_to(&mut self, command: &Command) -> Reply
        requires ready { IsReady (seat_state self.old) command.now }
        requires served { IsServed command.now }
        ensures call { MakesCall self.old self.new command.now result }
        ensures kind { IsReplyTo command.now result }
    {
        self.call(command)
    }
}
