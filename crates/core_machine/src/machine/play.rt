ghost use Rattle.std.specs.Prelude.{◌≡◌, ◌+◌, ◌*◌, ◌<◌, ◌≤◌, Some};
ghost use Rattle.heap_model.specs.declared.command.Command.TheVariants.{Leave};
ghost use Rattle.heap_model.specs.account.Space.{need_of};
ghost use Rattle.core_machine.specs.machine.Machine.{Begins, BeginsInner, Can, seat_at};
ghost use Rattle.core_machine.specs.machine.InnerCalls.{PlaysInner};
ghost use Rattle.core_machine.specs.seat.Commands.{IsRecordCall, IsArrayCall};
ghost use Rattle.core_machine.specs.machine.Calls.{PlaysCall, CountsCall, TellsLeave, AnswersNew, AnswersArray, IsPlaceRefusal, LeavesAll, last_reply_of};
ghost use Rattle.core_machine.specs.machine.Value.{spare_of, SpendsRoom};

use crate::log::ShowsRecent;
use crate::machine::Machine;
use heap_model::{Command, Entry, Inner, Reply};

impl<L: ShowsRecent> Machine<L> {
    /// Makes a whole call of the seat, with no step of others between, and answers its reply.
    pub fn play_call(&mut self, seat: u8, command: &Command) -> Reply
        requires can { Can self.old.heap self.old.state (Begins seat command.now) }
        requires room { 2 * need_of command.now + 4 ≤ spare_of self.old seat }
        ensures heap { self.new.heap ≡ self.old.heap }
        ensures steps { PlaysCall self.old.heap self.old.state self.new.state seat command.now result }
        ensures counts { CountsCall (seat_at self.old.state seat) (seat_at self.new.state seat) command.now }
        ensures leave { command.now ≡ Leave → TellsLeave self.old.state self.new.state seat }
        ensures answer { IsRecordCall command.now → AnswersNew self.old.heap self.old.state self.new.state seat command.now result }
        ensures array { IsArrayCall command.now → AnswersArray self.old.heap self.old.state self.new.state seat command.now result }
        ensures refused { IsPlaceRefusal result → LeavesAll self.old.heap self.old.state self.new.state seat result }
        ensures spent { SpendsRoom self.old self.new seat }
    {
        // What is true of every machine, and of the seat's entries, is known from here on.
        let _ = &self.words;
        let _ = self.recent(seat);
        self.begin(seat, *command);
        while let Some(step) = self.due_of_seat(seat) {
            self.step_of_seat(seat, &step);
        }
        match last_reply(self.recent(seat)) {
            Some(reply) => reply,
            None => unreachable!(),
        }
    }

    /// Makes a whole inner call of the seat's collect, with no step of others between.
    pub fn play_inner(&mut self, seat: u8, inner: Inner)
        requires can { Can self.old.heap self.old.state (BeginsInner seat inner) }
        requires room { 4 ≤ spare_of self.old seat }
        ensures heap { self.new.heap ≡ self.old.heap }
        ensures plays { PlaysInner self.old.heap self.old.state self.new.state seat inner }
        ensures spent { SpendsRoom self.old self.new seat }
    {
        // What is true of every machine is known from here on.
        let _ = &self.words;
        self.begin_inner(seat, inner);
        while let Some(step) = self.due_of_seat(seat) {
            self.step_of_seat(seat, &step);
        }
    }
}

/// The reply that the last of the entries tells.
fn last_reply(entries: &[Entry]) -> Option<Reply>
    ensures { result ≡ last_reply_of entries.now }
{
    match entries.last()? {
        Entry::Said { reply, .. } => Some(*reply),
        _ => None,
    }
}
