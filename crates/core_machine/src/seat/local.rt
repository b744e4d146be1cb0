ghost use Rattle.std.specs.Prelude.{◌≡◌, ◌<◌};
ghost use Rattle.heap_model.specs.Command.{IsCommand};
ghost use Rattle.core_machine.specs.seat.Local.{local_reply_of, local_registers, local_seen, answer_of};
ghost use Rattle.core_machine.specs.seat.HandshakeMoves.{local_move};
ghost use Rattle.core_machine.specs.Moves.{seat_after};
ghost use Rattle.core_machine.specs.machine.Value.{KeepsRoom};

use crate::log::Entries;
use crate::seat::SeatParty;
use crate::seat::register::Register;
use heap_model::{Command, Reply};

/// Yes or no.
fn answer(same: bool) -> Reply
    ensures { result ≡ answer_of same }
{
    if same { Reply::Yes } else { Reply::No }
}

impl<L: Entries> SeatParty<L> {
    /// The reply of a command that looks at no word.
    pub(crate) fn local_reply(&self) -> Reply
        requires { IsCommand self.now.seat.command }
        ensures { result ≡ local_reply_of self.now.seat.registers self.now.seat.command }
    {
        match self.command {
            Command::Num { .. } | Command::Nil { .. } | Command::Copy { .. } => Reply::Done,
            Command::Same { a, b } => {
                let a = self.registers[a as usize].value();
                let b = self.registers[b as usize].value();
                answer(a == b)
            },
            _ => Reply::NoObject,
        }
    }

    /// Changes the register that the command names.
    pub(crate) fn change_register(&mut self)
        requires { IsCommand self.old.seat.command }
        ensures seat { self.new.seat ≡ record self.old.seat { registers = local_registers self.old.seat.registers self.old.seat.command; seen = local_seen self.old.seat.seen self.old.seat.command } }
        ensures spare { self.new.spare ≡ self.old.spare }
        ensures forgotten { self.new.forgotten ≡ self.old.forgotten }
    {
        match self.command {
            Command::Num { d, n } => self.hold(d, Register::Number(n), 0),
            Command::Nil { d } => self.hold(d, Register::Nil, 0),
            Command::Copy { d, r } => {
                let (register, stamp) = (self.registers[r as usize], self.seen[r as usize]);
                self.hold(d, register, stamp);
            },
            _ => (),
        }
    }

    /// Tells the reply, at a load of the phase.
    #[inline(always)]
    pub(crate) fn learn_local(&mut self, number: u8, found: u64)
        requires command { IsCommand self.old.seat.command }
        requires spare { 0 < self.old.spare }
        ensures seat { self.new.seat ≡ seat_after (local_move number self.old.seat) found }
        ensures spare { KeepsRoom self.old self.new }
        ensures forgotten { self.new.forgotten ≡ self.old.forgotten }
    {
        let reply = self.local_reply();
        self.looks.see(found);
        self.change_register();
        self.reply(number, reply);
    }
}
