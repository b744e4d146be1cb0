ghost use Rattle.std.specs.Prelude.{◌≡◌, ◌+◌, ◌<◌, ◌≤◌, ◌==◌, length, take, drop};
ghost use Rattle.heap_model.specs.Command.{IsCommand};
ghost use Rattle.heap_model.specs.Limits.{register_count, name_limit, set_limit};
ghost use Rattle.heap_model.specs.declared.command.Command.TheVariants.{New, Len, Poll};
ghost use Rattle.heap_model.specs.declared.id.Value.TheVariants.{Object as Referred};
ghost use Rattle.heap_model.specs.declared.reply.Reply.TheVariants.{Got, Length, Phase, Was};
ghost use Rattle.heap_words.specs.Loaded.{length_of, stamp_of};
ghost use Rattle.core_machine.specs.declared.seat.register.Register.TheVariants.{Object as Refers};
ghost use Rattle.core_machine.specs.seat.Access.{after_replace, after_swap, with_register_filled};
ghost use Rattle.core_machine.specs.seat.AccessMoves.{got_reply, replaced_reply, reply_entries};
ghost use Rattle.core_machine.specs.seat.Commands.{target_of};
ghost use Rattle.core_machine.specs.seat.Seat.{HasNoCall, need, seat_after_reply, with_entries, with_seen};
ghost use Rattle.core_machine.specs.seat.HandshakeMoves.{local_move};
ghost use Rattle.core_machine.specs.table.Decode.{id_of, plain_of};
ghost use Rattle.core_machine.specs.Moves.{last_birth_move, seat_after};
ghost use Rattle.core_machine.specs.machine.Value.{KeepsRoom};

use crate::log::Entries;
use crate::seat::SeatParty;
use crate::seat::commands::Operands;
use crate::seat::register::Register;
use crate::table::decode::{id_in, plain_in};
use crate::table::fragments::{Reserve, refill};
use heap_model::{Command, Entry, Id, Reply, Value};
use heap_words::{Meta, stamp_in};

/// How calls end whose steps were made while the party stood where they began.
impl<L: Entries> SeatParty<L> {
    /// Ends the command with this reply.
    #[inline(always)]
    pub fn end_reply(&mut self, number: u8, command: Command, reply: Reply)
        requires rest { HasNoCall self.old.seat }
        requires spare { 0 < self.old.spare }
        ensures seat { self.new.seat ≡ seat_after_reply number (record self.old.seat { command = command }) reply }
        ensures spare { KeepsRoom self.old self.new }
        ensures forgotten { self.new.forgotten ≡ self.old.forgotten }
    {
        self.command = command;
        self.looks.forget();
        self.note(Entry::Said {
            seat: number,
            command,
            reply,
        });
    }

    /// Ends the get whose field had this word, which refers to no object.
    #[inline(always)]
    pub fn end_get(&mut self, number: u8, command: Command, found: u64)
        requires rest { HasNoCall self.old.seat }
        requires target { target_of command < register_count }
        requires spare { 0 < self.old.spare }
        ensures seat { self.new.seat ≡ with_entries (with_register_filled (record self.old.seat { command = command }) (plain_of found) (stamp_of found))
            (reply_entries number (record self.old.seat { command = command }) (got_reply (plain_of found) found)) }
        ensures spare { KeepsRoom self.old self.new }
        ensures forgotten { self.new.forgotten ≡ self.old.forgotten }
    {
        let register = plain_in(found);
        let stamp = stamp_in(found);
        let value = register.value();
        self.end_reply(number, command, Reply::Got { value, stamp });
        self.hold(Operands::of(&command).target, register, stamp);
    }

    /// Ends the get whose field had this word, which refers to the object with this first fragment, whose name was found.
    #[inline(always)]
    pub fn end_named_get(&mut self, number: u8, command: Command, loaded: u64, head: u16, name: u64)
        requires rest { HasNoCall self.old.seat }
        requires target { target_of command < register_count }
        requires spare { 0 < self.old.spare }
        ensures seat { self.new.seat ≡ with_entries (with_register_filled (record self.old.seat { command = command }) (Refers head (id_of name)) (stamp_of loaded))
            (reply_entries number (record self.old.seat { command = command }) (Got (Referred (id_of name)) (stamp_of loaded))) }
        ensures spare { KeepsRoom self.old self.new }
        ensures forgotten { self.new.forgotten ≡ self.old.forgotten }
    {
        let id = id_in(name);
        let stamp = stamp_in(loaded);
        let value = Value::Object(id);
        self.end_reply(number, command, Reply::Got { value, stamp });
        self.hold(
            Operands::of(&command).target,
            Register::Object { head, id },
            stamp,
        );
    }

    /// Ends the set that took this word out of its field.
    #[inline(always)]
    pub fn end_set(&mut self, number: u8, command: Command, found: u64)
        requires rest { HasNoCall self.old.seat }
        requires sets { self.old.seat.sets < set_limit }
        requires spare { 0 < self.old.spare }
        ensures seat { self.new.seat ≡ with_entries (after_swap (record self.old.seat { command = command }))
            (reply_entries number (record self.old.seat { command = command }) (Was (stamp_of found))) }
        ensures spare { KeepsRoom self.old self.new }
        ensures forgotten { self.new.forgotten ≡ self.old.forgotten }
    {
        self.end_reply(number, command, Reply::Was(stamp_in(found)));
        self.sets += 1;
    }

    /// Ends the compare and swap that expected one word in its field and found another, or the same.
    #[inline(always)]
    pub fn end_cas(&mut self, number: u8, command: Command, expected: u64, found: u64)
        requires rest { HasNoCall self.old.seat }
        requires sets { self.old.seat.sets < set_limit }
        requires spare { 0 < self.old.spare }
        ensures seat { self.new.seat ≡ with_entries (after_replace (record self.old.seat { command = command }) (found == expected))
            (reply_entries number (record self.old.seat { command = command }) (replaced_reply found (found == expected))) }
        ensures spare { KeepsRoom self.old self.new }
        ensures forgotten { self.new.forgotten ≡ self.old.forgotten }
    {
        let stamp = stamp_in(found);
        if found == expected {
            self.end_reply(number, command, Reply::Was(stamp));
            self.sets += 1;
        } else {
            self.end_reply(number, command, Reply::Now(stamp));
        }
    }

    /// Ends the call that looks at no word, whose load of the phase found this one.
    #[inline(always)]
    pub fn end_local(&mut self, number: u8, command: Command, found: u64)
        requires rest { HasNoCall self.old.seat }
        requires command { IsCommand command }
        requires spare { 0 < self.old.spare }
        ensures seat { self.new.seat ≡ seat_after (local_move number (record self.old.seat { command = command })) found }
        ensures spare { KeepsRoom self.old self.new }
        ensures forgotten { self.new.forgotten ≡ self.old.forgotten }
    {
        self.command = command;
        let reply = self.local_reply();
        self.end_reply(number, command, reply);
        self.looks.see(found);
        self.change_register();
    }

    /// Ends the len whose object has this meta.
    #[inline(always)]
    pub fn end_len(&mut self, number: u8, r: u8, meta: u64)
        requires rest { HasNoCall self.old.seat }
        requires spare { 0 < self.old.spare }
        ensures seat { self.new.seat ≡ seat_after_reply number (record self.old.seat { command = Len r }) (Length (length_of meta)) }
        ensures spare { KeepsRoom self.old self.new }
        ensures forgotten { self.new.forgotten ≡ self.old.forgotten }
    {
        let length = Meta::length_in(meta);
        self.end_reply(number, Command::Len { r }, Reply::Length(length));
    }

    /// Ends the poll whose load found this phase, where the seat has answered that.
    #[inline(always)]
    pub fn end_poll(&mut self, number: u8, found: u64)
        requires rest { HasNoCall self.old.seat }
        requires spare { 0 < self.old.spare }
        ensures seat { self.new.seat ≡ seat_after_reply number (with_seen found (record self.old.seat { command = Poll })) (Phase found) }
        ensures spare { KeepsRoom self.old self.new }
        ensures forgotten { self.new.forgotten ≡ self.old.forgotten }
    {
        self.end_reply(number, Command::Poll, Reply::Phase(found));
        self.looks.see(found);
    }

    /// Ends the making of a record all of whose fragments were in the reserve.
    #[inline(always)]
    pub fn end_record(&mut self, number: u8, d: u8, fields: u16)
        requires rest { HasNoCall self.old.seat }
        requires command { IsCommand (New d fields) }
        requires enough { need (record self.old.seat { command = New d fields }) ≤ length self.old.seat.reserve }
        requires numbered { self.old.seat.made + 1 < name_limit }
        requires spare { 0 < self.old.spare }
        ensures seat { let seat = record self.old.seat { command = New d fields } in
            self.new.seat ≡ seat_after (last_birth_move number (record seat { body = take (need seat) seat.reserve; reserve = drop (need seat) seat.reserve })) 0 }
        ensures spare { KeepsRoom self.old self.new }
        ensures forgotten { self.new.forgotten ≡ self.old.forgotten }
    {
        let command = Command::New { d, fields };
        let head = self.reserve[0];
        let id = Id::Made {
            seat: number,
            count: self.made,
        };
        self.end_reply(number, command, Reply::Made(id));
        self.hold(d, Register::Object { head, id }, 0);
        self.made += 1;
        let mut rest = Reserve::new();
        refill(
            &mut rest,
            &self.reserve.as_slice()[command.need() as usize..],
        );
        self.reserve = rest;
    }
}
