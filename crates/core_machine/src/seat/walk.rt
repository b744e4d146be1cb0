ghost use Rattle.std.specs.Prelude.{◌≡◌, ◌*◌, ◌<◌, ◌≤◌, ◌^◌, IfSome};
ghost use Rattle.heap_model.specs.Command.{IsCommand};
ghost use Rattle.heap_model.specs.Limits.{last_index, register_count};
ghost use Rattle.core_machine.specs.seat.Commands.{field_of};
ghost use Rattle.heap_words.specs.Loaded.{pointer_in, array_length_of, payload_in};
ghost use Rattle.core_machine.specs.seat.Access.{row_of, part_of, has_barrier_of, field_point_of, way_point_of, access_start, with_field_place, after_walk, after_length, after_index, field_reply_of, meta_reply_of};
ghost use Rattle.core_machine.specs.seat.AccessMoves.{open_move};
ghost use Rattle.core_machine.specs.seat.Registers.{register_in};
ghost use Rattle.core_machine.specs.Moves.{seat_after};
ghost use Rattle.core_machine.specs.machine.Value.{KeepsRoom};

use crate::log::Entries;
use crate::point::{Access, Point};
use crate::seat::SeatParty;
use crate::seat::commands::Operands;
use crate::seat::register::Register;
use heap_model::phase_plan::{BARRIERS, CLEARING, CYCLE_PHASES};
use heap_model::{Command, Reply};
use heap_words::{Meta, array_length, link_in, payload};

/// The row in which a field stands: 0 is the object's first fragment, 1 its second.
fn row(field: u32) -> u16
    requires { field ≤ last_index }
    ensures { result ≡ row_of field }
{
    ((field + 1) / 3) as u16
}

/// The word of its fragment in which a field stands.
fn part(field: u32) -> u8
    requires { field ≤ last_index }
    ensures { result ≡ part_of field }
{
    ((field + 1) % 3 + 1) as u8
}

/// The reply at an object's meta to a command on this field, where there is no such field.
fn field_reply(field: u32, found: u64) -> Option<Reply>
    ensures { result ≡ field_reply_of field found }
{
    if field < u32::from(Meta::length_in(found)) {
        None
    } else {
        Some(Reply::NoField)
    }
}

/// The reply at an object's meta, where the call ends there.
fn meta_reply(command: &Command, found: u64) -> Option<Reply>
    ensures { result ≡ meta_reply_of command.now found }
{
    match *command {
        Command::Len { .. } => Some(Reply::Length(Meta::length_in(found))),
        Command::Get { i, .. } | Command::Set { i, .. } | Command::Cas { i, .. } => {
            field_reply(i, found)
        }
        _ => None,
    }
}

impl<L: Entries> SeatParty<L> {
    /// The way begins at the object that the register holds; without an object the reply is told at once.
    pub(crate) fn open(&mut self, r: u8)
        requires register { r < register_count }
        ensures seat { self.new.seat ≡ access_start self.old.seat (register_in self.old.seat.registers r) }
        ensures spare { self.new.spare ≡ self.old.spare }
        ensures forgotten { self.new.forgotten ≡ self.old.forgotten }
    {
        let Register::Object { head, .. } = self.registers[r as usize] else {
            self.point = Point::Local;
            return;
        };
        self.reached = head;
        self.point = Point::Access(Access::LoadingMeta);
    }

    /// Learns where the field of the call stands.
    fn learn_field_place(&mut self)
        requires { field_of self.old.seat.command ≤ last_index }
        ensures seat { self.new.seat ≡ with_field_place self.old.seat }
        ensures spare { self.new.spare ≡ self.old.spare }
        ensures forgotten { self.new.forgotten ≡ self.old.forgotten }
    {
        let field = Operands::of(&self.command).field;
        self.links = row(field);
        self.part = part(field);
    }

    /// Whether a set or a compare and swap has to shade what it takes out and what it puts in.
    pub fn has_barrier(&self) -> bool
        ensures { result ≡ has_barrier_of self.now.seat }
    {
        let k = self.answered % CYCLE_PHASES;
        BARRIERS <= k && k < CLEARING
    }

    /// What is done with the field.
    fn field_point(&self) -> Access
        requires { IsCommand self.now.seat.command }
        ensures { result ≡ field_point_of self.now.seat self.now.seat.command }
    {
        match self.command {
            Command::Set { .. } if self.has_barrier() => Access::LoadingOld,
            Command::Set { .. } => Access::Swapping,
            Command::Cas { .. } if self.has_barrier() => self.guard_point(),
            Command::Cas { .. } => Access::Replacing,
            _ => Access::Getting,
        }
    }

    /// Where the way stands at a fragment.
    fn way_point(&self) -> Access
        requires { IsCommand self.now.seat.command }
        ensures { result ≡ way_point_of self.now.seat }
    {
        if self.links == 0 {
            self.field_point()
        } else {
            Access::Walking
        }
    }

    /// Learns the first word of the fragment that was reached.
    pub(crate) fn learn_link(&mut self, found: u64)
        requires command { IsCommand self.old.seat.command }
        requires leads { IfSome (pointer_in 0 found) (λ fragment. fragment < 2 ^ 16) }
        ensures seat { self.new.seat ≡ after_walk self.old.seat found }
        ensures spare { self.new.spare ≡ self.old.spare }
        ensures forgotten { self.new.forgotten ≡ self.old.forgotten }
    {
        if self.links > 0 {
            self.reached = link_in(found);
            self.links -= 1;
        }
        self.point = Point::Access(self.way_point());
    }

    /// Learns by the meta whether the way goes by links or by a spine.
    fn learn_length(&mut self, found: u64)
        requires command { IsCommand self.old.seat.command }
        requires field { field_of self.old.seat.command ≤ last_index }
        requires leads { IfSome (pointer_in 0 found) (λ fragment. fragment < 2 ^ 16) }
        ensures seat { self.new.seat ≡ after_length self.old.seat found (array_length_of found) }
        ensures spare { self.new.spare ≡ self.old.spare }
        ensures forgotten { self.new.forgotten ≡ self.old.forgotten }
    {
        if array_length(found).is_some() {
            self.links = 0;
            self.part = (Operands::of(&self.command).field % 4) as u8;
            self.point = Point::Access(Access::LoadingSpot);
            return;
        }
        self.learn_field_place();
        self.learn_link(found);
    }

    /// Learns the spine word that names the cell's fragment.
    pub(crate) fn learn_index(&mut self, found: u64)
        requires command { IsCommand self.old.seat.command }
        requires leads { payload_in found < 2 ^ 16 }
        ensures seat { self.new.seat ≡ after_index self.old.seat found }
        ensures spare { self.new.spare ≡ self.old.spare }
        ensures forgotten { self.new.forgotten ≡ self.old.forgotten }
    {
        self.reached = payload(found);
        self.point = Point::Access(self.field_point());
    }

    /// Learns the object's meta.
    pub(crate) fn learn_meta(&mut self, number: u8, found: u64)
        requires command { IsCommand self.old.seat.command }
        requires field { field_of self.old.seat.command ≤ last_index }
        requires leads { IfSome (pointer_in 0 found) (λ fragment. fragment < 2 ^ 16) }
        requires spare { 0 < self.old.spare }
        ensures seat { self.new.seat ≡ seat_after (open_move number self.old.seat) found }
        ensures spare { KeepsRoom self.old self.new }
        ensures forgotten { self.new.forgotten ≡ self.old.forgotten }
    {
        let Some(reply) = meta_reply(&self.command, found) else {
            self.learn_length(found);
            return;
        };
        self.reply(number, reply);
    }
}
