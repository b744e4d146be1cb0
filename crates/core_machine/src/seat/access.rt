ghost use Rattle.std.specs.Prelude.{◌≡◌, ◌+◌, ◌<◌, ◌^◌, IfSome};
ghost use Rattle.heap_model.specs.Limits.{register_count, most_seats, set_limit};
ghost use Rattle.heap_model.specs.graph.Growth.{set_stamp};
ghost use Rattle.core_machine.specs.seat.Seat.{with_entries, with_held};
ghost use Rattle.core_machine.specs.seat.Commands.{target_of, source_of};
ghost use Rattle.heap_words.specs.Loaded.{head_of};
ghost use Rattle.core_machine.specs.seat.Access.{after_get, after_old, new_point_of};
ghost use Rattle.core_machine.specs.seat.AccessMoves.{got_adds, name_move, old_move, swap_move, loaded_head_of, new_register_of, new_word_of};
ghost use Rattle.core_machine.specs.seat.Registers.{register_head, register_in, register_word, seen_in, IsSmall};
ghost use Rattle.core_machine.specs.Moves.{seat_after};
ghost use Rattle.core_machine.specs.machine.Value.{KeepsRoom};

use crate::log::Entries;
use crate::point::{Access, Point};
use crate::seat::SeatParty;
use crate::seat::commands::Operands;
use crate::seat::register::Register;
use crate::table::decode::{id_in, plain_in};
use heap_model::limits::STAMP_LIMIT;
use heap_model::{Reply, Value};
use heap_words::{head_in, stamp_in};

/// The new value is shaded where it is an object; then comes the swap.
fn new_point(register: &Register) -> Access
    ensures { result ≡ new_point_of (register_head register.now) }
{
    match register {
        Register::Object { .. } => Access::ShadingNew,
        Register::Nil | Register::Number(_) => Access::Swapping,
    }
}

impl<L: Entries> SeatParty<L> {
    /// The first fragment of the object that the loaded field refers to.
    pub(crate) fn loaded_head(&self) -> u16
        requires { IfSome (head_of self.now.seat.loaded) (λ head. head < 2 ^ 16) }
        ensures { result ≡ loaded_head_of self.now.seat }
    {
        match head_in(self.loaded) {
            Some(head) => head as u16,
            None => 0,
        }
    }

    /// What a register holds.
    #[inline(always)]
    pub fn register(&self, r: u8) -> Register
        requires { r < register_count }
        ensures { result ≡ register_in self.now.seat.registers r }
    {
        self.registers[r as usize]
    }

    /// The stamp of the seat's next set.
    #[inline(always)]
    fn next_stamp(&self, number: u8) -> u32
        requires number { number < most_seats }
        requires stamp { self.now.seat.sets + 1 < set_limit }
        ensures { result ≡ set_stamp number (self.now.seat.sets + 1) }
    {
        let count = (self.sets + 1) % u64::from(STAMP_LIMIT);
        (u32::from(number) + 1) * STAMP_LIMIT + count as u32
    }

    /// The word that the seat's next set puts into a field, of what register `v` holds.
    #[inline(always)]
    pub fn word_to_set(&self, number: u8, v: u8) -> u64
        requires source { v < register_count }
        requires small { IsSmall (register_in self.now.seat.registers v) }
        requires number { number < most_seats }
        requires stamp { self.now.seat.sets + 1 < set_limit }
        ensures { result ≡ register_word (register_in self.now.seat.registers v) (set_stamp number (self.now.seat.sets + 1)) }
    {
        self.register(v).word(self.next_stamp(number))
    }

    /// The word of what register `a` holds, under the stamp that it was seen under.
    #[inline(always)]
    pub fn word_seen(&self, a: u8) -> u64
        requires register { a < register_count }
        requires small { IsSmall (register_in self.now.seat.registers a) }
        ensures { result ≡ register_word (register_in self.now.seat.registers a) (seen_in self.now.seat.seen a) }
    {
        self.register(a).word(self.seen[a as usize])
    }

    /// What a set puts into the field.
    pub(crate) fn new_register(&self) -> Register
        requires { source_of self.now.seat.command < register_count }
        ensures { result ≡ new_register_of self.now.seat }
    {
        self.registers[Operands::of(&self.command).source as usize]
    }

    /// The new word of the field.
    pub(crate) fn new_word(&self, number: u8) -> u64
        requires source { source_of self.now.seat.command < register_count }
        requires small { IsSmall (new_register_of self.now.seat) }
        requires number { number < most_seats }
        requires stamp { self.now.seat.sets + 1 < set_limit }
        ensures { result ≡ new_word_of number self.now.seat }
    {
        self.new_register().word(self.next_stamp(number))
    }

    /// The register has another value, seen under this stamp.
    pub(crate) fn hold(&mut self, d: u8, register: Register, stamp: u32)
        requires { d < register_count }
        ensures seat { self.new.seat ≡ with_held self.old.seat d register stamp }
        ensures spare { self.new.spare ≡ self.old.spare }
        ensures forgotten { self.new.forgotten ≡ self.old.forgotten }
    {
        self.registers[d as usize] = register;
        self.seen[d as usize] = stamp;
    }

    /// Learns the field of a get.
    pub(crate) fn learn_get(&mut self, number: u8, found: u64)
        requires target { target_of self.old.seat.command < register_count }
        requires spare { 0 < self.old.spare }
        ensures seat { self.new.seat ≡ with_entries (after_get self.old.seat found (head_of found)) (got_adds number self.old.seat found (head_of found)) }
        ensures spare { KeepsRoom self.old self.new }
        ensures forgotten { self.new.forgotten ≡ self.old.forgotten }
    {
        if head_in(found).is_some() {
            self.loaded = found;
            self.point = Point::Access(Access::Naming);
            return;
        }
        let register = plain_in(found);
        let stamp = stamp_in(found);
        let target = Operands::of(&self.command).target;
        self.hold(target, register, stamp);
        self.reply(
            number,
            Reply::Got {
                value: register.value(),
                stamp,
            },
        );
    }

    /// Learns the name of the object that the field of a get refers to.
    pub(crate) fn learn_name(&mut self, number: u8, found: u64)
        requires target { target_of self.old.seat.command < register_count }
        requires head { IfSome (head_of self.old.seat.loaded) (λ head. head < 2 ^ 16) }
        requires spare { 0 < self.old.spare }
        ensures seat { self.new.seat ≡ seat_after (name_move number self.old.seat) found }
        ensures spare { KeepsRoom self.old self.new }
        ensures forgotten { self.new.forgotten ≡ self.old.forgotten }
    {
        let head = self.loaded_head();
        let stamp = stamp_in(self.loaded);
        let id = id_in(found);
        let target = Operands::of(&self.command).target;
        self.hold(target, Register::Object { head, id }, stamp);
        self.reply(
            number,
            Reply::Got {
                value: Value::Object(id),
                stamp,
            },
        );
    }

    /// Learns the old value of a set's field.
    pub(crate) fn learn_old(&mut self, found: u64)
        requires { source_of self.old.seat.command < register_count }
        ensures seat { self.new.seat ≡ seat_after (old_move self.old.seat) found }
        ensures spare { self.new.spare ≡ self.old.spare }
        ensures forgotten { self.new.forgotten ≡ self.old.forgotten }
    {
        self.loaded = found;
        if head_in(found).is_some() {
            self.point = Point::Access(Access::ShadingOld);
        } else {
            self.finish_old();
        }
    }

    /// The old value is dealt with.
    pub(crate) fn finish_old(&mut self)
        requires { source_of self.old.seat.command < register_count }
        ensures seat { self.new.seat ≡ after_old self.old.seat }
        ensures spare { self.new.spare ≡ self.old.spare }
        ensures forgotten { self.new.forgotten ≡ self.old.forgotten }
    {
        let register = self.new_register();
        self.point = Point::Access(new_point(&register));
    }

    /// Learns what the swap took out of the field.
    pub(crate) fn learn_swap(&mut self, number: u8, found: u64)
        requires sets { self.old.seat.sets < set_limit }
        requires spare { 0 < self.old.spare }
        ensures seat { self.new.seat ≡ seat_after (swap_move number self.old.seat) found }
        ensures spare { KeepsRoom self.old self.new }
        ensures forgotten { self.new.forgotten ≡ self.old.forgotten }
    {
        self.sets += 1;
        self.reply(number, Reply::Was(stamp_in(found)));
    }
}
