ghost use Rattle.std.specs.Prelude.{◌≡◌, ◌≤◌, ◌↔◌, length, IsTrue, IsErr, IfOk, IfErr, IfSome, OnOk, OnErr};
ghost use Rattle.heap_model.specs.declared.command.Command.TheVariants.{New, Array, Get, Set, Cas, Num, Nil, Copy, Same, Len, Poll, Leave};
ghost use Rattle.heap_model.specs.declared.reply.Reply.TheVariants.{Phase, Done};
ghost use Rattle.heap_model.specs.Needs.{record_fragments};
ghost use Rattle.heap_model.specs.calls.SeatCalls.{IsReady, Adds};
ghost use Rattle.heap_model.specs.calls.SeatReplies.{record_reply, array_reply, get_reply, set_reply, cas_reply, same_reply, len_reply, next_id, LacksFragments, LacksSpace, KeepsNothing};
ghost use Rattle.heap_model.specs.calls.SeatState.{held_value, HoldsNoObject, own_object};
ghost use Rattle.mutator_seat.specs.Calls.{MakesCall};
ghost use Rattle.mutator_seat.specs.Resting.{seat_state, MakesRoom};
ghost use Rattle.mutator_seat.specs.Swaps.{FindsBySwap};

use crate::answers::{
    array_of, cell_of, equal_of, length_of, phase_of, record_of, stamp_of, swapped_of,
};
use crate::seat::Seat;
use core_machine::ShowsLast;
use heap_model::limits::SET_LIMIT;
use heap_model::{
    Command, Full, Id, Memory, NoObject, PlaceRefusal, SeatCalls, SpaceRefusal, Swapped, Value,
};

impl<L: ShowsLast> SeatCalls for Seat<L> {
    ghost use Rattle.mutator_seat.specs.Resting.{seat_state};

    ghost state = { seat_state };

    ghost roomed = { MakesRoom };

    fn poll(&mut self) -> u64
        requires { IsReady (seat_state self.old) Poll }
        ensures added { Adds (seat_state self.old) (seat_state self.new) Poll (Phase result) }
        ensures call { MakesCall self.old self.new Poll (Phase result) }
    {
        phase_of(self.reply_to(&Command::Poll))
    }

    fn new_record(&mut self, d: u8, fields: u16) -> Result<Id, Full>
        requires { IsReady (seat_state self.old) (New d fields) }
        ensures added { Adds (seat_state self.old) (seat_state self.new) (New d fields) (record_reply result) }
        ensures made { IfOk result (λ id. id ≡ next_id (seat_state self.old)) }
        ensures full { IfErr result (λ full. LacksFragments (seat_state self.old) (seat_state self.new)
            (record_fragments fields) full.need full.found) }
        ensures call { MakesCall self.old self.new (New d fields) (record_reply result) }
    {
        record_of(self.reply_to(&Command::New { d, fields }))
    }

    fn new_array(&mut self, d: u8, cells: u16) -> Result<Id, SpaceRefusal>
        requires { IsReady (seat_state self.old) (Array d cells) }
        ensures added { Adds (seat_state self.old) (seat_state self.new) (Array d cells) (array_reply result) }
        ensures made { IfOk result (λ id. id ≡ next_id (seat_state self.old)) }
        ensures full { IfErr result (LacksSpace (seat_state self.old) (seat_state self.new) cells) }
        ensures call { MakesCall self.old self.new (Array d cells) (array_reply result) }
    {
        array_of(self.reply_to(&Command::Array { d, cells }))
    }

    fn get(&mut self, d: u8, r: u8, i: u32) -> Result<(Value, u32), PlaceRefusal>
        requires { IsReady (seat_state self.old) (Get d r i) }
        ensures added { Adds (seat_state self.old) (seat_state self.new) (Get d r i) (get_reply result) }
        ensures no_object { (result ≡ Err PlaceRefusal.NoObject) ↔ HoldsNoObject (seat_state self.old) r }
        ensures no_field { IfSome (own_object (seat_state self.old) r) (λ object.
            (result ≡ Err PlaceRefusal.NoField) ↔ (length object.cells ≤ i)) }
        ensures call { MakesCall self.old self.new (Get d r i) (get_reply result) }
    {
        cell_of(self.reply_to(&Command::Get { d, r, i }))
    }

    fn set(&mut self, r: u8, i: u32, v: u8) -> Result<u32, PlaceRefusal>
        requires { IsReady (seat_state self.old) (Set r i v) }
        ensures added { Adds (seat_state self.old) (seat_state self.new) (Set r i v) (set_reply result) }
        ensures no_object { (result ≡ Err PlaceRefusal.NoObject) ↔ HoldsNoObject (seat_state self.old) r }
        ensures no_field { IfSome (own_object (seat_state self.old) r) (λ object.
            (result ≡ Err PlaceRefusal.NoField) ↔ (length object.cells ≤ i)) }
        ensures call { MakesCall self.old self.new (Set r i v) (set_reply result) }
    {
        stamp_of(self.reply_to(&Command::Set { r, i, v }))
    }

    fn cas(&mut self, r: u8, i: u32, a: u8, v: u8) -> Result<Swapped, PlaceRefusal>
        requires { IsReady (seat_state self.old) (Cas r i a v) }
        ensures added { Adds (seat_state self.old) (seat_state self.new) (Cas r i a v) (cas_reply result) }
        ensures no_object { (result ≡ Err PlaceRefusal.NoObject) ↔ HoldsNoObject (seat_state self.old) r }
        ensures no_field { IfSome (own_object (seat_state self.old) r) (λ object.
            (result ≡ Err PlaceRefusal.NoField) ↔ (length object.cells ≤ i)) }
        ensures call { MakesCall self.old self.new (Cas r i a v) (cas_reply result) }
        ensures found { IfOk result (FindsBySwap self.old self.new (Cas r i a v)) }
    {
        swapped_of(self.reply_to(&Command::Cas { r, i, a, v }))
    }

    fn num(&mut self, d: u8, n: u32)
        requires { IsReady (seat_state self.old) (Num d n) }
        ensures added { Adds (seat_state self.old) (seat_state self.new) (Num d n) Done }
        ensures call { MakesCall self.old self.new (Num d n) Done }
    {
        self.call(&Command::Num { d, n });
    }

    fn nil(&mut self, d: u8)
        requires { IsReady (seat_state self.old) (Nil d) }
        ensures added { Adds (seat_state self.old) (seat_state self.new) (Nil d) Done }
        ensures call { MakesCall self.old self.new (Nil d) Done }
    {
        self.call(&Command::Nil { d });
    }

    fn copy(&mut self, d: u8, r: u8)
        requires { IsReady (seat_state self.old) (Copy d r) }
        ensures added { Adds (seat_state self.old) (seat_state self.new) (Copy d r) Done }
        ensures call { MakesCall self.old self.new (Copy d r) Done }
    {
        self.call(&Command::Copy { d, r });
    }

    fn same(&mut self, a: u8, b: u8) -> bool
        requires { IsReady (seat_state self.old) (Same a b) }
        ensures added { Adds (seat_state self.old) (seat_state self.new) (Same a b) (same_reply result) }
        ensures same { IsTrue result ↔ (held_value (seat_state self.old) a ≡ held_value (seat_state self.old) b) }
        ensures call { MakesCall self.old self.new (Same a b) (same_reply result) }
    {
        equal_of(self.reply_to(&Command::Same { a, b }))
    }

    fn len(&mut self, r: u8) -> Result<u16, NoObject>
        requires { IsReady (seat_state self.old) (Len r) }
        ensures added { Adds (seat_state self.old) (seat_state self.new) (Len r) (len_reply result) }
        ensures no_object { IsErr result ↔ HoldsNoObject (seat_state self.old) r }
        ensures own { IfSome (own_object (seat_state self.old) r) (λ object.
            result ≡ Ok (length object.cells)) }
        ensures call { MakesCall self.old self.new (Len r) (len_reply result) }
    {
        length_of(self.reply_to(&Command::Len { r }))
    }

    fn leave(&mut self)
        requires { IsReady (seat_state self.old) Leave }
        ensures added { Adds (seat_state self.old) (seat_state self.new) Leave Done }
        ensures given_back { KeepsNothing (seat_state self.new) }
        ensures call { MakesCall self.old self.new Leave Done }
    {
        self.call(&Command::Leave);
    }

    fn room(&mut self, n: usize) -> Result<(), Memory> {
        self.holder.room(n)
    }

    fn spare(&self) -> usize {
        self.holder.spare()
    }

    fn names_left(&self) -> u32 {
        u32::MAX - self.holder.made()
    }

    fn sets_left(&self) -> u64 {
        SET_LIMIT - 1 - self.holder.party().sets()
    }

    fn left(&self) -> bool {
        self.holder.party().left()
    }
}
