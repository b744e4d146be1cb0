ghost use Rattle.std.specs.Prelude.{◌≡◌, ℕ, ◌+◌, ◌-◌, ◌≤◌, ◌^◌, ◌↔◌, length, IsTrue, IsErr, IfOk, IfErr, OnOk, OnErr, IfSome};
ghost use Rattle.heap_model.specs.declared.command.Command.TheVariants.{New, Array, Get, Set, Cas, Num, Nil, Copy, Same, Len, Poll, Leave};
ghost use Rattle.heap_model.specs.declared.reply.Reply.TheVariants.{Phase, Done};
ghost use Rattle.heap_model.specs.Limits.{name_limit, set_limit};
ghost use Rattle.heap_model.specs.Needs.{record_fragments};
ghost use Rattle.heap_model.specs.calls.SeatState.{SeatState, own_graph_seat, held_value, HoldsNoObject, own_object};
ghost use Rattle.heap_model.specs.calls.SeatCalls.{IsReady, Adds};
ghost use Rattle.heap_model.specs.calls.SeatLaws.{IsSeat};
ghost use Rattle.heap_model.specs.calls.SeatReplies.{record_reply, array_reply, get_reply, set_reply, cas_reply, same_reply, len_reply, next_id, LacksFragments, LacksSpace, KeepsNothing};

use crate::fault::Memory;
use crate::id::{Id, Value};
use crate::refusal::{Full, NoObject, PlaceRefusal, SpaceRefusal};
use crate::reply::Swapped;

/// A seat of a heap, through which one mutator works. Registers are numbered 0 to 15, and register 0 is only read.
/// No call but `room` takes memory.
pub trait SeatCalls {
    /// The seat's heap, its number, its entries, and the room for more.
    ghost state: { Self → SeatState };

    /// What more it comes to that room was made.
    ghost roomed: { Self → Self → Type 0 } = { λ _ _. Unit {0} };

    /// Answers the phase now, and tells it. While a new one waits for the seat, the collector can't go on.
    fn poll(&mut self) -> u64
        requires { IsReady (state self.old) Poll }
        ensures { Adds (state self.old) (state self.new) Poll (Phase result) };

    /// Makes a record of nil fields, which register `d` then holds.
    fn new_record(&mut self, d: u8, fields: u16) -> Result<Id, Full>
        requires { IsReady (state self.old) (New d fields) }
        ensures added { Adds (state self.old) (state self.new) (New d fields) (record_reply result) }
        ensures made { IfOk result (λ id. id ≡ next_id (state self.old)) }
        ensures full { IfErr result (λ full. LacksFragments (state self.old) (state self.new)
            (record_fragments fields) full.need full.found) };

    /// Makes an array of nil cells, which register `d` then holds.
    fn new_array(&mut self, d: u8, cells: u16) -> Result<Id, SpaceRefusal>
        requires { IsReady (state self.old) (Array d cells) }
        ensures added { Adds (state self.old) (state self.new) (Array d cells) (array_reply result) }
        ensures made { IfOk result (λ id. id ≡ next_id (state self.old)) }
        ensures full { IfErr result (LacksSpace (state self.old) (state self.new) cells) };

    /// Reads the cell `i` of what register `r` holds into register `d`, and answers its value and its stamp.
    fn get(&mut self, d: u8, r: u8, i: u32) -> Result<(Value, u32), PlaceRefusal>
        requires { IsReady (state self.old) (Get d r i) }
        ensures added { Adds (state self.old) (state self.new) (Get d r i) (get_reply result) }
        ensures no_object { (result ≡ Err PlaceRefusal.NoObject) ↔ HoldsNoObject (state self.old) r }
        ensures no_field { IfSome (own_object (state self.old) r) (λ object.
            (result ≡ Err PlaceRefusal.NoField) ↔ (length object.cells ≤ i)) };

    /// Sets the cell `i` of what register `r` holds to the value of register `v`, and answers the stamp before.
    fn set(&mut self, r: u8, i: u32, v: u8) -> Result<u32, PlaceRefusal>
        requires { IsReady (state self.old) (Set r i v) }
        ensures added { Adds (state self.old) (state self.new) (Set r i v) (set_reply result) }
        ensures no_object { (result ≡ Err PlaceRefusal.NoObject) ↔ HoldsNoObject (state self.old) r }
        ensures no_field { IfSome (own_object (state self.old) r) (λ object.
            (result ≡ Err PlaceRefusal.NoField) ↔ (length object.cells ≤ i)) };

    /// Sets the cell `i` of what register `r` holds to the value of register `v`, exactly where it still has the value
    /// and the stamp that register `a` was read with.
    fn cas(&mut self, r: u8, i: u32, a: u8, v: u8) -> Result<Swapped, PlaceRefusal>
        requires { IsReady (state self.old) (Cas r i a v) }
        ensures added { Adds (state self.old) (state self.new) (Cas r i a v) (cas_reply result) }
        ensures no_object { (result ≡ Err PlaceRefusal.NoObject) ↔ HoldsNoObject (state self.old) r }
        ensures no_field { IfSome (own_object (state self.old) r) (λ object.
            (result ≡ Err PlaceRefusal.NoField) ↔ (length object.cells ≤ i)) };

    fn num(&mut self, d: u8, n: u32)
        requires { IsReady (state self.old) (Num d n) }
        ensures { Adds (state self.old) (state self.new) (Num d n) Done };

    fn nil(&mut self, d: u8)
        requires { IsReady (state self.old) (Nil d) }
        ensures { Adds (state self.old) (state self.new) (Nil d) Done };

    fn copy(&mut self, d: u8, r: u8)
        requires { IsReady (state self.old) (Copy d r) }
        ensures { Adds (state self.old) (state self.new) (Copy d r) Done };

    /// Whether the two registers hold the same number, the same object or nil both.
    fn same(&mut self, a: u8, b: u8) -> bool
        requires { IsReady (state self.old) (Same a b) }
        ensures added { Adds (state self.old) (state self.new) (Same a b) (same_reply result) }
        ensures same { IsTrue result ↔ (held_value (state self.old) a ≡ held_value (state self.old) b) };

    fn len(&mut self, r: u8) -> Result<u16, NoObject>
        requires { IsReady (state self.old) (Len r) }
        ensures added { Adds (state self.old) (state self.new) (Len r) (len_reply result) }
        ensures no_object { IsErr result ↔ HoldsNoObject (state self.old) r }
        ensures own { IfSome (own_object (state self.old) r) (λ object.
            result ≡ Ok (length object.cells)) };

    /// Gives back what the seat kept, and leaves for good: its registers are nil then.
    fn leave(&mut self)
        requires { IsReady (state self.old) Leave }
        ensures added { Adds (state self.old) (state self.new) Leave Done }
        ensures given_back { KeepsNothing (state self.new) };

    /// Makes room for at least `n` more entries.
    fn room(&mut self, n: usize) -> Result<(), Memory>
        ensures same { state self.new ≡ record (state self.old) { spare = (state self.new).spare } }
        ensures more { (state self.old).spare ≤ (state self.new).spare }
        ensures room { OnOk result (n ≤ (state self.new).spare) }
        ensures memory { OnErr result (state self.new ≡ state self.old) }
        ensures stays { roomed self.old self.new };

    /// For how many more entries there is room.
    fn spare(&self) -> usize
        ensures { result ≡ (state self.now).spare };

    /// How many more objects the seat can make.
    fn names_left(&self) -> u32
        ensures { result + length (own_graph_seat (state self.now)).objects ≡ name_limit - 1 };

    /// How many more sets the seat can do.
    fn sets_left(&self) -> u64
        ensures { result + (own_graph_seat (state self.now)).sets ≡ set_limit - 1 };

    /// Whether the seat has left. Whatever it did, its heap is within the limits, and its entries are its own.
    fn left(&self) -> bool
        ensures left { result ≡ (own_graph_seat (state self.now)).left }
        ensures seat { IsSeat (state self.now) };
}
