ghost use Rattle.std.specs.Prelude.{◌≡◌, ◌+◌, ◌<◌, ◌≤◌, ◌∷◌, [], OnOk, OnErr};
ghost use Rattle.heap_model.specs.Heap.{IsHeap};
ghost use Rattle.core_machine.specs.seat.Seat.{with_entries, call_over, after_call, seat_after_reply};
ghost use Rattle.core_machine.specs.machine.Opening.{opening_seat};

use crate::log::Entries;
use crate::log::kept::Log;
use crate::point::Point;
use crate::seat::hands::Hands;
use crate::seat::looks::Looks;
use crate::seat::register::Register;
use crate::table::fragments::Reserve;
use heap_model::limits::REGISTER_COUNT;
use heap_model::{Command, Entry, Heap, Id, Memory, Reply};
use heap_words::Spot;
use std::alloc::Global;
use std::marker::Model;

mod access;
mod begins;
mod birth;
pub(crate) mod collecting;
pub(crate) mod commands;
mod compare;
mod due;
mod endings;
mod gather;
mod hands;
mod handshake;
mod local;
pub(crate) mod looks;
mod moves;
mod reads;
pub(crate) mod register;
mod spine;
mod walk;

/// Where no spine stands that the seat knows of.
const NO_SPOT: Spot = Spot { half: 0, offset: 0 };

/// What is kept of a seat: its registers with the stamps that they were seen under, its fragments, its call in flight, what it answered, and its entries in a log.
#[derive(Drop)]
pub struct SeatParty<L: Entries = Log> {
    pub(crate) registers: [Register; REGISTER_COUNT],
    pub(crate) seen: [u32; REGISTER_COUNT],
    pub(crate) reserve: Reserve,
    pub(crate) cursor: u16,
    pub(crate) hands: Hands,
    pub(crate) stored: u16,
    pub(crate) tried: u16,
    pub(crate) given: u16,
    pub(crate) used: u64,
    pub(crate) spine: Spot,
    pub(crate) listed: u16,
    pub(crate) command: Command,
    pub(crate) point: Point,
    pub(crate) answered: u64,
    pub(crate) made: u32,
    pub(crate) reached: u16,
    pub(crate) links: u16,
    pub(crate) part: u8,
    pub(crate) address: Spot,
    pub(crate) loaded: u64,
    pub(crate) asked: u64,
    pub(crate) shaded: u8,
    pub(crate) sets: u64,
    pub(crate) looks: Looks,
    pub(crate) left: bool,
    pub(crate) mine: L,
}

impl<L: Entries> Model for SeatParty<L> {
    ghost use Rattle.core_machine.specs.machine.Value.{SeatWithRoom};

    ghost Value = { SeatWithRoom };

    ghost view = { λ party. record {
      seat = record {
        registers = party.registers;
        seen = party.seen;
        reserve = party.reserve.items;
        cursor = party.cursor;
        hand = party.hands.hand;
        body = party.hands.body;
        stored = party.stored;
        tried = party.tried;
        given = party.given;
        used = party.used;
        spine = party.spine;
        listed = party.listed;
        command = party.command;
        point = party.point;
        answered = party.answered;
        made = party.made;
        reached = party.reached;
        links = party.links;
        part = party.part;
        address = party.address;
        loaded = party.loaded;
        asked = party.asked;
        shaded = party.shaded;
        sets = party.sets;
        looks = party.looks;
        left = party.left;
        mine = L.listed party.mine;
      };
      spare = L.left party.mine;
      forgotten = L.forgotten party.mine;
    } };
}

impl<L: Entries> SeatParty<L> {
    /// The seat of this number at the opening.
    pub fn opening(alloc: Global, heap: &Heap, number: u8) -> SeatParty<L>
        requires { IsHeap heap.now }
        ensures { result.seat ≡ opening_seat heap.now number }
    {
        let mut registers = [Register::Nil; REGISTER_COUNT];
        registers[0] = Register::Object {
            head: 0,
            id: Id::Board,
        };
        SeatParty {
            registers,
            seen: [0; REGISTER_COUNT],
            reserve: Reserve::new(),
            cursor: u16::from(number) % heap.groups,
            hands: Hands::empty(),
            stored: 0,
            tried: 0,
            given: 0,
            used: 0,
            spine: NO_SPOT,
            listed: 0,
            command: Command::Poll,
            point: Point::Idle,
            answered: 0,
            made: 0,
            reached: 0,
            links: 0,
            part: 0,
            address: NO_SPOT,
            loaded: 0,
            asked: 0,
            shaded: 0,
            sets: 0,
            looks: Looks::none(),
            left: false,
            mine: L::empty(alloc),
        }
    }

    /// Makes room for at least `n` more entries.
    pub fn room(&mut self, n: usize) -> Result<(), Memory>
        ensures same { self.new.seat ≡ self.old.seat }
        ensures more { self.old.spare ≤ self.new.spare }
        ensures forgotten { self.new.forgotten ≡ self.old.forgotten }
        ensures room { OnOk result (n ≤ self.new.spare) }
        ensures memory { OnErr result (self.new ≡ self.old) }
    {
        self.mine.reserve(n)
    }

    /// Adds an entry, for which there is room.
    pub(crate) fn note(&mut self, entry: Entry)
        requires { 0 < self.old.spare }
        ensures seat { self.new.seat ≡ with_entries self.old.seat (entry ∷ []) }
        ensures spare { self.old.spare ≤ self.new.spare + 1 }
        ensures no_more { self.new.spare ≤ self.old.spare }
        ensures forgotten { self.new.forgotten ≡ self.old.forgotten }
    {
        self.mine.push(entry);
    }

    /// The call is over, and nothing of it is left.
    pub(crate) fn finish(&mut self)
        ensures seat { self.new.seat ≡ call_over self.old.seat }
        ensures spare { self.new.spare ≡ self.old.spare }
        ensures forgotten { self.new.forgotten ≡ self.old.forgotten }
    {
        self.hands.clear();
        self.stored = 0;
        self.tried = 0;
        self.given = 0;
        self.used = 0;
        self.spine = NO_SPOT;
        self.listed = 0;
        self.point = Point::Idle;
        self.reached = 0;
        self.links = 0;
        self.part = 0;
        self.address = NO_SPOT;
        self.loaded = 0;
        self.asked = 0;
        self.shaded = 0;
    }

    /// Ends the call with this reply, for which there is room.
    #[inline(always)]
    pub(crate) fn reply(&mut self, number: u8, reply: Reply)
        requires { 0 < self.old.spare }
        ensures seat { self.new.seat ≡ seat_after_reply number self.old.seat reply }
        ensures spare { self.old.spare ≤ self.new.spare + 1 }
        ensures no_more { self.new.spare ≤ self.old.spare }
        ensures forgotten { self.new.forgotten ≡ self.old.forgotten }
    {
        self.finish();
        self.looks.forget();
        self.note(Entry::Said {
            seat: number,
            command: self.command,
            reply,
        });
    }
}
