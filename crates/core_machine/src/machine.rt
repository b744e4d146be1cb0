ghost use Rattle.std.specs.Prelude.{◌≡◌, ◌+◌, ◌-◌, ◌*◌, ◌<◌, ◌≤◌, ◌↔◌, IsTrue, [], ◌∷◌, ◌++◌, length, Some};
ghost use Rattle.heap_model.specs.account.Space.{need_of};
ghost use Rattle.core_machine.specs.machine.Machine.{Begins, BeginsInner, Steps, Turns, Can, state_after, seat_at, found_by};
ghost use Rattle.core_machine.specs.declared.table.address.Address.TheVariants.{Phase};
ghost use Rattle.core_machine.specs.table.Layout.{at, InTable};
ghost use Rattle.core_machine.specs.collector.Collector.{next_turn};
ghost use Rattle.core_machine.specs.Moves.{due_step};
ghost use Rattle.core_machine.specs.machine.Value.{spare_of, due_of, event_of, IsParty, SpendsRoom, IsMachine};

use crate::collector::CollectorParty;
use crate::log::CountsEntries;
use crate::log::kept::Log;
use crate::seat::SeatParty;
use crate::seat::looks::Looks;
use crate::step::Step;
use crate::table::address::Address;
use crate::table::words::{load, perform};
use heap_model::{Command, Heap, Inner, Turn};
use std::marker::Model;

mod logs;
pub(crate) mod opening;
mod play;
mod space;

/// A heap's table of words and its parties: the seats, numbered from 0, and after them the collector. Any party may
/// make its due step at any time. Each party has a log of the same type, as a rule one that keeps all its entries.
#[derive(Drop)]
pub struct Machine<L: CountsEntries = Log> {
    pub(crate) heap: Heap,
    pub(crate) words: Vec<u64>,
    pub(crate) seats: Vec<SeatParty<L>>,
    pub(crate) collector: CollectorParty<L>,
}

impl<L: CountsEntries> Model for Machine<L> {
    ghost use Rattle.std.specs.Prelude.{◌++◌, ◌∷◌, [], map};
    ghost use Rattle.core_machine.specs.machine.Value.{MachineValue, IsMachine};

    ghost Value = { MachineValue };

    ghost view = { λ m. record {
      heap = m.heap;
      state = record {
        words = m.words.items;
        seats = map (λ s. s.seat) m.seats.items;
        collector = m.collector.collector;
      };
      spares = map (λ s. s.spare) m.seats.items ++ m.collector.spare ∷ [];
      forgotten = map (λ s. s.forgotten) m.seats.items ++ m.collector.forgotten ∷ [];
    } };

    ghost invariant = { λ m. IsMachine m.heap (record {
      words = m.words.items;
      seats = map (λ s. s.seat) m.seats.items;
      collector = m.collector.collector;
    }) };
}

impl<L: CountsEntries> Machine<L> {
    /// The heap whose machine it is.
    pub fn heap(&self) -> Heap
        ensures heap { result ≡ self.now.heap }
        ensures machine { IsMachine self.now.heap self.now.state }
    {
        self.heap
    }

    /// The word at the address; 0 past the end of the table.
    pub fn word(&self, address: Address) -> u64
        requires { InTable self.now.heap address }
        ensures { result ≡ at self.now.heap self.now.state.words address }
    {
        load(self.words.as_slice(), &self.heap, address)
    }

    /// The phase word.
    #[tactic(auto, unfolding(crate::specs::table::Layout::at))]
    pub fn phase(&self) -> u64
        ensures { result ≡ at self.now.heap self.now.state.words Phase }
    {
        self.words[0]
    }

    /// The one step that the party makes next; none exactly for a seat without a call in flight.
    pub fn due(&self, party: u8) -> Option<Step>
        requires { IsParty self.now party }
        ensures { result ≡ due_of self.now.heap self.now.state party }
    {
        if (party as usize) < self.seats.len() {
            self.due_of_seat(party)
        } else {
            Some(self.collector.due(&self.heap))
        }
    }

    /// The one step that the seat makes next; none where no call is in flight.
    #[inline(always)]
    pub(crate) fn due_of_seat(&self, seat: u8) -> Option<Step>
        ensures { result ≡ due_step self.now.heap seat (seat_at self.now.state seat) }
    {
        let party = self.seats.get(seat as usize)?;
        party.due(&self.heap, seat)
    }

    /// Whether the command of a seat may be begun now.
    pub fn may_begin(&self, seat: u8, command: &Command) -> bool
        ensures { IsTrue result ↔ Can self.now.heap self.now.state (Begins seat command.now) }
    {
        match self.seats.get(seat as usize) {
            Some(party) => party.may_begin(command),
            None => false,
        }
    }

    /// Puts the command of a seat in flight.
    #[inline(always)]
    pub fn begin(&mut self, seat: u8, command: Command)
        requires can { Can self.old.heap self.old.state (Begins seat command) }
        requires room { 2 * need_of command + 4 ≤ spare_of self.old seat }
        ensures { self.new ≡ record self.old { state = state_after self.old.heap self.old.state (Begins seat command) } }
    {
        let heap = self.heap;
        let party = &mut self.seats[seat as usize];
        party.begin(&heap, command);
    }

    /// Whether an inner call of a seat's collect may be begun now.
    pub fn may_begin_inner(&self, seat: u8, inner: &Inner) -> bool
        ensures { IsTrue result ↔ Can self.now.heap self.now.state (BeginsInner seat inner.now) }
    {
        match self.seats.get(seat as usize) {
            Some(party) => party.may_begin_inner(&self.heap, seat, inner),
            None => false,
        }
    }

    /// Puts an inner call of a seat's collect in flight.
    pub fn begin_inner(&mut self, seat: u8, inner: Inner)
        requires can { Can self.old.heap self.old.state (BeginsInner seat inner) }
        requires room { 4 ≤ spare_of self.old seat }
        ensures { self.new ≡ record self.old { state = state_after self.old.heap self.old.state (BeginsInner seat inner) } }
    {
        let party = &mut self.seats[seat as usize];
        party.begin_inner(inner);
    }

    /// What the seat has found out by the inner calls of its collects.
    pub fn looks(&self, seat: u8) -> Looks
        requires { seat < length self.now.state.seats }
        ensures { result ≡ (seat_at self.now.state seat).looks }
    {
        self.seats[seat as usize].looks
    }

    /// How often the seat found another one behind the phase.
    pub fn waits(&self, seat: u8) -> u64
        requires { seat < length self.now.state.seats }
        ensures { result ≡ (seat_at self.now.state seat).looks.waits }
    {
        self.seats[seat as usize].looks.waits
    }

    /// Makes the due step of the party, and answers the word as it was before.
    pub fn step(&mut self, party: u8, step: &Step) -> u64
        requires party { IsParty self.old party }
        requires due { due_of self.old.heap self.old.state party ≡ Some step.now }
        requires room { 2 ≤ spare_of self.old party }
        ensures can { Can self.old.heap self.old.state (event_of self.old.state party) }
        ensures heap { self.new.heap ≡ self.old.heap }
        ensures state { self.new.state ≡ state_after self.old.heap self.old.state (event_of self.old.state party) }
        ensures found { result ≡ found_by self.old.heap self.old.state step.now }
        ensures spent { SpendsRoom self.old self.new party }
    {
        if (party as usize) < self.seats.len() {
            self.step_of_seat(party, step)
        } else {
            self.turn(step).0
        }
    }

    /// Makes the due step of the seat, and answers the word as it was before.
    #[inline(always)]
    pub(crate) fn step_of_seat(&mut self, seat: u8, step: &Step) -> u64
        requires due { due_step self.old.heap seat (seat_at self.old.state seat) ≡ Some step.now }
        requires room { 2 ≤ spare_of self.old seat }
        ensures heap { self.new.heap ≡ self.old.heap }
        ensures state { self.new.state ≡ state_after self.old.heap self.old.state (Steps seat) }
        ensures found { result ≡ found_by self.old.heap self.old.state step.now }
        ensures spent { SpendsRoom self.old self.new seat }
    {
        let heap = self.heap;
        let found = perform(&mut self.words, &heap, step);
        let party = &mut self.seats[seat as usize];
        party.learn(&heap, seat, found);
        found
    }

    /// Makes the collector's due step.
    pub fn play_turn(&mut self) -> Turn
        requires room { 2 ≤ spare_of self.old (length self.old.state.seats) }
        ensures can { Can self.old.heap self.old.state Turns }
        ensures heap { self.new.heap ≡ self.old.heap }
        ensures state { self.new.state ≡ state_after self.old.heap self.old.state Turns }
        ensures answer { let turn = next_turn self.old.heap self.old.state.collector in
            result ≡ turn.answer (found_by self.old.heap self.old.state turn.step) }
        ensures spent { SpendsRoom self.old self.new (length self.old.state.seats) }
    {
        let step = self.collector.due(&self.heap);
        self.turn(&step).1
    }

    /// Makes the collector's due step: answers the word as it was before, and what the turn comes to.
    fn turn(&mut self, step: &Step) -> (u64, Turn)
        requires due { (next_turn self.old.heap self.old.state.collector).step ≡ step.now }
        requires room { 2 ≤ spare_of self.old (length self.old.state.seats) }
        ensures can { Can self.old.heap self.old.state Turns }
        ensures heap { self.new.heap ≡ self.old.heap }
        ensures state { self.new.state ≡ state_after self.old.heap self.old.state Turns }
        ensures found { result.0 ≡ found_by self.old.heap self.old.state step.now }
        ensures answer { result.1 ≡ (next_turn self.old.heap self.old.state.collector).answer result.0 }
        ensures spent { SpendsRoom self.old self.new (length self.old.state.seats) }
    {
        let heap = self.heap;
        let found = perform(&mut self.words, &heap, step);
        let answer = self.collector.learn(&heap, found);
        (found, answer)
    }
}
