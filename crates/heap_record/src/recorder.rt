ghost use Rattle.std.specs.Prelude.{◌≡◌, ◌<◌, ◌↔◌, ◌∷◌, ◌++◌, IsTrue, [], None, false, length, IfOk, OnOk, OnErr};
ghost use Rattle.heap_model.specs.account.Turned.{is_of_heap};
ghost use Rattle.core_machine.specs.machine.Machine.{Begins, BeginsInner, Can, seat_at};
ghost use Rattle.core_machine.specs.machine.Opening.{IsOpening};
ghost use Rattle.heap_record.specs.Recorded.{StandsStill, MakesCall, MakesInner};

use crate::note::note_since;
use core_machine::{Log, Looks, Machine, ShowsRecent};
use core_rule::law_every_run;
use heap_model::{Command, Entry, Heap, Inner, Memory, Reply, Turn, seat_laws};
use std::alloc::Global;
use std::marker::Model;

mod turning;

/// A machine with the history of all that was done to it since its opening. No seat has a call in flight. What is in the history the machine's logs may forget.
#[derive(Drop)]
pub struct Recorder<L: ShowsRecent = Log> {
    machine: Machine<L>,
    /// The history, with what was noted between its entries.
    entries: Vec<Entry>,
    spare: usize,
    turns: u64,
    last_turn: Option<Turn>,
}

impl<L: ShowsRecent> Model for Recorder<L> {
    ghost use Rattle.std.specs.Prelude.{◌-◌, vec_len, vec_capacity};
    ghost use Rattle.heap_model.specs.account.Turned.{without_turned};
    ghost use Rattle.heap_record.specs.Recorded.{Recorded, EventsLeadTo, AnyEvents, HasRoom};

    ghost Value = { Recorded };

    ghost view = { λ r. record {
      machine = r.machine;
      history = without_turned r.entries.items;
      listed = r.entries.items;
      spare = r.spare;
      turns = r.turns;
      last_turn = r.last_turn;
    } };

    ghost invariant = { λ r. EventsLeadTo AnyEvents r.machine.heap r.machine.state (without_turned r.entries.items)
        × HasRoom r.machine (vec_capacity r.entries - vec_len r.entries) r.spare };
}

impl<L: ShowsRecent> Recorder<L> {
    /// Nothing was done yet.
    pub fn new(alloc: Global, machine: Machine<L>) -> Recorder<L>
        requires { IsOpening machine.heap machine.state }
        ensures { result ≡ record { machine = machine; history = []; listed = []; spare = 0; turns = 0; last_turn = None } }
    {
        // What is true of every machine is known from here on.
        let _ = machine.heap();
        Recorder {
            machine,
            entries: Vec::new(alloc),
            spare: 0,
            turns: 0,
            last_turn: None,
        }
    }

    /// The heap whose machine it is.
    pub fn heap(&self) -> Heap
        ensures { result ≡ self.now.machine.heap }
    {
        self.machine.heap()
    }

    /// Makes a whole call of the seat.
    pub fn call(&mut self, seat: u8, command: &Command) -> Result<Reply, Memory>
        requires can { Can self.old.machine.heap self.old.machine.state (Begins seat command.now) }
        ensures makes { IfOk result (MakesCall self.old self.new seat command.now) }
        ensures still { OnErr result (StandsStill self.old self.new) }
    {
        law_every_run();
        seat_laws();
        let room = 2 * command.need() as usize + 4;
        self.machine.room(seat, room)?;
        self.entries.reserve(room)?;
        let before = self.machine.recent(seat).len();
        let reply = self.machine.play_call(seat, command);
        note_since(
            &mut self.entries,
            &mut self.spare,
            &mut self.machine,
            seat,
            before,
        );
        Ok(reply)
    }

    /// Whether the seat may make the inner call now.
    pub fn may_make(&self, seat: u8, inner: &Inner) -> bool
        ensures { IsTrue result ↔ Can self.now.machine.heap self.now.machine.state (BeginsInner seat inner.now) }
    {
        self.machine.may_begin_inner(seat, inner)
    }

    /// Makes a whole inner call of the seat's collect.
    pub fn inner(&mut self, seat: u8, inner: Inner) -> Result<(), Memory>
        requires can { Can self.old.machine.heap self.old.machine.state (BeginsInner seat inner) }
        ensures makes { OnOk result (MakesInner self.old self.new seat inner) }
        ensures still { OnErr result (StandsStill self.old self.new) }
    {
        law_every_run();
        self.machine.room(seat, 4)?;
        self.entries.reserve(4)?;
        let before = self.machine.recent(seat).len();
        self.machine.play_inner(seat, inner);
        note_since(
            &mut self.entries,
            &mut self.spare,
            &mut self.machine,
            seat,
            before,
        );
        Ok(())
    }

    /// What the seat has found out by the inner calls of its collects.
    pub fn looks(&self, seat: u8) -> Looks
        requires { seat < length self.now.machine.state.seats }
        ensures { result ≡ (seat_at self.now.machine.state seat).looks }
    {
        self.machine.looks(seat)
    }

    /// Notes an answer to a command of the collector, which is no entry of the machine's.
    pub fn note(&mut self, entry: Entry) -> Result<(), Memory>
        requires { is_of_heap entry ≡ false }
        ensures noted { OnOk result (self.new ≡ record self.old { listed = self.old.listed ++ entry ∷ [] }) }
        ensures still { OnErr result (self.new ≡ self.old) }
    {
        self.entries.reserve(self.spare + 1)?;
        let Ok(()) = self.entries.push(entry) else {
            unreachable!()
        };
        Ok(())
    }

    /// The history so far, with what was noted between its entries.
    pub fn entries(&self) -> &[Entry]
        ensures { result.now ≡ self.now.listed }
    {
        &self.entries
    }

    /// The history alone, with what was noted between its entries.
    pub fn into_entries(self) -> Vec<Entry>
        ensures { result.items ≡ self.listed }
    {
        self.entries
    }
}
