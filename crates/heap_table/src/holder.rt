ghost use Rattle.std.specs.Prelude.{◌≡◌, ◌+◌, ◌<◌, ◌≤◌, ◌^◌, Some, [], true, length, OnOk, OnErr, ◌↔◌, IsTrue};
ghost use Rattle.core_machine.specs.Moves.{due_step};
ghost use Rattle.core_machine.specs.declared.point.Point.TheVariants.{Idle};
ghost use Rattle.core_machine.specs.machine.Machine.{MayBegin, MayBeginInner, after_begin, after_inner_begin};
ghost use Rattle.core_rule.specs.told.Told.{IsAsTold};
ghost use Rattle.heap_table.specs.Quiet.{is_quiet};
ghost use Rattle.heap_table.specs.Made.{IsSound};
ghost use Rattle.heap_table.specs.SeatHeld.{IsStepped, MayStep, StepFinds};
ghost use Rattle.heap_table.specs.Told.{ToldAtStep};
ghost use Rattle.heap_table.specs.Views.{seat_view};

use crate::rule::{SharedTable, Token};
use crate::shared_steps::SharedSteps;
use crate::touch::touch;
use core_machine::{Entries, Log, SeatParty, Step};
use heap_model::{Command, Entry, Heap, Inner, Memory};
use std::marker::{Brand, Model};

mod access;
mod handshake;
mod making;
mod near;
mod near_cas;
mod near_set;
mod one_step;
mod spine;
mod starting;

/// One seat of a table: the right to make its steps, with what is kept of it and its log.
#[derive(Drop)]
pub struct Holder<L: Entries = Log> {
    pub(crate) table: SharedTable,
    pub(crate) token: Token,
    pub(crate) heap: Heap,
    pub(crate) number: u8,
    pub(crate) party: SeatParty<L>,
}

impl<L: Entries> Model for Holder<L> {
    ghost use Rattle.std.specs.Arc.{arc_value};
    ghost use Rattle.heap_table.specs.SeatHeld.{SeatHeld, KeepsSeat};

    ghost Value = { SeatHeld };

    ghost view = { λ holder. record {
      table = holder.token.table_id;
      heap = holder.heap;
      number = holder.number;
      seat = holder.party.seat;
      spare = holder.party.spare;
    } };

    ghost invariant = { λ holder. KeepsSeat (arc_value holder.table).shared.table_id (arc_value holder.table).shared.key holder.token.table_id holder.token.me holder.heap holder.number holder.party.seat };
}

impl<L: Entries> Holder<L> {
    /// The token with the seat's data, which are those of its view.
    pub(crate) fn into_token_and_party(self) -> (Token, SeatParty<L>)
        requires { self.seat.left ≡ true }
        ensures table { result.0.table_id ≡ self.table }
        ensures knows { result.0.me ≡ (seat_view self.number self.seat, []) }
        ensures party { result.1.seat ≡ self.seat }
        ensures within { self.number < self.heap.seats }
    {
        let Holder { token, party, .. } = self;
        (token, party)
    }

    /// The heap whose table it is.
    pub fn heap(&self) -> Heap
        ensures { result ≡ self.now.heap }
    {
        self.heap
    }

    /// The seat's number.
    pub fn number(&self) -> u8
        ensures { result ≡ self.now.number }
    {
        self.number
    }

    /// How many objects the seat has made.
    pub fn made(&self) -> u32
        ensures { result ≡ self.now.seat.made }
    {
        self.party.made()
    }

    /// What is kept of the seat.
    pub fn party(&self) -> &SeatParty<L>
        ensures seat { result.now.seat ≡ self.now.seat }
        ensures sound { IsSound self.now }
        ensures own { self.now.seat.point ≡ Idle → IsAsTold self.now.heap self.now.number self.now.seat }
    {
        &self.party
    }

    /// For how many more entries there is room.
    pub fn spare(&self) -> usize
        ensures { result ≡ self.now.spare }
    {
        self.party.spare()
    }

    /// Makes room for at least `n` more entries.
    pub fn room(&mut self, n: usize) -> Result<(), Memory>
        ensures same { self.new ≡ record self.old { spare = self.new.spare } }
        ensures more { self.old.spare ≤ self.new.spare }
        ensures room { OnOk result (n ≤ self.new.spare) }
        ensures memory { OnErr result (self.new ≡ self.old) }
    {
        self.party.room(n)
    }

    /// The step that is due; none where no call is in flight.
    pub fn due(&self) -> Option<Step>
        ensures { result ≡ due_step self.now.heap self.now.number self.now.seat }
    {
        self.party.due(&self.heap, self.number)
    }

    /// Whether the command may be begun now.
    pub fn may_begin(&self, command: &Command) -> bool
        ensures { IsTrue result ↔ MayBegin self.now.seat command.now }
    {
        self.party.may_begin(command)
    }

    /// Puts the command in flight. No step is made, and the table doesn't know of it until the first is.
    pub fn begin(&mut self, command: Command)
        requires may { MayBegin self.old.seat command }
        ensures { self.new ≡ record self.old { seat = after_begin self.old.heap self.old.seat command } }
    {
        self.party.begin(&self.heap, command);
    }

    /// Whether the inner call of a collect may be begun now.
    pub fn may_begin_inner(&self, inner: &Inner) -> bool
        ensures { IsTrue result ↔ MayBeginInner self.now.heap self.now.number self.now.seat inner.now }
    {
        self.party.may_begin_inner(&self.heap, self.number, inner)
    }

    /// Puts the inner call of a collect in flight, likewise.
    pub fn begin_inner(&mut self, inner: Inner)
        requires may { MayBeginInner self.old.heap self.old.number self.old.seat inner }
        ensures { self.new ≡ record self.old { seat = after_inner_begin self.old.seat inner } }
    {
        self.party.begin_inner(inner);
    }

    /// Makes the due step, and answers the word found; of a store, the word stored.
    pub fn step(&mut self, step: &Step) -> u64
        requires due { due_step self.old.heap self.old.number self.old.seat ≡ Some step.now }
        requires room { 2 ≤ self.old.spare }
        ensures stepped { IsStepped self.old self.new result }
        ensures told { ToldAtStep self.old.heap self.old.number self.old.seat result }
    {
        let found = touch::<Brand, SeatParty<L>>(
            &self.table.shared,
            &mut self.token,
            &self.heap,
            step,
            self.number,
            &self.party,
        );
        self.party.learn(&self.heap, self.number, found);
        found
    }

    /// Makes this step, after which the seat is the same whatever word was found.
    fn step_quietly(&mut self, step: &Step)
        requires may { MayStep self.old step.now }
        requires quiet { is_quiet step.now ≡ true }
        ensures { IsStepped self.old self.new 0 }
    {
        self.step(step);
    }
}

impl<L: Entries> SharedSteps for Holder<L> {
    ghost may = { MayStep };

    ghost finds = { StepFinds };

    fn found_by(&mut self, step: &Step) -> u64 {
        self.step(step)
    }
}

impl Holder {
    /// The seat's entries, in their order.
    pub fn log(&self) -> &[Entry]
        ensures { result.now ≡ self.now.seat.mine }
    {
        self.party.entries()
    }
}
