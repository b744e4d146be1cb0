ghost use Rattle.std.specs.Prelude.{◌≡◌, ◌≢◌, ℕ, ◌≤◌, length, OnOk, OnErr};
ghost use Rattle.core_machine.specs.machine.Value.{spare_of, forgotten_of, log_of, recent_of, IsParty};

use crate::log::{CountsEntries, ShowsRecent};
use crate::machine::Machine;
use heap_model::{Entry, Memory};

impl Machine {
    /// The party's entries, in their order.
    pub fn log(&self, party: u8) -> &[Entry]
        requires { IsParty self.now party }
        ensures { result.now ≡ log_of self.now party }
    {
        match self.seats.get(party as usize) {
            Some(seat) => seat.entries(),
            None => self.collector.entries(),
        }
    }
}

impl<L: ShowsRecent> Machine<L> {
    /// The party's entries behind those that were forgotten, in their order.
    pub fn recent(&self, party: u8) -> &[Entry]
        requires { IsParty self.now party }
        ensures recent { result.now ≡ recent_of self.now party }
        ensures within { forgotten_of self.now party ≤ length (log_of self.now party) }
    {
        match self.seats.get(party as usize) {
            Some(seat) => seat.recent(),
            None => self.collector.recent(),
        }
    }

    /// The party's entries so far may be forgotten: they are shown no more, unless its log is one that keeps them.
    pub fn forget(&mut self, party: u8)
        requires { IsParty self.old party }
        ensures same { self.new ≡ record self.old { spares = self.new.spares; forgotten = self.new.forgotten } }
        ensures forgotten { forgotten_of self.new party ≡ L.forgets (forgotten_of self.old party) (length (log_of self.old party)) }
        ensures more { spare_of self.old party ≤ spare_of self.new party }
        ensures others { (other : ℕ) → other ≢ party → (forgotten_of self.new other ≡ forgotten_of self.old other) × (spare_of self.new other ≡ spare_of self.old other) }
    {
        if (party as usize) < self.seats.len() {
            let seat = &mut self.seats[party as usize];
            seat.forget()
        } else {
            self.collector.forget()
        }
    }
}

impl<L: CountsEntries> Machine<L> {
    /// For how many more entries the party has room.
    pub fn spare(&self, party: u8) -> usize
        requires { IsParty self.now party }
        ensures { result ≡ spare_of self.now party }
    {
        match self.seats.get(party as usize) {
            Some(seat) => seat.spare(),
            None => self.collector.spare(),
        }
    }

    /// Makes room for at least `n` more entries of the party.
    pub fn room(&mut self, party: u8, n: usize) -> Result<(), Memory>
        requires { IsParty self.old party }
        ensures same { self.new ≡ record self.old { spares = self.new.spares } }
        ensures more { spare_of self.old party ≤ spare_of self.new party }
        ensures others { (other : ℕ) → other ≢ party → spare_of self.new other ≡ spare_of self.old other }
        ensures room { OnOk result (n ≤ spare_of self.new party) }
        ensures memory { OnErr result (self.new ≡ self.old) }
    {
        if (party as usize) < self.seats.len() {
            let seat = &mut self.seats[party as usize];
            seat.room(n)
        } else {
            self.collector.room(n)
        }
    }
}
