ghost use Rattle.std.specs.Prelude.{◌≡◌, ◌<◌, ◌+◌, ◌^◌, ℕ, true, false, [], if◌then◌else◌, slice_index_or, slice_set};
ghost use Rattle.heap_model.specs.account.Windows.{begins_phase};
ghost use Rattle.heap_model.specs.account.Noting.{seat_of, ended_by};

use crate::account::Account;
use crate::account::effect::Effect;
use crate::account::seat::SeatAccount;
use crate::command::Command;
use crate::entry::Entry;

impl Account {
    ghost use Rattle.heap_model.specs.account.Effects.{effect_of};
    ghost use Rattle.heap_model.specs.account.Sums.{plus, IsFew};
    ghost use Rattle.heap_model.specs.account.SeatBooks.{account_at};
    ghost use Rattle.heap_model.specs.account.Noting.{IsNoted, IsNotedSeat, IsSeatBelow, is_behind_now};

    /// Counts an entry that was judged.
    pub(super) fn note(&mut self, entry: &Entry)
        requires few { self.old.entries < 2 ^ 32 }
        requires seat { IsSeatBelow self.old.heap.seats entry.now }
        ensures { IsNoted self.old entry.now self.new }
    {
        let all = self.all.plus(Effect::of(entry));
        match entry.seat() {
            Some(seat) => {
                let noted = self.noted_seat(seat, entry, all);
                self.note_all(entry, all);
                self.put_seat(seat, noted);
            }
            None => self.note_all(entry, all),
        }
    }

    /// Counts the entry, where `all` is what all entries came to then.
    fn note_all(&mut self, entry: &Entry, all: Effect)
        requires few { self.old.entries < 2 ^ 32 }
        requires all { IsFew (self.old.entries + 1) all }
        ensures { self.new ≡ record self.old {
          entries = self.old.entries + 1;
          all = all;
          ended = ended_by entry.now;
          swung = if begins_phase entry.now then [] else self.old.swung;
        } }
    {
        self.entries += 1;
        self.all = all;
        self.ended = ended_by(entry);
        if begins_phase(entry) {
            self.swung.clear();
        }
    }

    fn put_seat(&mut self, seat: u8, noted: SeatAccount)
        requires seat { seat < self.old.heap.seats }
        requires few { IsFew self.old.entries noted.own }
        ensures puts { self.new ≡ record self.old { seats = slice_set self.old.seats seat noted } }
        ensures put { account_at self.new.seats seat ≡ noted }
    {
        self.seats[seat as usize] = noted;
    }

    /// What is kept of the seat after its entry, where `all` is what all entries came to.
    fn noted_seat(&self, seat: u8, entry: &Entry, all: Effect) -> SeatAccount
        requires few { self.now.entries < 2 ^ 32 }
        requires seat { seat < self.now.heap.seats }
        requires own { seat_of entry.now ≡ Some seat }
        requires all { all ≡ plus self.now.all (effect_of entry.now) }
        ensures noted { IsNotedSeat self.now.heap self.now.all self.now.seats seat entry.now (account_at self.now.seats seat) result }
        ensures few { IsFew (self.now.entries + 1) result.own }
    {
        let mut noted = self.seat(seat);
        noted.own = noted.own.plus(Effect::of(entry));
        if let Entry::Said { command, .. } = *entry {
            noted.own_then = noted.own;
            noted.all_then = all;
            noted.behind_then = self.behind_now();
            if command == Command::Leave {
                noted.left = Some(self.last_phase(seat));
            }
        }
        noted
    }

    /// Which seats are behind the phase.
    fn behind_now(&self) -> [bool; 16]
        ensures { (s : ℕ) → s < self.now.heap.seats → slice_index_or result s false ≡ is_behind_now self.now.all self.now.seats s }
    {
        let mut behind = [false; 16];
        for seat in 0..self.heap.seats {
            behind[seat as usize] = self.is_behind_now(seat);
        }
        behind
    }

    fn is_behind_now(&self, seat: u8) -> bool
        requires { seat < self.now.heap.seats }
        ensures { result ≡ is_behind_now self.now.all self.now.seats seat }
    {
        let own = self.seat(seat);
        own.left.is_none() && own.own.answers < self.all.phases
    }
}

/// The cycle that the entry ends.
fn ended_by(entry: &Entry) -> Option<u64>
    ensures { result ≡ ended_by entry.now }
{
    match *entry {
        Entry::Ends { cycle, .. } => Some(cycle),
        _ => None,
    }
}

fn begins_phase(entry: &Entry) -> bool
    ensures { result ≡ begins_phase entry.now }
{
    matches!(entry, Entry::Advance(_) | Entry::Ends { .. })
}
