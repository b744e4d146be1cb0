ghost use Rattle.std.specs.Prelude.{◌≡◌, ◌<◌, ◌≤◌, ◌+◌, ◌^◌, ◌↔◌, ℕ, List, IsTrue, IfOk, sum_by};
ghost use Rattle.std.specs.List.{range_with_len};
ghost use Rattle.heap_model.specs.declared.entry.Entry.{Entry as Entries};

use crate::account::Account;
use crate::fault::Memory;
use crate::graph::Graph;
use crate::id::Id;

/// What the account keeps of the last cycle that began: what was reached then and how many fragments and spine words
/// that had, what the seats brought, and how many fragments had been taken and spine words granted.
#[derive(Drop)]
pub struct Cycle {
    pub reached: Vec<Id>,
    pub frags: u128,
    pub words: u128,
    pub brought: u128,
    pub taken_then: u64,
    pub words_then: u64,
}

impl Account {
    ghost use Rattle.heap_model.specs.account.Cycles.{graph_of, LeavesLittle};
    ghost use Rattle.heap_model.specs.account.Books.{Tells, CycleFits};
    ghost use Rattle.heap_model.specs.graph.Objects.{made_counts};
    ghost use Rattle.heap_model.specs.account.SeatBooks.{account_at};
    ghost use Rattle.heap_model.specs.account.Preparing.{IsBegun, brought_by, IsWithinBy};

    /// What is kept of a cycle that begins here, where each object of the graph has its mark.
    pub(super) fn begun_cycle(&mut self, graph: &Graph) -> Result<Cycle, Memory>
        ensures begun { self.old.made ≡ made_counts graph.now → IfOk result (IsBegun self.old graph.now) }
        ensures fits { IfOk result CycleFits }
        ensures unchanged { self.new ≡ self.old }
    {
        let reached = graph.reached(&mut self.search)?;
        let frags = graph.frags_of(&reached);
        let words = graph.words_of(&reached);
        Ok(Cycle {
            reached,
            frags,
            words,
            brought: self.brought(),
            taken_then: self.all.taken,
            words_then: self.all.words,
        })
    }

    /// What the seats bring into a cycle that begins here.
    fn brought(&self) -> u128
        ensures sum { result ≡ sum_by (λ s. brought_by (account_at self.now.seats s)) (range_with_len 0 self.now.heap.seats) }
        ensures fits { result < 2 ^ 100 }
    {
        let mut sum = 0;
        for seat in 0..self.heap.seats {
            sum += self.brought_by(seat);
        }
        sum
    }

    fn brought_by(&self, seat: u8) -> u128
        requires { seat < self.now.heap.seats }
        ensures number { result ≡ brought_by (account_at self.now.seats seat) }
        ensures fits { result < 2 ^ 64 }
    {
        let own = self.seat(seat);
        (own.own.taken as u128).saturating_sub(
            own.own_then.given as u128 + own.own_then.born as u128,
        )
    }

    /// Whether little is left where the cycle ends here.
    pub(super) fn leaves_little(&mut self, graph: &Graph, kept: u64) -> bool
        requires { 1 ≤ self.old.all.phases }
        ensures little { (history : List Entries) → Tells self.old history → graph.now ≡ graph_of self.old.heap history → (IsTrue result ↔ LeavesLittle self.old.heap history kept) }
        ensures unchanged { self.new ≡ self.old }
    {
        if !self.is_within(kept) {
            return false;
        }
        let frags = graph.reached_frags(&self.cycle.reached, &mut self.search);
        frags <= kept as u128
    }

    /// Whether what is in use and what was kept are within the bounds.
    fn is_within(&self, kept: u64) -> bool
        ensures { IsTrue result ↔ IsWithinBy self.now kept }
    {
        let taken = (self.all.taken as u128).saturating_sub(self.cycle.taken_then as u128);
        let bound = self.cycle.frags + self.cycle.brought + taken;
        let granted = (self.all.words as u128).saturating_sub(self.cycle.words_then as u128);
        self.gained() <= self.lost() + bound
            && self.all.words as u128 <= self.all.returned as u128 + self.cycle.words + granted
            && kept as u128 <= bound
    }
}
