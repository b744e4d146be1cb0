ghost use Rattle.std.specs.Prelude.{◌≡◌, ◌<◌, ◌≤◌, ◌^◌, ◌+◌, [], ◌++◌, ◌∷◌, ◌↔◌, List, Err, IsTrue, IfOk, OnOk, OnErr};
ghost use Rattle.heap_model.specs.declared.entry.Entry.{Entry as Entries};
ghost use Rattle.heap_model.specs.Heap.{IsHeap};

use crate::account::cycle::Cycle;
use crate::account::effect::Effect;
use crate::account::seat::SeatAccount;
use crate::account::swung::Swung;
use crate::entry::Entry;
use crate::fault::{ApplyFault, Memory};
use crate::graph::Graph;
use crate::graph::reach::search::Search;
use crate::heap::Heap;
use std::alloc::Global;
use std::marker::Model;

mod applying;
mod counts;
mod cycle;
pub(crate) mod effect;
pub(crate) mod laws;
mod noting;
mod phases;
mod seat;
mod sweep;
mod swung;

/// The counts of fragments, spine words and phases of a history, by which the next entry is judged.
#[derive(Drop)]
pub struct Account {
    heap: Heap,
    entries: u64,
    all: Effect,
    seats: [SeatAccount; 16],
    cycle: Cycle,
    swung: Swung,
    ended: Option<u64>,
    /// Room to search the graph, in which each object that was made has a mark.
    search: Search,
}

impl Model for Account {
    ghost use Rattle.heap_model.specs.graph.Marking.{mark_counts};
    ghost use Rattle.heap_model.specs.account.Books.{Books, AreBooks};

    ghost Value = { Books };

    ghost view = { λ a. record { heap = a.heap; entries = a.entries; all = a.all; seats = a.seats; cycle = a.cycle; swung = a.swung; ended = a.ended; made = mark_counts a.search.marks } };

    ghost invariant = { λ a. AreBooks a.heap a.entries a.all a.seats a.cycle };
}

impl Account {
    ghost use Rattle.heap_model.specs.account.Space.{fragments_gained, fragments_lost, fragments_used, words_used};
    ghost use Rattle.heap_model.specs.account.PhaseCounts.{phase};
    ghost use Rattle.heap_model.specs.account.Cycles.{graph_of};
    ghost use Rattle.heap_model.specs.account.Account.{KeepsSpace, MayLackMemory};
    ghost use Rattle.heap_model.specs.account.Books.{Tells};
    ghost use Rattle.heap_model.specs.account.Noting.{IsSeatBelow};
    ghost use Rattle.heap_model.specs.account.Windows.{up_to_cycle};
    ghost use Rattle.heap_model.specs.graph.Sizes.{HasReach};

    /// The account of a heap in which nothing was done yet.
    pub fn new(alloc: Global, heap: Heap) -> Result<Account, Memory>
        requires { IsHeap heap }
        ensures heap { IfOk result (λ account. account.heap ≡ heap) }
        ensures tells { IfOk result (λ account. Tells account []) }
    {
        let search = Graph::new(alloc, heap)?.room_to_search()?;
        Ok(Account {
            heap,
            entries: 0,
            all: Effect::NONE,
            seats: [SeatAccount::OPENING; 16],
            cycle: Cycle {
                reached: Vec::new(alloc),
                frags: 0,
                words: 0,
                brought: 0,
                taken_then: 0,
                words_then: 0,
            },
            swung: Swung::new(alloc),
            ended: None,
            search,
        })
    }

    /// Counts the entry, where it keeps the rules of space and phases after the history that the account tells, in a play
    /// or in a run. The graph is the one before the entry.
    pub fn apply(&mut self, graph: &Graph, entry: &Entry, play: bool) -> Result<(), ApplyFault>
        requires few { self.old.entries < 2 ^ 32 }
        requires seat { IsSeatBelow self.old.heap.seats entry.now }
        ensures keeps { OnOk result ((history : List Entries) → Tells self.old history → graph.now ≡ graph_of self.old.heap history → KeepsSpace self.old.heap play history entry.now) }
        ensures tells { OnOk result ((history : List Entries) → Tells self.old history → graph.now ≡ graph_of self.old.heap history → Tells self.new (history ++ entry.now ∷ [])) }
        ensures not_legal { result ≡ Err ApplyFault.NotLegal → (history : List Entries) → Tells self.old history → graph.now ≡ graph_of self.old.heap history → ¬ KeepsSpace self.old.heap play history entry.now }
        ensures memory { result ≡ Err ApplyFault.Memory → (history : List Entries) → Tells self.old history → graph.now ≡ graph_of self.old.heap history → MayLackMemory self.old.heap play history entry.now }
        ensures counted { OnOk result (self.new.entries ≡ self.old.entries + 1) }
        ensures heap { self.new.heap ≡ self.old.heap }
        ensures unchanged { OnErr result (self.new ≡ self.old) }
    {
        if !self.keeps(graph, entry, play) {
            return Err(ApplyFault::NotLegal);
        }
        self.prepare(graph, entry)?;
        self.note(entry);
        Ok(())
    }

    /// How many entries were counted.
    pub fn entries(&self) -> u64
        ensures { result ≡ self.now.entries }
    {
        self.entries
    }

    /// Whether the entry is of no seat or of one that the heap has.
    pub fn has_seat(&self, entry: &Entry) -> bool
        ensures { IsTrue result ↔ IsSeatBelow self.now.heap.seats entry.now }
    {
        match entry.seat() {
            Some(seat) => seat < self.heap.seats,
            None => true,
        }
    }

    /// The fragments in use; 0 where the account is overdrawn.
    pub fn used(&self) -> u64
        ensures { (history : List Entries) → Tells self.now history → result ≡ fragments_used self.now.heap history }
    {
        let gained = self.heap.board_fragments() as u64 + self.all.taken;
        gained
            .saturating_sub(self.all.given)
            .saturating_sub(self.all.freed)
    }

    /// Whether more fragments were given back and freed than the board has and were taken, so that no count is right.
    pub fn is_overdrawn(&self) -> bool
        ensures { (history : List Entries) → Tells self.now history → (IsTrue result ↔ (fragments_gained self.now.heap history < fragments_lost history)) }
    {
        self.gained() < self.lost()
    }

    /// The spine words in use.
    pub fn spine(&self) -> u64
        ensures { (history : List Entries) → Tells self.now history → result ≡ words_used history }
    {
        self.all.words.saturating_sub(self.all.returned)
    }

    /// The fragments of what was reached when the last cycle began.
    pub fn reached_then(&self) -> u128
        ensures { (history : List Entries) → Tells self.now history → 1 ≤ phase history → HasReach (graph_of self.now.heap (up_to_cycle history)) result }
    {
        self.cycle.frags
    }

    /// The phase, how many were begun.
    pub fn phase(&self) -> u64
        ensures { (history : List Entries) → Tells self.now history → result ≡ phase history }
    {
        self.all.phases
    }
}
