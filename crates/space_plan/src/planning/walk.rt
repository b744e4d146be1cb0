ghost use Rattle.std.specs.Prelude.{◌≡◌, ◌<◌, ◌+◌, ◌-◌, ◌^◌, ◌++◌, ◌∷◌, [], ℕ, List, IfOk, OnOk};
ghost use Rattle.heap_model.specs.declared.entry.Entry.{Entry as AnEntry};
ghost use Rattle.heap_model.specs.Heap.{IsHeap};
ghost use Rattle.heap_model.specs.account.Books.{Tells};
ghost use Rattle.heap_model.specs.account.Cycles.{graph_of};
ghost use Rattle.heap_model.specs.account.Noting.{IsSeatBelow};
ghost use Rattle.heap_model.specs.graph.Growth.{after_entry};

use crate::planning::begun::BegunCycle;
use crate::planning::ended::EndedCycles;
use crate::planning::ledger::Ledger;
use heap_model::{Account, ApplyFault, Entry, Graph, Heap, Memory};
use std::alloc::Global;

/// What is kept of the entries that were gone over.
#[derive(Drop)]
pub struct Walk {
    pub ledger: Ledger,
    graph: Graph,
    account: Account,
    pub begun: BegunCycle,
    pub ended: EndedCycles,
}

/// Lets the graph grow by the entry, which it refuses for want of memory alone where the entry is legal.
fn grow(graph: &mut Graph, entry: &Entry) -> Result<(), Memory>
    ensures { OnOk result (graph.new ≡ after_entry graph.old entry.now) }
{
    match graph.apply(entry) {
        Ok(()) => Ok(()),
        Err(ApplyFault::NotLegal | ApplyFault::Memory) => Err(Memory),
    }
}

/// Lets the account count the entry, where it is the next one behind the graph; it refuses it for want of memory alone where the entry is legal.
fn count(account: &mut Account, graph: &Graph, entry: &Entry) -> Result<(), Memory>
    requires few { account.old.entries < 2 ^ 32 }
    requires seat { IsSeatBelow account.old.heap.seats entry.now }
    ensures tells { OnOk result ((history : List AnEntry) → Tells account.old history →
        graph.now ≡ graph_of account.old.heap history → Tells account.new (history ++ entry.now ∷ [])) }
    ensures counted { OnOk result (account.new.entries ≡ account.old.entries + 1) }
    ensures heap { account.new.heap ≡ account.old.heap }
{
    match account.apply(graph, entry, true) {
        Ok(()) => Ok(()),
        Err(ApplyFault::NotLegal | ApplyFault::Memory) => Err(Memory),
    }
}

impl Walk {
    ghost use Rattle.space_plan.specs.plan.Walking.{Passed, WalkFits};

    /// The walk before the first entry.
    pub fn begin(alloc: Global, heap: Heap) -> Result<Walk, Memory>
        requires { IsHeap heap }
        ensures passed { IfOk result (λ walk. Passed walk []) }
        ensures fits { IfOk result (WalkFits 0) }
        ensures heap { IfOk result (λ walk. walk.ledger.heap ≡ heap) }
    {
        let ledger = Ledger::opening(heap);
        let graph = Graph::new(alloc, heap)?;
        let account = Account::new(alloc, heap)?;
        let begun = BegunCycle::opening(&ledger, &graph)?;
        Ok(Walk {
            ledger,
            graph,
            account,
            begun,
            ended: EndedCycles::none(alloc),
        })
    }

    /// Goes over the next entry.
    pub fn pass(&mut self, entry: &Entry) -> Result<(), Memory>
        requires heap { IsHeap self.old.ledger.heap }
        requires few { WalkFits (2 ^ 22 - 1) self.old }
        requires seat { IsSeatBelow self.old.ledger.heap.seats entry.now }
        ensures passed { (history : List AnEntry) → Passed self.old history →
            OnOk result (Passed self.new (history ++ entry.now ∷ [])) }
        ensures fits { (n : ℕ) → WalkFits n self.old → OnOk result (WalkFits (n + 1) self.new) }
        ensures heap { self.new.ledger.heap ≡ self.old.ledger.heap }
    {
        self.ended.pass(&self.ledger, &self.begun, entry)?;
        count(&mut self.account, &self.graph, entry)?;
        grow(&mut self.graph, entry)?;
        self.ledger.count(entry);
        self.begun.pass(&self.ledger, &self.account, entry)?;
        Ok(())
    }
}
