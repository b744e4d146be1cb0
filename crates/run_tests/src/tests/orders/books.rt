ghost use Rattle.heap_model.specs.Heap.{IsHeap};

use heap_model::{Account, ApplyFault, Entry, Graph, Heap, Memory};
use std::alloc::Global;

/// More entries than the logs of a run here have.
const MOST_ENTRIES: u64 = 1_000_000;

/// What the books say of an entry.
#[derive(Clone, Copy)]
pub(super) enum Verdict {
    /// Both have counted it.
    Accepted,
    /// It may not stand here, and both are as before.
    Refused,
    /// It may not stand here, but the account has counted it.
    Spoiled,
}

/// The graph and the account of a run, which judge its entries one after another.
#[derive(Drop)]
pub(super) struct Books {
    graph: Graph,
    account: Account,
}

impl Books {
    /// The books of a heap that opens.
    pub fn opening(alloc: Global, heap: Heap) -> Result<Books, Memory>
        requires { IsHeap heap }
    {
        Ok(Books {
            graph: Graph::new(alloc, heap)?,
            account: Account::new(alloc, heap)?,
        })
    }

    /// Counts the entry, if graph and account both accept it next in a run.
    pub fn judge(&mut self, entry: &Entry) -> Result<Verdict, Memory> {
        if self.account.entries() >= MOST_ENTRIES || !self.account.has_seat(entry) {
            return Ok(Verdict::Refused);
        }
        match self.account.apply(&self.graph, entry, false) {
            Ok(()) => self.grow(entry),
            Err(ApplyFault::NotLegal) => Ok(Verdict::Refused),
            Err(ApplyFault::Memory) => Err(Memory),
        }
    }

    /// Lets the graph grow by an entry that the account has counted.
    fn grow(&mut self, entry: &Entry) -> Result<Verdict, Memory> {
        match self.graph.apply(entry) {
            Ok(()) => Ok(Verdict::Accepted),
            Err(ApplyFault::NotLegal) => Ok(Verdict::Spoiled),
            Err(ApplyFault::Memory) => Err(Memory),
        }
    }

    /// Whether no fragment and no spine word is in use.
    pub fn are_even(&self) -> bool {
        self.account.used() == 0 && !self.account.is_overdrawn() && self.account.spine() == 0
    }
}
