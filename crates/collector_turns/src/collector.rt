ghost use Rattle.std.specs.Prelude.{◌≡◌, None};
ghost use Rattle.heap_model.specs.Heap.{IsHeap};

use core_machine::{CountsEntries, Entries, Log};
use heap_model::{Entry, Heap, Turn};
use heap_table::CollectorHolder;
use std::marker::Model;

/// The collector of a table: its holder, and what the last turn of this value answered.
#[derive(Drop)]
pub struct Collector<L: Entries = Log, C: CountsEntries = Log> {
    pub(crate) holder: CollectorHolder<L, C>,
    pub(crate) last_turn: Option<Turn>,
}

impl<L: Entries, C: CountsEntries> Model for Collector<L, C> {
    ghost use Rattle.collector_turns.specs.Collector.{CollectorValue};

    ghost Value = { CollectorValue };

    ghost view = { λ collector. record { holder = collector.holder; last_turn = collector.last_turn } };
}

impl<L: Entries, C: CountsEntries> Collector<L, C> {
    /// The collector of this holder, which goes on where the holder stands. It has made no turn yet.
    pub fn make(holder: CollectorHolder<L, C>) -> Collector<L, C>
        ensures { result ≡ record { holder = holder; last_turn = None } }
    {
        Collector {
            holder,
            last_turn: None,
        }
    }

    /// The holder alone, which keeps how far the turns have come.
    pub fn into_holder(self) -> CollectorHolder<L, C>
        ensures { result ≡ self.holder }
    {
        let Collector { holder, .. } = self;
        holder
    }

    /// The heap whose table it is of.
    pub fn heap(&self) -> Heap
        ensures heap { result ≡ self.now.holder.heap }
        ensures limits { IsHeap result }
    {
        self.holder.heap()
    }

    /// The phase in which the last seat was folded in; 0 where none was.
    pub fn folded(&self) -> u64
        ensures { result ≡ self.now.holder.known.folded }
    {
        self.holder.folded()
    }
}

impl<L: Entries> Collector<L> {
    /// The collector's entries, in their order.
    pub fn log(&self) -> &[Entry]
        ensures { result.now ≡ self.now.holder.known.collector.log }
    {
        self.holder.log()
    }
}
