ghost use Rattle.std.specs.Prelude.{◌≡◌, map, IfOk, IfSome};
ghost use Rattle.heap_model.specs.Heap.{IsHeap};
ghost use Rattle.heap_model.specs.Logs.{logs_of};
ghost use Rattle.heap_model.specs.graph.Legal.{IsObjectLegal};
ghost use Rattle.log_merge.specs.FewSets.{HaveFewSets};
ghost use Rattle.heap_caller.specs.Parties.{IsOfTable, StaysCollector};

use crate::opening::Parties;
use heap_model::{Entry, Memory, Reply};
use heap_table::{Closed, CollectorHolder};
use log_merge::merge;
use mutator_seat::Seat;
use std::alloc::Global;

/// Folds the seat in, where it has left.
fn fold(collector: &mut CollectorHolder, seat: Seat)
    requires { IsOfTable collector.old seat }
    ensures { StaysCollector collector.old collector.new }
{
    let holder = seat.into_holder();
    if holder.party().left() {
        collector.fold_in(holder);
    }
}

impl Parties {
    /// Folds both seats in, and closes the table; none where a seat hasn't left.
    pub fn close(self, alloc: Global) -> Result<Option<Closed>, Memory>
        ensures { IfOk result (λ closed. IfSome closed (λ table. IsHeap table.heap)) }
    {
        let Parties {
            first,
            second,
            mut collector,
        } = self;
        fold(&mut collector, first);
        fold(&mut collector, second);
        if !collector.all_folded() {
            return Ok(None);
        }
        // The heap's limits are known from here on.
        let _ = collector.heap();
        match collector.close(alloc) {
            Ok(closed) => Ok(Some(closed)),
            Err(_) => Err(Memory),
        }
    }
}

/// The one history: each party's entries in their order, each legal where it stands. That there is such an order is what a closed table promises.
pub fn merged(alloc: Global, closed: &Closed) -> Result<Vec<Entry>, Memory>
    requires heap { IsHeap closed.now.heap }
    requires few { HaveFewSets closed.now.logs }
    ensures legal { IfOk result (λ history. IsObjectLegal closed.now.heap history.items) }
    ensures kept { IfOk result (λ history. closed.now.logs ≡ logs_of closed.now.heap history.items) }
{
    merge(alloc, closed.logs(), closed.heap())
}

/// How many objects the history tells to be made.
pub fn records(history: &[Entry]) -> usize {
    history
        .iter()
        .filter(|entry| {
            matches!(
                entry,
                Entry::Said {
                    reply: Reply::Made(_),
                    ..
                }
            )
        })
        .count()
}
