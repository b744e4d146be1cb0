ghost use Rattle.std.specs.Prelude.{◌≡◌, map, IfOk};
ghost use Rattle.heap_model.specs.Heap.{IsHeap};
ghost use Rattle.heap_model.specs.Logs.{logs_of};
ghost use Rattle.heap_model.specs.graph.Legal.{IsObjectLegal};
ghost use Rattle.log_merge.specs.FewSets.{HaveFewSets};
ghost use Rattle.log_merge.specs.Merging.{HasOrder, TakesFirstReady};

use crate::merging::merger::Merger;
use heap_model::{Entry, Heap, Memory};
use std::alloc::Global;

mod merger;
mod pending_gets;
mod registers;

/// Puts the logs of seats and collector together, the seats' first: at each position the first entry that is ready, of the lowest log that has one.
/// Each log has fewer sets than a seat has stamps (`have_few_sets`), so that what an entry found tells behind which set it stands.
pub fn merge(alloc: Global, logs: &[Vec<Entry>], heap: Heap) -> Result<Vec<Entry>, Memory>
    requires heap { IsHeap heap }
    requires order { HasOrder heap (map (λ log. log.items) logs.now) }
    requires few { HaveFewSets (map (λ log. log.items) logs.now) }
    ensures legal { IfOk result (λ history. IsObjectLegal heap history.items) }
    ensures kept { IfOk result (λ history. map (λ log. log.items) logs.now ≡ logs_of heap history.items) }
    ensures first { IfOk result (λ history. TakesFirstReady heap (map (λ log. log.items) logs.now) history.items) }
{
    let merger = Merger::new(alloc, logs, heap)?;
    merger.place_all(logs)
}
