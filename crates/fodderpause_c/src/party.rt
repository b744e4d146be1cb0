use core_machine::{CountedLog, LastLog};
use heap_table::CollectorHolder;
use mutator_seat::Seat;

/// A seat of a heap, whose log keeps its last entry alone.
pub type HeapSeat = Seat<LastLog>;

/// The collector of such a heap, whose log is counted.
pub type HeapCollector = CollectorHolder<LastLog, CountedLog>;

/// What C has behind a handle.
#[derive(Drop)]
pub enum Party {
    OfSeat(HeapSeat),
    OfCollector(HeapCollector),
}
