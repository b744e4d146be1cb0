use crate::view::View;
use atomic_table::{Play, Seat, Shared, Table, TableRule};
use core_machine::LastLog;
use std::alloc::Global;
use std::sync::Arc;

/// A seat of a heap without logs, which keeps its last entry alone.
pub type HeapSeat = mutator_seat::Seat<LastLog>;

/// Such a seat in its box, or none.
pub(crate) type Slot = Option<Box<HeapSeat, Global>>;

/// The rule of a berth: its word tells who has the seat.
pub struct SeatRests;

impl TableRule<Slot, View, HeapSeat> for SeatRests {
    ghost use Rattle.seat_berth.specs.Resting.{Holds};
    ghost use Rattle.seat_berth.specs.declared.view.View.TheVariants.{Opening};

    ghost holds = { Holds };

    ghost first = { λ _. Opening };
}

/// The right to step on a berth with a view.
pub(crate) type Token = Seat<Slot, View>;

/// A berth as its steps see it.
pub(crate) type Place = Shared<Slot, View, HeapSeat, SeatRests>;

/// The berth, which its parties share.
pub(crate) type SharedPlace = Arc<Table<Slot, View, HeapSeat, SeatRests, Global>, Global>;
