ghost use base.Fml.{ftrue};
ghost use Rattle.heap_table.specs.Known.{SeatKnown, CollectorKnown};

use std::marker::Model;

/// What a seat's holder knows.
pub struct SeatView {
    pub ghost known: { SeatKnown },
}

impl Model for SeatView {
    ghost also_owns = { λ _. ftrue };
}

/// What the collector's holder knows.
pub struct CollectorView {
    pub ghost known: { CollectorKnown },
}

impl Model for CollectorView {
    ghost also_owns = { λ _. ftrue };
}

/// What a holder knows, or that it is no more. It exists in proofs alone: no value of it is made.
pub enum View {
    OfSeat(SeatView),
    OfCollector(CollectorView),
    Spent,
}
