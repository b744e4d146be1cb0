ghost use Rattle.std.specs.Borrow.{ftrue};
ghost use Rattle.seat_berth.specs.Known.{OwnerKnown, HelperKnown};

use std::marker::Model;

/// What the owner of a seat knows of its berth.
pub struct OwnerView {
    pub ghost known: { OwnerKnown },
}

impl Model for OwnerView {
    ghost also_owns = { λ _. ftrue };
}

/// What a helper knows of it.
pub struct HelperView {
    pub ghost known: { HelperKnown },
}

impl Model for HelperView {
    ghost also_owns = { λ _. ftrue };
}

/// What a party of a berth knows. It exists in proofs alone: no value of it is made.
pub enum View {
    Opening,
    OfOwner(OwnerView),
    OfHelper(HelperView),
}
