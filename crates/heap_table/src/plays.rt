use crate::view::View;
use atomic_table::{Join, Play, Split};
use std::marker::{Brand, PhantomData};

/// The view after a step and what the rule tells, by the word found. Each step picks them.
pub trait Telling {
    ghost use Rattle.std.specs.Prelude.{ℕ};
    ghost use Rattle.heap_table.specs.declared.view.View.{View};

    ghost becomes: { ℕ → View };

    ghost told: { ℕ → Type 0 };
}

impl Telling for Brand {
    ghost use Rattle.heap_table.specs.declared.view.View.TheVariants.{Spent};

    ghost becomes = { λ _. Spent };

    ghost told = { λ _. Unit {0} };
}

/// A step leads to the view that was picked, and tells what was picked.
pub struct Steps<T: Telling> {
    of: PhantomData<T>,
}

impl<T: Telling> Play<(), View> for Steps<T> {
    ghost use Rattle.heap_table.specs.Told.{Tells};

    ghost then = { λ step before found after. Tells T.becomes T.told before found after };
}

/// The heap whose seats are handed out. Each split picks it.
pub trait HeapName {
    ghost use Rattle.heap_model.specs.declared.heap.Heap.{Heap};

    ghost heap: { Heap };
}

impl HeapName for Brand {
    ghost heap = { record { groups = 1; spine = 0; seats = 1; board = 1 } };
}

/// The next seat is handed out.
pub struct HandsOut<H: HeapName> {
    of: PhantomData<H>,
}

impl<H: HeapName> Split<View> for HandsOut<H> {
    ghost use Rattle.heap_table.specs.Handing.{handing_view, handed_view};

    ghost left = { handing_view };

    ghost right = { handed_view H.heap };
}

/// A seat is folded in.
pub struct FoldsIn;

impl Join<View> for FoldsIn {
    ghost use Rattle.heap_table.specs.Handing.{folding_view};
    ghost use Rattle.heap_table.specs.declared.view.View.TheVariants.{Spent};

    ghost both = { folding_view };

    ghost spent = { Spent };
}
