use crate::view::View;
use atomic_table::{Seat, Shared, Table, TableRule};
use heap_model::Heap;
use std::alloc::Global;
use std::sync::Arc;

/// The table's rule: some book stands for its words and views.
pub struct BookStands;

impl TableRule<(), View, Heap> for BookStands {
    ghost use Rattle.heap_table.specs.Holds.{Holds};
    ghost use Rattle.heap_table.specs.Views.{opening_view};

    ghost holds = { Holds };

    ghost first = { opening_view };
}

/// The right to step on a table with a view.
pub(crate) type Token = Seat<(), View>;

/// A table as its steps see it.
pub(crate) type Words = Shared<(), View, Heap, BookStands>;

/// The table, which its holders share.
pub(crate) type SharedTable = Arc<Table<(), View, Heap, BookStands, Global>, Global>;
