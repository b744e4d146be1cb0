ghost use Rattle.std.specs.Prelude.{◌≡◌};

use crate::id::Value;

/// A value with a stamp: a place in an object, or a register. A place's stamp is 0 where it was never set, and else says whose set it was,
/// and which but for a multiple of 2^26. A register's is that of the place from which its value was read, and 0 where it was read from none.
#[derive(Clone, Copy, Debug, PartialEq, Eq)]
pub struct Cell {
    pub value: Value,
    pub stamp: u32,
}

impl Cell {
    ghost use Rattle.heap_model.specs.graph.Graph.{unseen};

    /// A value that was read from no place.
    pub fn unseen(value: Value) -> Cell
        ensures { result ≡ unseen value }
    {
        Cell { value, stamp: 0 }
    }
}
