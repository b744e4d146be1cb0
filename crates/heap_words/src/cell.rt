ghost use Rattle.std.specs.Prelude.{◌≡◌, ◌≢◌, ◌^◌, ◌<◌, MatchOption};
ghost use Rattle.heap_words.specs.Cell.{cell_of, cell_word, fixed_cell};
ghost use Rattle.heap_words.specs.declared.kind.Kind.TheVariants.{Fixed};

use crate::kind::Kind;

/// A word of a fragment, taken apart.
#[derive(Clone, Copy, Debug, PartialEq, Eq)]
pub struct Cell {
    /// Tells what the value and the stamp mean.
    pub kind: Kind,
    /// Below 2^30.
    pub value: u32,
    /// In a cell of an object: the set that wrote it, or 0 where none has.
    pub stamp: u32,
}

impl Cell {
    /// The word of the cell.
    #[tactic(auto, using(crate::proofs::Fields::cell_components))]
    pub fn pack(&self) -> u64
        requires { self.now.value < 2 ^ 30 }
        ensures { result ≡ cell_word self.now }
    {
        let Cell { kind, value, stamp } = *self;
        kind.pack() | u64::from(value) << 32 | u64::from(stamp)
    }

    /// The cell that packs to this word.
    pub fn read(word: u64) -> Cell
        ensures { result ≡ cell_of word }
    {
        Cell {
            kind: Kind::read(word),
            value: (word >> 32 & 0x3fff_ffff) as u32,
            stamp: (word & 0xffff_ffff) as u32,
        }
    }

    /// The value and the stamp of the fixed cell that packs to this word.
    pub(crate) fn read_fixed(word: u64) -> Option<(u32, u32)>
        ensures { MatchOption result
            ((cell_of word).kind ≢ Fixed) (λ components. cell_of word ≡ fixed_cell components.0 components.1) }
    {
        let Cell { kind, value, stamp } = Cell::read(word);
        match kind {
            Kind::Fixed => Some((value, stamp)),
            _ => None,
        }
    }
}
