ghost use Rattle.std.specs.Prelude.{◌≡◌, ◌<◌};
ghost use Rattle.heap_words.specs.Reads.{Reads};
ghost use Rattle.heap_words.specs.Spot.{IsSpot, spot_word, spot_in};

use crate::cell::Cell;
use crate::kind::Kind;

/// The offsets that a word tells are below this.
const OFFSETS: u32 = 1 << 31;

/// A place for a spine word, in one of the two halves of the spine space.
#[derive(Clone, Copy, Debug, PartialEq, Eq)]
pub struct Spot {
    /// 0 or 1.
    pub half: u8,
    /// The words of the half that come before it.
    pub offset: u32,
}

impl Spot {
    /// The fixed cell's word with the half as its value and the offset as its stamp.
    pub fn pack(&self) -> u64
        requires { self.now.half < 2 }
        ensures { result ≡ spot_word self.now }
    {
        Cell {
            kind: Kind::Fixed,
            value: u32::from(self.half),
            stamp: self.offset,
        }
        .pack()
    }

    /// The spot that a word tells; of a word that no spot packs to some spot.
    pub fn told(word: u64) -> Spot
        ensures { result ≡ spot_in word }
    {
        let cell = Cell::read(word);
        Spot {
            half: (cell.value % 2) as u8,
            offset: cell.stamp % OFFSETS,
        }
    }

    /// The spot that packs to this word.
    pub fn read(word: u64) -> Option<Spot>
        ensures { Reads IsSpot spot_word word result }
    {
        let (value, offset) = Cell::read_fixed(word)?;
        if value >= 2 {
            return None;
        }
        Some(Spot {
            half: value as u8,
            offset,
        })
    }
}
