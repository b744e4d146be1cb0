ghost use Rattle.std.specs.Prelude.{◌≡◌};
ghost use Rattle.heap_words.specs.Name.{IsName, name_word, name_in};
ghost use Rattle.heap_words.specs.Reads.{Reads};

use crate::cell::Cell;
use crate::kind::Kind;

/// Which object it is, for as long as the heap stands.
#[derive(Clone, Copy, Debug, PartialEq, Eq)]
pub struct Name {
    /// 0 for the board, else the number of the seat that made it, plus 1.
    pub owner: u8,
    /// How many objects this owner had made before.
    pub count: u32,
}

impl Name {
    /// The fixed cell's word with the owner as its value and the count as its stamp.
    pub fn pack(&self) -> u64
        ensures { result ≡ name_word self.now }
    {
        Cell {
            kind: Kind::Fixed,
            value: u32::from(self.owner),
            stamp: self.count,
        }
        .pack()
    }

    /// The name that a word tells; of a word that no name packs to some name.
    pub fn told(word: u64) -> Name
        ensures { result ≡ name_in word }
    {
        let cell = Cell::read(word);
        Name {
            owner: (cell.value % 256) as u8,
            count: cell.stamp,
        }
    }

    /// The name that packs to this word.
    pub fn read(word: u64) -> Option<Name>
        ensures { Reads IsName name_word word result }
    {
        let (value, count) = Cell::read_fixed(word)?;
        let owner = u8::try_from(value).ok()?;
        Some(Name { owner, count })
    }
}
