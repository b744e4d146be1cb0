ghost use Rattle.std.specs.Prelude.{◌≡◌, ◌^◌, ◌<◌, IsTrue};
ghost use Rattle.heap_words.specs.Meta.{IsMeta, meta_word, meta_pointer, array_length, length_of};
ghost use Rattle.heap_words.specs.Reads.{Reads};

use crate::cell::Cell;
use crate::kind::Kind;

/// What is added to the length in an array's meta.
const ARRAY: u32 = 1 << 29;

/// No length reaches this.
const TOO_LONG: u32 = 1 << 13;

/// What an object is: an array of `length` cells, or a record of `length` fields.
#[derive(Clone, Copy, Debug, PartialEq, Eq)]
pub struct Meta {
    pub array: bool,
    /// Below 8192.
    pub length: u16,
    /// A record's first chain fragment; 0 where it has none, and for an array.
    pub next: u16,
}

impl Meta {
    /// The fixed cell's word that says all this.
    pub fn pack(&self) -> u64
        requires length { self.now.length < 2 ^ 13 }
        requires next { IsTrue self.now.array → self.now.next ≡ 0 }
        ensures { result ≡ meta_word self.now }
    {
        let length = u32::from(self.length);
        let value = if self.array { ARRAY + length } else { length };
        Cell {
            kind: Kind::Fixed,
            value,
            stamp: u32::from(self.next),
        }
        .pack()
    }

    /// Where a record's meta leads, read of any cell: to its second fragment, where it has one. An array's leads nowhere.
    pub fn lead(cell: &Cell) -> Option<u32>
        ensures { result ≡ meta_pointer cell.now }
    {
        if cell.value < ARRAY && cell.stamp != 0 {
            Some(cell.stamp)
        } else {
            None
        }
    }

    /// The length in an array's meta, read of any cell. A record's meta tells none.
    pub fn array_length(cell: &Cell) -> Option<u16>
        ensures { result ≡ array_length cell.now }
    {
        if cell.value < ARRAY {
            None
        } else {
            Some((cell.value % TOO_LONG) as u16)
        }
    }

    /// The length that a word tells; a meta's own.
    pub fn length_in(word: u64) -> u16
        ensures { result ≡ length_of word }
    {
        (Cell::read(word).value % TOO_LONG) as u16
    }

    /// The meta that packs to this word.
    pub fn read(word: u64) -> Option<Meta>
        ensures { Reads IsMeta meta_word word result }
    {
        let (value, stamp) = Cell::read_fixed(word)?;
        let next = u16::try_from(stamp).ok()?;
        let array = value >= ARRAY;
        let length = if array { value - ARRAY } else { value };
        if length >= TOO_LONG || array && next != 0 {
            return None;
        }
        Some(Meta {
            array,
            length: length as u16,
            next,
        })
    }
}
