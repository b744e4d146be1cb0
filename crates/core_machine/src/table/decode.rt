ghost use Rattle.std.specs.Prelude.{◌≡◌, ◌<◌, ◌^◌};
ghost use Rattle.heap_model.specs.Needs.{array_words as array_words_of};
ghost use Rattle.core_machine.specs.table.Decode.{spine_words_in, id_of, plain_of};

use crate::seat::register::Register;
use heap_model::Id;
use heap_words::{Cell, Kind, Name, array_length};

/// How many words the spine of an array with so many cells has.
#[inline(always)]
pub fn array_words(cells: u16) -> u16
    requires { cells < 2 ^ 13 }
    ensures { result ≡ array_words_of cells }
{
    (cells + 3) / 4
}

/// How many words the spine of that array has; 0 where the word is no array's meta.
#[inline(always)]
pub fn spine_words(word: u64) -> u16
    ensures { result ≡ spine_words_in word }
{
    array_length(word).map_or(0, array_words)
}

/// The id in a name.
pub fn id_in(word: u64) -> Id
    ensures { result ≡ id_of word }
{
    let name = Name::told(word);
    if name.owner == 0 {
        Id::Board
    } else {
        Id::Made {
            seat: name.owner - 1,
            count: name.count,
        }
    }
}

/// What a register holds after it got a field that is no reference.
pub fn plain_in(word: u64) -> Register
    ensures { result ≡ plain_of word }
{
    let cell = Cell::read(word);
    match cell.kind {
        Kind::Number => Register::Number(cell.value),
        Kind::Nil | Kind::Reference | Kind::Fixed => Register::Nil,
    }
}
