ghost use Rattle.std.specs.Prelude.{◌≡◌, ◌<◌, ◌^◌, IfSome};
ghost use Rattle.heap_words.specs.Loaded.{head_of, pointer_in, is_meta as is_meta_of, array_length_of, payload_in, link_of, stamp_of};

use crate::cell::Cell;
use crate::kind::Kind;
use crate::meta::Meta;

/// The first fragment of the object that a field refers to.
pub fn head_in(word: u64) -> Option<u32>
    ensures { result ≡ head_of word }
{
    let cell = Cell::read(word);
    match cell.kind {
        Kind::Reference => Some(cell.value),
        Kind::Nil | Kind::Number | Kind::Fixed => None,
    }
}

/// Where the first word of a fragment leads: by a link, or by a record's meta.
fn first_lead(word: u64) -> Option<u32>
    ensures { result ≡ pointer_in 0 word }
{
    let cell = Cell::read(word);
    match cell.kind {
        Kind::Reference => Some(cell.value),
        Kind::Fixed => Meta::lead(&cell),
        Kind::Nil | Kind::Number => None,
    }
}

/// Where a word of a fragment leads: the first one by a link or a record's meta, each by a reference.
pub fn lead_in(part: u8, word: u64) -> Option<u32>
    ensures { result ≡ pointer_in part word }
{
    if part == 0 {
        first_lead(word)
    } else {
        head_in(word)
    }
}

/// Whether the word is an object's meta, where it is a fragment's first.
pub fn is_meta(word: u64) -> bool
    ensures { result ≡ is_meta_of word }
{
    match Cell::read(word).kind {
        Kind::Fixed => true,
        Kind::Nil | Kind::Number | Kind::Reference => false,
    }
}

/// The length of the array whose meta the word is, where it is a fragment's first.
pub fn array_length(word: u64) -> Option<u16>
    ensures { result ≡ array_length_of word }
{
    let cell = Cell::read(word);
    match cell.kind {
        Kind::Fixed => Meta::array_length(&cell),
        Kind::Nil | Kind::Number | Kind::Reference => None,
    }
}

/// The fragment that a spine word names.
pub fn payload(word: u64) -> u16
    requires { payload_in word < 2 ^ 16 }
    ensures { result ≡ payload_in word }
{
    Cell::read(word).value as u16
}

/// The fragment after the one whose first word this is; 0 where it leads nowhere.
pub fn link_in(word: u64) -> u16
    requires { IfSome (pointer_in 0 word) (λ fragment. fragment < 2 ^ 16) }
    ensures { result ≡ link_of word }
{
    match first_lead(word) {
        Some(fragment) => fragment as u16,
        None => 0,
    }
}

/// The stamp of a field.
pub fn stamp_in(word: u64) -> u32
    ensures { result ≡ stamp_of word }
{
    Cell::read(word).stamp
}
