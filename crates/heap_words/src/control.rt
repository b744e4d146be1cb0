ghost use Rattle.std.specs.Prelude.{◌≡◌};
ghost use Rattle.heap_words.specs.Control.{fragment_bit_of, is_clear as is_clear_in, all_but_of, birth_bits_of, shade_bit_of, blacken_bit_of, lowest_grey_of, free_mask_of, dead_bits_of, marked_bits_of, next_position_of, taken_count_of};

use crate::group::Group;

/// The taken bits of all sixteen fragments of a group.
pub const ALL_TAKEN: u64 = 0xffff;

/// All bits of a control word but the marked and the scanned ones.
pub const MARKS_CLEARED: u64 = 0xffff_ffff;

/// The bit of a fragment among the sixteen of its group.
#[tactic(auto, using(crate::proofs::Fields::position_shift))]
pub fn fragment_bit(fragment: u16) -> u16
    ensures { result ≡ fragment_bit_of fragment }
{
    1 << (fragment % 16)
}

/// Whether the fragment's taken bit isn't set in its group's control word.
#[tactic(auto, using(crate::proofs::Fields::position_test))]
pub fn is_clear(word: u64, fragment: u16) -> bool
    ensures { result ≡ is_clear_in word fragment }
{
    word >> (fragment % 16) & 1 == 0
}

/// All bits of a control word but these taken ones.
pub fn all_but(bits: u16) -> u64
    ensures { result ≡ all_but_of bits }
{
    !u64::from(bits)
}

/// The bits that a birth sets: where births are black, marked and scanned too.
pub fn birth_bits(black: bool, bits: u16) -> u64
    ensures { result ≡ birth_bits_of black bits }
{
    let born = u64::from(bits) << 16;
    if black {
        born + (born << 16) + (born << 32)
    } else {
        born
    }
}

/// The bit that a shade sets: the fragment is marked.
pub fn shade_bit(fragment: u16) -> u64
    ensures { result ≡ shade_bit_of fragment }
{
    1 << (32 + fragment % 16)
}

/// The bit that a blacken sets: the fragment is scanned.
pub fn blacken_bit(fragment: u16) -> u64
    ensures { result ≡ blacken_bit_of fragment }
{
    1 << (48 + fragment % 16)
}

/// The lowest of a group's sixteen positions whose fragment is marked and not scanned.
pub fn lowest_grey(word: u64) -> Option<u16>
    ensures { result ≡ lowest_grey_of word }
{
    let group = Group::read(word);
    let grey = group.marked & !group.scanned;
    if grey == 0 {
        return None;
    }
    Some(grey.trailing_zeros() as u16)
}

/// All bits of a control word but the taken and the born ones of these fragments.
pub fn free_mask(bits: u16) -> u64
    ensures { result ≡ free_mask_of bits }
{
    let taken = u64::from(bits);
    !((taken << 16) + taken)
}

/// How many fragments of the group are taken.
pub fn taken_count(word: u64) -> u32
    ensures { result ≡ taken_count_of word }
{
    Group::read(word).taken.count_ones()
}

/// The fragments of a group that are born and not marked, each by its position.
pub fn dead_bits(word: u64) -> u16
    ensures { result ≡ dead_bits_of word }
{
    let group = Group::read(word);
    group.born & !group.marked
}

/// The marked fragments of a group, each by its position.
pub fn marked_bits(word: u64) -> u16
    ensures { result ≡ marked_bits_of word }
{
    Group::read(word).marked
}

/// The first position from this one on whose bit is set.
pub fn next_position(bits: u16, from: u8) -> Option<u8>
    ensures { result ≡ next_position_of bits from }
{
    if from >= 16 {
        return None;
    }
    let rest = bits >> from;
    if rest == 0 {
        return None;
    }
    Some(from + rest.trailing_zeros() as u8)
}
