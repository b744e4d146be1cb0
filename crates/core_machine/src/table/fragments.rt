ghost use Rattle.std.specs.Prelude.{◌≡◌, ◌+◌, ◌*◌, ◌<◌, ◌≤◌, ◌++◌, ◌/◌, ◌-◌, length, slice_index_or};
ghost use Rattle.std.specs.List.{list_all};
ghost use Rattle.heap_model.specs.Limits.{group_fragments, most_groups};
ghost use Rattle.core_machine.specs.seat.Making.{first_group_of, last_group_of, last_run as last_run_of};
ghost use Rattle.core_machine.specs.table.Fragments.{in_group, inside_group, outside_group, mask_of, clear_in};

use arrayvec::ArrayVec;
use heap_model::limits::{GROUP_FRAGMENTS, MOST_RESERVE};
use heap_words::{fragment_bit, is_clear};

/// The most fragments that a seat keeps between two calls, and one more.
pub const MOST_KEPT: usize = MOST_RESERVE as usize + 1;

/// The most fragments that a hand holds: those of the largest array, less one, and a group.
pub const MOST_HELD: usize = 1040;

/// Fragments that a seat keeps between two calls.
pub type Reserve = ArrayVec<u16, MOST_KEPT>;

/// Fragments that a call in flight uses.
pub type Hand = ArrayVec<u16, MOST_HELD>;

/// The bits of those fragments that are of this group.
#[tactic(auto, unfolding(crate::specs::table::Fragments::mask_of))]
pub fn mask_in(fragments: &[u16], group: u16) -> u16
    ensures { result ≡ mask_of (inside_group group fragments.now) }
{
    fragments
        .iter()
        .filter(|fragment| **fragment / GROUP_FRAGMENTS == group)
        .fold(0, |bits, fragment| bits | fragment_bit(*fragment))
}

/// The bits of these fragments.
#[tactic(auto, unfolding(crate::specs::table::Fragments::mask_of))]
pub fn mask(fragments: &[u16]) -> u16
    ensures { result ≡ mask_of fragments.now }
{
    fragments
        .iter()
        .fold(0, |bits, fragment| bits | fragment_bit(*fragment))
}

/// How many of the fragments are of this group.
pub fn count_in(fragments: &[u16], group: u16) -> usize
    ensures count { result ≡ length (inside_group group fragments.now) }
    ensures few { result ≤ length fragments.now }
{
    fragments
        .iter()
        .filter(|fragment| **fragment / GROUP_FRAGMENTS == group)
        .count()
}

/// Whether all fragments are of this group.
pub fn all_in(fragments: &[u16], group: u16) -> bool
    ensures { result ≡ list_all (in_group group) fragments.now }
{
    fragments
        .iter()
        .all(|fragment| *fragment / GROUP_FRAGMENTS == group)
}

/// Leaves out the fragments of this group.
pub fn leave_out(hand: &mut Hand, group: u16)
    ensures { hand.new.items ≡ outside_group group hand.old.items }
{
    let mut kept = 0;
    for position in 0..hand.len() {
        let fragment = hand[position];
        if fragment / GROUP_FRAGMENTS != group {
            hand[kept] = fragment;
            kept += 1;
        }
    }
    hand.truncate(kept);
}

/// Adds the fragments of the group whose taken bit isn't set in its control word.
pub fn add_clear(hand: &mut Hand, group: u16, word: u64)
    requires room { length hand.old.items + group_fragments ≤ MOST_HELD }
    requires group { group < most_groups }
    ensures items { hand.new.items ≡ hand.old.items ++ clear_in group word }
    ensures few { length hand.new.items ≤ length hand.old.items + group_fragments }
{
    for position in 0..GROUP_FRAGMENTS {
        let fragment = GROUP_FRAGMENTS * group + position;
        if is_clear(word, fragment) {
            hand.push(fragment);
        }
    }
}

/// The group of the first fragment.
pub fn first_group(fragments: &[u16]) -> u16
    requires { 0 < length fragments.now }
    ensures { result ≡ first_group_of fragments.now }
{
    fragments[0] / GROUP_FRAGMENTS
}

/// The group of the last fragment.
pub fn last_group(fragments: &[u16]) -> u16
    requires { 0 < length fragments.now }
    ensures { result ≡ last_group_of fragments.now }
{
    fragments[fragments.len() - 1] / GROUP_FRAGMENTS
}

/// How many of the last fragments are of the last one's group.
pub fn last_run(fragments: &[u16]) -> usize
    requires { 0 < length fragments.now }
    ensures run { result ≡ last_run_of fragments.now }
    ensures few { result ≤ length fragments.now }
{
    let group = last_group(fragments);
    fragments
        .iter()
        .rev()
        .take_while(|fragment| **fragment / GROUP_FRAGMENTS == group)
        .count()
}

/// Adds these fragments.
pub fn append<const N: usize>(buffer: &mut ArrayVec<u16, N>, fragments: &[u16])
    requires { length buffer.old.items + length fragments.now ≤ N }
    ensures { buffer.new.items ≡ buffer.old.items ++ fragments.now }
{
    match buffer.try_extend_from_slice(fragments) {
        Ok(()) => (),
        Err(_) => unreachable!(),
    }
}

/// Puts these fragments into the place of those that it has.
pub fn refill<const N: usize>(buffer: &mut ArrayVec<u16, N>, fragments: &[u16])
    requires { length fragments.now ≤ N }
    ensures { buffer.new.items ≡ fragments.now }
{
    buffer.clear();
    append(buffer, fragments);
}

/// Puts these fragments before those that it has.
pub fn put_before<const N: usize>(buffer: &mut ArrayVec<u16, N>, fragments: &[u16])
    requires { length buffer.old.items + length fragments.now ≤ N }
    ensures { buffer.new.items ≡ fragments.now ++ buffer.old.items }
{
    append(buffer, fragments);
    buffer.as_mut_slice().rotate_right(fragments.len());
}
