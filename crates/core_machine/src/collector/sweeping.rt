ghost use Rattle.std.specs.Prelude.{◌≡◌, ◌+◌, ◌*◌, ◌<◌, ◌≤◌, ◌^◌};
ghost use Rattle.heap_model.specs.Heap.{IsHeap};
ghost use Rattle.heap_model.specs.Limits.{group_fragments};
ghost use Rattle.core_machine.specs.collector.Sweeping.{dead_bits_of, next_position_of, taken_count_of, after_swept, after_examined, after_freed, after_cleared};

use crate::collector::stage::Stage;
use heap_model::Heap;
use heap_words::{dead_bits, next_position, taken_count};

/// The group is swept: the next group's turn comes, and behind the last one the phase is done.
#[inline(always)]
pub fn sweep_on(heap: &Heap, group: u16) -> Stage
    requires { group < heap.now.groups }
    ensures { result ≡ after_swept heap.now group }
{
    let groups = heap.groups;
    if group + 1 < groups {
        Stage::Sweeping { group: group + 1 }
    } else {
        Stage::Advancing
    }
}

/// The first dead fragment from this position on is looked at; where there is none the dead ones are freed. Arrays among
/// those before it had so many spine words.
#[inline(always)]
pub fn examine_from(heap: &Heap, group: u16, dead: u16, words: u32, from: u8) -> Stage
    requires { group < heap.now.groups }
    ensures { result ≡ after_examined heap.now group dead words (next_position_of dead from) }
{
    if let Some(position) = next_position(dead, from) {
        return Stage::Examining {
            group,
            dead,
            position,
            words,
        };
    }
    if dead == 0 {
        return sweep_on(heap, group);
    }
    Stage::Freeing { group, dead, words }
}

/// The group's dead fragments are freed: where arrays are among them their spine words are returned.
pub fn freed(heap: &Heap, group: u16, words: u32) -> Stage
    requires { group < heap.now.groups }
    ensures { result ≡ after_freed heap.now group words }
{
    if words == 0 {
        return sweep_on(heap, group);
    }
    Stage::Returning { group, words }
}

/// The group has this control word: its dead fragments are looked at first.
#[inline(always)]
pub fn swept(heap: &Heap, group: u16, word: u64) -> Stage
    requires { group < heap.now.groups }
    ensures { result ≡ after_examined heap.now group (dead_bits_of word) 0 (next_position_of (dead_bits_of word) 0) }
{
    examine_from(heap, group, dead_bits(word), 0, 0)
}

/// The marks of the group that had this control word are cleared: the next group's turn comes, and behind the last one
/// the cycle's end.
#[inline(always)]
pub fn cleared(heap: &Heap, group: u16, kept: u64, word: u64) -> Stage
    requires limits { IsHeap heap.now }
    requires group { group < heap.now.groups }
    requires kept { kept ≤ group_fragments * group }
    ensures { result ≡ after_cleared heap.now group (kept + taken_count_of word) }
{
    let groups = heap.groups;
    let kept = kept + u64::from(taken_count(word));
    if group + 1 < groups {
        Stage::Clearing {
            group: group + 1,
            kept,
        }
    } else {
        Stage::Ending { kept }
    }
}
