ghost use Rattle.std.specs.Prelude.{◌≡◌, ◌+◌};
ghost use Rattle.heap_model.specs.Heap.{IsHeap};
ghost use Rattle.heap_model.specs.account.Space.{words_granted, words_returned};
ghost use Rattle.log_merge.specs.Legal.{ShowsUse};
ghost use Rattle.heap_runs.specs.PlayHeap.{IsPlayed};

use heap_model::{Effect, Entry, Heap};

/// How many fragments are in use after these entries.
pub fn in_use(heap: &Heap, entries: &[Entry]) -> u64
    requires limits { IsHeap heap.now }
    requires played { IsPlayed heap.now entries.now }
    ensures { ShowsUse heap.now entries.now result }
{
    let mut gained = u128::from(heap.board_fragments());
    let mut lost = 0u128;
    for entry in entries {
        let effect = Effect::of(entry);
        gained += u128::from(effect.taken);
        lost += u128::from(effect.given) + u128::from(effect.freed);
    }
    (gained - lost) as u64
}

/// How many spine words are in use after these entries.
pub fn words_in_use(heap: &Heap, entries: &[Entry]) -> u64
    requires limits { IsHeap heap.now }
    requires played { IsPlayed heap.now entries.now }
    ensures { result + words_returned entries.now ≡ words_granted entries.now }
{
    let mut granted = 0u128;
    let mut returned = 0u128;
    for entry in entries {
        let effect = Effect::of(entry);
        granted += u128::from(effect.words);
        returned += u128::from(effect.returned);
    }
    (granted - returned) as u64
}
