ghost use Rattle.std.specs.Prelude.{◌≡◌, ◌<◌, ◌+◌, ◌^◌, ◌↔◌, IsTrue, length};
ghost use Rattle.log_merge.specs.Legal.{ShowsCounts, ShowsUse};

use heap_model::limits::GROUP_FRAGMENTS;
use heap_model::{Effect, Entry, Heap};
use reply_text::SpaceMark;

/// Whether so many are left of those that were had, where some are gone.
fn is_left(left: u64, had: u64, gone: u64) -> bool
    ensures { IsTrue result ↔ (left + gone ≡ had) }
{
    had.checked_sub(gone) == Some(left)
}

/// Whether so many fragments are in use after the entries.
pub fn shows_use(heap: Heap, entries: &[Entry], used: u64) -> bool
    requires { length entries.now < 2 ^ 30 }
    ensures { IsTrue result ↔ ShowsUse heap entries.now used }
{
    let all = Effect::of_all(entries);
    let gained = u64::from(heap.board_fragments()) + all.taken;
    is_left(used, gained, all.given + all.freed)
}

/// Whether the mark shows the counts after the entries.
pub fn shows_counts(heap: Heap, entries: &[Entry], mark: SpaceMark) -> bool
    requires { length entries.now < 2 ^ 30 }
    ensures { IsTrue result ↔ ShowsCounts heap entries.now mark }
{
    let all = Effect::of_all(entries);
    let gained = u64::from(heap.board_fragments()) + all.taken;
    is_left(mark.used, gained, all.given + all.freed)
        && mark.total == u64::from(GROUP_FRAGMENTS) * u64::from(heap.groups)
        && is_left(mark.spine, all.words, all.returned)
        && mark.budget == u64::from(heap.spine)
}
