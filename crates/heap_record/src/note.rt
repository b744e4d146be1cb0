ghost use Rattle.std.specs.Prelude.{◌≡◌, ◌≢◌, ℕ, ◌+◌, ◌-◌, ◌<◌, ◌≤◌, ◌++◌, length, drop, vec_len, vec_capacity};
ghost use Rattle.core_machine.specs.machine.Value.{IsParty, forgotten_of, log_of, recent_of, spare_of};
ghost use Rattle.heap_record.specs.Recorded.{claimed_by};

use core_machine::{Machine, ShowsRecent};
use heap_model::{Effect, Entry};

/// Adds entries, for which there is room.
#[inline(always)]
fn note_all(list: &mut Vec<Entry>, entries: &[Entry])
    requires { vec_len list.old + length entries.now ≤ vec_capacity list.old }
    ensures items { list.new.items ≡ list.old.items ++ entries.now }
    ensures len { vec_len list.new ≡ vec_len list.old + length entries.now }
    ensures capacity { vec_capacity list.old ≤ vec_capacity list.new }
{
    let Ok(()) = list.extend_from_slice(entries) else {
        unreachable!()
    };
}

/// Adds the party's entries behind the first `before` that the machine shows, for which there is room, takes them from the spare room, and lets the machine forget
/// them.
#[inline(always)]
pub fn note_since<L: ShowsRecent>(
    list: &mut Vec<Entry>,
    spare: &mut usize,
    machine: &mut Machine<L>,
    party: u8,
    before: usize,
)
    requires party { IsParty machine.old party }
    requires longer { before ≤ length (recent_of machine.old party) }
    requires room { vec_len list.old + length (drop before (recent_of machine.old party)) ≤ vec_capacity list.old }
    ensures items { list.new.items ≡ list.old.items ++ drop before (recent_of machine.old party) }
    ensures len { vec_len list.new ≡ vec_len list.old + length (drop before (recent_of machine.old party)) }
    ensures capacity { vec_capacity list.old ≤ vec_capacity list.new }
    ensures left { spare.new ≡ spare.old - length (drop before (recent_of machine.old party)) }
    ensures same { machine.new ≡ record machine.old { spares = machine.new.spares; forgotten = machine.new.forgotten } }
    ensures more { spare_of machine.old party ≤ spare_of machine.new party }
    ensures forgotten { 0 < length (drop before (recent_of machine.old party)) → forgotten_of machine.new party ≡ L.forgets (forgotten_of machine.old party) (length (log_of machine.old party)) }
    ensures others { (other : ℕ) → other ≢ party → spare_of machine.new other ≡ spare_of machine.old other }
{
    let (_, told) = machine.recent(party).split_at(before);
    // (most turns tell nothing)
    if told.is_empty() {
        return;
    }
    *spare = spare.saturating_sub(told.len());
    note_all(list, told);
    machine.forget(party);
}

/// How many fragments these entries take, or the last number of its type.
pub fn claimed(entries: &[Entry]) -> u64
    ensures { result ≡ claimed_by entries.now }
{
    let mut taken = 0u64;
    for entry in entries {
        taken = taken.saturating_add(Effect::of(entry).taken);
    }
    taken
}
