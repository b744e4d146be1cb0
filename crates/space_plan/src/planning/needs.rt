ghost use Rattle.std.specs.Prelude.{◌≡◌, ◌<◌, ◌^◌, count_by};
ghost use Rattle.space_plan.specs.plan.Totals.{IsGreatest, IsNeeded, need_told, is_full};

use heap_model::{Entry, Reply};

/// The fragments that the entry's command asks for.
fn need(entry: &Entry) -> u64
    ensures need { result ≡ need_told entry.now }
    ensures fits { result < 2 ^ 32 }
{
    match *entry {
        Entry::Said { command, .. } => u64::from(command.need()),
        _ => 0,
    }
}

/// The most fragments that a command asks for; 0 where none asks for any.
pub fn most_need(entries: &[Entry]) -> u64
    ensures greatest { IsGreatest (IsNeeded entries.now) result }
    ensures fits { result < 2 ^ 32 }
{
    let mut most: u64 = 0;
    for entry in entries {
        most = most.max(need(entry));
    }
    most
}

/// Whether the entry refuses a command for want of fragments.
fn is_full(entry: &Entry) -> bool
    ensures { result ≡ is_full entry.now }
{
    matches!(
        *entry,
        Entry::Said {
            reply: Reply::Full { .. },
            ..
        }
    )
}

/// How many commands were refused for want of fragments.
pub fn refused(entries: &[Entry]) -> u64
    ensures { result ≡ count_by is_full entries.now }
{
    entries.iter().filter(|entry| is_full(entry)).count() as u64
}
