ghost use Rattle.std.specs.Prelude.{◌≡◌, ◌<◌, ◌↔◌, map, All, IsTrue};
ghost use Rattle.heap_model.specs.Limits.{stamp_limit};
ghost use Rattle.log_merge.specs.FewSets.{is_set, set_count, HaveFewSets};

use heap_model::limits::STAMP_LIMIT;
use heap_model::{Command, Entry, Reply};

/// Whether the entry is a set, or a compare and swap that swapped.
fn is_set(entry: &Entry) -> bool
    ensures { result ≡ is_set entry.now }
{
    match *entry {
        Entry::Said { command, reply, .. } => match (command, reply) {
            (Command::Set { .. } | Command::Cas { .. }, Reply::Was(_)) => true,
            _ => false,
        },
        _ => false,
    }
}

/// How many sets the log has.
fn set_count(log: &[Entry]) -> usize
    ensures { result ≡ set_count log.now }
{
    log.iter().filter(|entry| is_set(entry)).count()
}

/// Whether each log, as a list of its own, has fewer sets than a seat has stamps.
fn all_few(logs: &[Vec<Entry>]) -> bool
    ensures { IsTrue result ↔ All (λ log. set_count log.items < stamp_limit) logs.now }
{
    logs.iter()
        .all(|log| set_count(log.as_slice()) < STAMP_LIMIT as usize)
}

/// Whether each log has fewer sets than a seat has stamps, so that in none of them a stamp comes again.
pub fn have_few_sets(logs: &[Vec<Entry>]) -> bool
    ensures { IsTrue result ↔ HaveFewSets (map (λ log. log.items) logs.now) }
{
    all_few(logs)
}
