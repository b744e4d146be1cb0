ghost use Rattle.std.specs.Prelude.{◌≡◌, ◌+◌, ◌-◌, ◌<◌, ◌≤◌, ◌^◌, length, drop, [], ◌∷◌, ◌++◌, OnOk, OnErr};

use crate::log::told::ToldLog;
use crate::log::{CountsEntries, Entries, ShowsRecent};
use heap_model::{Entry, Memory};
use std::alloc::Global;
use std::marker::Model;

/// A log that keeps the entries that it was told since it was last asked to forget, and counts those before.
#[derive(Drop)]
pub struct RecentLog {
    told: ToldLog,
    recent: Vec<Entry>,
    before: usize,
}

impl Model for RecentLog {
    ghost use Rattle.std.specs.Prelude.{◌≡◌, ◌-◌, ◌<◌, ◌≤◌, ◌^◌, min, length, drop, vec_capacity, vec_len};
    ghost use Rattle.core_machine.specs.Log.{RecentEntries};

    ghost Value = { RecentEntries };

    ghost view = { λ log. record {
      entries = log.told.entries;
      spare = min (vec_capacity log.recent - vec_len log.recent) (2 ^ 64 - 1 - length log.told.entries);
      forgotten = log.before;
    } };

    ghost invariant = { λ log. (log.recent.items ≡ drop log.before log.told.entries)
        × (log.before ≤ length log.told.entries)
        × (length log.told.entries < 2 ^ 64) };
}

impl Entries for RecentLog {
    ghost listed = { λ log. log.entries };

    ghost left = { λ log. log.spare };

    ghost forgotten = { λ log. log.forgotten };

    fn empty(alloc: Global) -> RecentLog {
        RecentLog {
            told: ToldLog::empty(alloc),
            recent: Vec::new(alloc),
            before: 0,
        }
    }

    fn spare(&self) -> usize {
        let room = self.recent.capacity() - self.recent.len();
        room.min(usize::MAX - self.count())
    }

    fn reserve(&mut self, n: usize) -> Result<(), Memory> {
        if n > usize::MAX - self.count() {
            return Err(Memory);
        }
        self.recent.reserve(n).map_err(|_| Memory)
    }

    fn push(&mut self, entry: Entry) {
        self.told.push(entry);
        self.recent.push_reserved(entry);
    }
}

impl CountsEntries for RecentLog {
    fn count(&self) -> usize {
        self.before + self.recent.len()
    }
}

impl ShowsRecent for RecentLog {
    ghost forgets = { λ _ listed. listed };

    fn recent(&self) -> &[Entry] {
        self.recent.as_slice()
    }

    fn forget(&mut self)
        ensures forgotten { self.new ≡ record self.old { spare = self.new.spare; forgotten = length self.old.entries } }
        ensures spare { self.old.spare ≤ self.new.spare }
    {
        self.before += self.recent.len();
        self.recent.clear();
    }
}
