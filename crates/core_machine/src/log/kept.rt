ghost use Rattle.std.specs.Prelude.{◌≡◌, ◌+◌, ◌-◌, ◌<◌, ◌≤◌, ◌^◌, length, [], ◌∷◌, ◌++◌, slice_get, OnOk, OnErr};

use crate::log::{CountsEntries, Entries, ShowsLast, ShowsRecent};
use heap_model::{Entry, Memory};
use std::alloc::Global;
use std::marker::Model;

/// A log that keeps its entries.
#[derive(Drop)]
pub struct Log {
    entries: Vec<Entry>,
}

impl Model for Log {
    ghost use Rattle.std.specs.Prelude.{◌-◌, vec_capacity, vec_len};
    ghost use Rattle.core_machine.specs.Log.{LogWithRoom};

    ghost Value = { LogWithRoom };

    ghost view = { λ log. record {
      entries = log.entries.items;
      spare = vec_capacity log.entries - vec_len log.entries;
    } };
}

impl Log {
    /// The entries.
    pub fn entries(&self) -> &[Entry]
        ensures { result.now ≡ self.now.entries }
    {
        self.entries.as_slice()
    }

    /// The entries alone.
    pub fn into_entries(self) -> Vec<Entry>
        ensures { result.items ≡ self.entries }
    {
        let Log { entries } = self;
        entries
    }
}

impl Entries for Log {
    ghost listed = { λ log. log.entries };

    ghost left = { λ log. log.spare };

    ghost forgotten = { λ _. 0 };

    fn empty(alloc: Global) -> Log {
        Log {
            entries: Vec::new(alloc),
        }
    }

    fn spare(&self) -> usize {
        self.entries.capacity() - self.entries.len()
    }

    fn reserve(&mut self, n: usize) -> Result<(), Memory> {
        self.entries.reserve(n).map_err(|_| Memory)
    }

    fn push(&mut self, entry: Entry) {
        self.entries.push_reserved(entry);
    }
}

impl CountsEntries for Log {
    fn count(&self) -> usize {
        self.entries.len()
    }
}

impl ShowsRecent for Log {
    ghost forgets = { λ before _. before };

    fn recent(&self) -> &[Entry] {
        self.entries.as_slice()
    }

    fn forget(&mut self)
        ensures { self.new ≡ self.old }
    {}
}

impl ShowsLast for Log {
    fn last(&self) -> Option<Entry> {
        self.entries.last().copied()
    }
}
