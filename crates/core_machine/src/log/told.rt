ghost use Rattle.std.specs.Prelude.{◌≡◌, List, [], ◌∷◌, ◌++◌};
ghost use Rattle.std.specs.Borrow.{ftrue};
ghost use Rattle.heap_model.specs.declared.entry.Entry.{Entry};

use crate::log::Entries;
use heap_model::{Entry, Memory};
use std::alloc::Global;
use std::marker::Model;

/// A log that is only told its entries: contracts speak of them, and memory has none. It takes no bytes and no time.
#[derive(Drop)]
pub struct ToldLog {
    pub ghost entries: { List Entry },
}

impl Model for ToldLog {
    ghost also_owns = { λ _. ftrue };
}

// It has no bytes that another thread could read or write.
unsafe impl Send for ToldLog {}

unsafe impl Sync for ToldLog {}

impl ToldLog {
    /// Nothing was told.
    fn silent() -> ToldLog
        ensures { result.entries ≡ [] }
    {
        ToldLog {}
    }

    /// One entry more was told.
    fn with(_before: &ToldLog, _entry: &Entry) -> ToldLog
        ensures { result.entries ≡ _before.now.entries ++ _entry.now ∷ [] }
    {
        ToldLog {}
    }
}

impl Entries for ToldLog {
    ghost use Rattle.std.specs.Prelude.{◌-◌, ◌^◌};

    ghost listed = { λ log. log.entries };

    ghost left = { λ _. 2 ^ 64 - 1 };

    ghost forgotten = { λ _. 0 };

    fn empty(_alloc: Global) -> ToldLog {
        ToldLog::silent()
    }

    fn spare(&self) -> usize {
        usize::MAX
    }

    fn reserve(&mut self, _n: usize) -> Result<(), Memory> {
        Ok(())
    }

    fn push(&mut self, entry: Entry) {
        *self = ToldLog::with(self, &entry);
    }
}
