ghost use Rattle.std.specs.Prelude.{◌≡◌, ◌-◌, length, [], ◌∷◌, ◌++◌, slice_get, OnOk, OnErr};

use crate::log::told::ToldLog;
use crate::log::{Entries, ShowsLast};
use heap_model::{Entry, Memory};
use std::alloc::Global;
use std::marker::Model;

/// A log that keeps the entry that was added last, and no other: it takes the same few bytes however long it grows.
#[derive(Drop)]
pub struct LastLog {
    told: ToldLog,
    last: Option<Entry>,
}

impl Model for LastLog {
    ghost use Rattle.std.specs.Prelude.{◌≡◌, ◌-◌, List, length, slice_get};
    ghost use Rattle.heap_model.specs.declared.entry.Entry.{Entry};

    ghost Value = { List Entry };

    ghost view = { λ log. log.told.entries };

    ghost invariant = { λ log. log.last ≡ slice_get log.told.entries (length log.told.entries - 1) };
}

impl Entries for LastLog {
    ghost use Rattle.std.specs.Prelude.{◌-◌, ◌^◌};

    ghost listed = { λ log. log };

    ghost left = { λ _. 2 ^ 64 - 1 };

    ghost forgotten = { λ _. 0 };

    fn empty(alloc: Global) -> LastLog {
        LastLog {
            told: ToldLog::empty(alloc),
            last: None,
        }
    }

    fn spare(&self) -> usize {
        self.told.spare()
    }

    fn reserve(&mut self, _n: usize) -> Result<(), Memory> {
        Ok(())
    }

    fn push(&mut self, entry: Entry) {
        self.last = Some(entry);
        self.told.push(entry);
    }
}

impl ShowsLast for LastLog {
    fn last(&self) -> Option<Entry> {
        self.last
    }
}
