ghost use Rattle.std.specs.Prelude.{◌≡◌, ◌+◌, ◌<◌, ◌^◌, length};

use crate::log::told::ToldLog;
use crate::log::{CountsEntries, Entries};
use heap_model::{Entry, Memory};
use std::alloc::Global;
use std::marker::Model;

/// A log that is told its entries and counts them. There is room as long as the count stays a number of 64 bits.
#[derive(Drop)]
pub struct CountedLog {
    told: ToldLog,
    count: usize,
}

impl Model for CountedLog {
    ghost use Rattle.std.specs.Prelude.{◌≡◌, length, List};
    ghost use Rattle.heap_model.specs.declared.entry.Entry.{Entry};

    ghost Value = { List Entry };

    ghost view = { λ log. log.told.entries };

    ghost invariant = { λ log. log.count ≡ length log.told.entries };
}

impl Entries for CountedLog {
    ghost use Rattle.std.specs.Prelude.{◌-◌, ◌^◌, length};

    ghost listed = { λ log. log };

    ghost left = { λ log. 2 ^ 64 - 1 - length log };

    ghost forgotten = { λ _. 0 };

    fn empty(alloc: Global) -> CountedLog {
        CountedLog {
            told: ToldLog::empty(alloc),
            count: 0,
        }
    }

    fn spare(&self) -> usize {
        usize::MAX - self.count
    }

    fn reserve(&mut self, n: usize) -> Result<(), Memory> {
        if n > usize::MAX - self.count {
            return Err(Memory);
        }
        Ok(())
    }

    fn push(&mut self, entry: Entry) {
        self.told.push(entry);
        self.count += 1;
    }
}

impl CountsEntries for CountedLog {
    fn count(&self) -> usize {
        self.count
    }
}
