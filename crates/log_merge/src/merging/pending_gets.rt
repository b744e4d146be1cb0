ghost use Rattle.std.specs.Prelude.{◌≡◌, ◌≢◌, ◌+◌, ◌-◌, ◌↔◌, ◌<◌, IsTrue, IfOk, OnOk, count_by, sum_by, map};
ghost use Rattle.log_merge.specs.declared.merging.pending_gets.PendingGet.{PendingGet as Key};
ghost use Rattle.log_merge.specs.Registers.{kind_of};

use crate::merging::registers::Registers;
use heap_model::{Entry, Id, Memory, Value};
use std::alloc::Global;
use std::collections::BTreeMap;

/// A get of a cell that a log still has, or a cas that leaves the cell, and the stamp that it answers.
#[derive(Clone, Copy, PartialEq, Eq, PartialOrd, Ord)]
pub struct PendingGet {
    pub object: Id,
    pub index: u32,
    pub stamp: u32,
}

/// The get of a cell of what the value refers to, if it refers to an object.
pub fn kind_of(value: Value, index: u32, stamp: u32) -> Option<PendingGet>
    ensures { result ≡ kind_of value index stamp }
{
    match value {
        Value::Object(object) => Some(PendingGet {
            object,
            index,
            stamp,
        }),
        _ => None,
    }
}

/// How many gets of each kind the logs still have.
#[derive(Drop)]
pub struct PendingGets {
    counts: BTreeMap<PendingGet, u64>,
}

impl PendingGets {
    ghost use Rattle.log_merge.specs.PendingGets.{is_kind, pending_count};
    ghost use Rattle.log_merge.specs.Registers.{gets_in, opening_registers};

    pub fn new(alloc: Global) -> PendingGets
        ensures { (get : Key) → pending_count result get ≡ 0 }
    {
        PendingGets {
            counts: BTreeMap::new(alloc),
        }
    }

    /// Counts the gets of the log.
    fn add_log(&mut self, log: &[Entry]) -> Result<(), Memory>
        ensures { OnOk result ((kind : Key) → pending_count self.new kind ≡ pending_count self.old kind + count_by (is_kind kind) (gets_in opening_registers log.now)) }
    {
        let mut registers = Registers::new();
        for entry in log {
            if let Some(get) = registers.get_of(entry) {
                self.add(get)?;
            }
            registers.pass(entry);
        }
        Ok(())
    }

    /// The gets of all logs.
    pub fn of_logs(alloc: Global, logs: &[Vec<Entry>]) -> Result<PendingGets, Memory>
        ensures { IfOk result (λ gets. (kind : Key) → pending_count gets kind ≡ sum_by (λ log. count_by (is_kind kind) (gets_in opening_registers log)) (map (λ log. log.items) logs.now)) }
    {
        let mut gets = PendingGets::new(alloc);
        for log in logs {
            gets.add_log(log.as_slice())?;
        }
        Ok(gets)
    }

    /// Whether a log still has such a get.
    pub fn has(&self, get: PendingGet) -> bool
        ensures { IsTrue result ↔ (0 < pending_count self.now get) }
    {
        self.count(get) > 0
    }

    fn count(&self, get: PendingGet) -> u64
        ensures { result ≡ pending_count self.now get }
    {
        self.counts.get(&get).copied().unwrap_or(0)
    }

    /// Counts one more. More than a count can tell are as many as memory can't hold.
    pub fn add(&mut self, get: PendingGet) -> Result<(), Memory>
        ensures here { OnOk result (pending_count self.new get ≡ pending_count self.old get + 1) }
        ensures others { OnOk result ((other : Key) → other ≢ get → pending_count self.new other ≡ pending_count self.old other) }
    {
        let Some(more) = self.count(get).checked_add(1) else {
            return Err(Memory);
        };
        self.counts.insert(get, more)?;
        Ok(())
    }

    /// Takes one away, where there is one.
    pub fn take(&mut self, get: PendingGet)
        ensures here { pending_count self.new get ≡ pending_count self.old get - 1 }
        ensures others { (other : Key) → other ≢ get → pending_count self.new other ≡ pending_count self.old other }
    {
        if let Some(count) = self.counts.get_mut(&get) {
            *count = count.saturating_sub(1);
        }
    }
}
