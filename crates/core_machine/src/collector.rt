ghost use Rattle.std.specs.Prelude.{◌≡◌, ◌+◌, ◌<◌, ◌≤◌, ◌^◌, length, drop, OnOk, OnErr};
ghost use Rattle.core_machine.specs.collector.Collector.{opening_collector};

use crate::collector::stage::Stage;
use crate::log::kept::Log;
use crate::log::{CountsEntries, Entries, ShowsRecent};
use heap_model::{Entry, Memory};
use std::alloc::Global;
use std::marker::Model;

pub(crate) mod copying;
pub(crate) mod due;
pub(crate) mod endings;
pub(crate) mod marking;
pub(crate) mod stage;
pub(crate) mod sweeping;
pub(crate) mod turning;

/// What is kept of the collector: the phase, how far its turns are in it, how many it has made, and its entries in a log.
#[derive(Drop)]
pub struct CollectorParty<L: CountsEntries = Log> {
    pub(crate) phase: u64,
    pub(crate) stage: Stage,
    pub(crate) looked: u8,
    pub(crate) turns: u64,
    pub(crate) log: L,
}

impl<L: CountsEntries> Model for CollectorParty<L> {
    ghost use Rattle.core_machine.specs.machine.Value.{CollectorWithRoom};

    ghost Value = { CollectorWithRoom };

    ghost view = { λ party. record {
      collector = record {
        phase = party.phase;
        stage = party.stage;
        looked = party.looked;
        log = L.listed party.log;
      };
      spare = L.left party.log;
      forgotten = L.forgotten party.log;
      turns = party.turns;
    } };
}

impl CollectorParty {
    /// The collector's entries, in their order.
    pub fn entries(&self) -> &[Entry]
        ensures { result.now ≡ self.now.collector.log }
    {
        self.log.entries()
    }

    /// The collector's entries alone.
    pub fn into_entries(self) -> Vec<Entry>
        ensures { result.items ≡ self.collector.log }
    {
        let CollectorParty { log, .. } = self;
        log.into_entries()
    }
}

impl<L: ShowsRecent> CollectorParty<L> {
    /// The collector's entries behind those that were forgotten.
    pub fn recent(&self) -> &[Entry]
        ensures recent { result.now ≡ drop self.now.forgotten self.now.collector.log }
        ensures within { self.now.forgotten ≤ length self.now.collector.log }
    {
        self.log.recent()
    }

    /// The entries so far may be forgotten.
    pub fn forget(&mut self)
        ensures same { self.new ≡ record self.old { spare = self.new.spare; forgotten = self.new.forgotten } }
        ensures spare { self.old.spare ≤ self.new.spare }
        ensures forgotten { self.new.forgotten ≡ L.forgets self.old.forgotten (length self.old.collector.log) }
    {
        self.log.forget();
    }
}

impl<L: CountsEntries> CollectorParty<L> {
    /// The collector at the opening.
    pub fn opening(alloc: Global) -> CollectorParty<L>
        ensures collector { result.collector ≡ opening_collector }
        ensures turns { result.turns ≡ 0 }
    {
        CollectorParty {
            phase: 0,
            stage: Stage::Looking,
            looked: 0,
            turns: 0,
            log: L::empty(alloc),
        }
    }

    /// Makes room for at least `n` more entries.
    pub fn room(&mut self, n: usize) -> Result<(), Memory>
        ensures same { self.new.collector ≡ self.old.collector }
        ensures more { self.old.spare ≤ self.new.spare }
        ensures forgotten { self.new.forgotten ≡ self.old.forgotten }
        ensures room { OnOk result (n ≤ self.new.spare) }
        ensures memory { OnErr result (self.new ≡ self.old) }
        ensures turns { self.new.turns ≡ self.old.turns }
    {
        self.log.reserve(n)
    }

    /// For how many more entries there is room.
    pub fn spare(&self) -> usize
        ensures spare { result ≡ self.now.spare }
        ensures within { self.now.spare + length self.now.collector.log < 2 ^ 64 }
    {
        let _all = self.log.count();
        self.log.spare()
    }

    /// The phase.
    pub fn phase(&self) -> u64
        ensures { result ≡ self.now.collector.phase }
    {
        self.phase
    }

    /// The number of turns that it has made, or the last number of 64 bits.
    pub fn turns(&self) -> u64
        ensures { result ≡ self.now.turns }
    {
        self.turns
    }
}
