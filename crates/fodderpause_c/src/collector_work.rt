ghost use Rattle.fodderpause_c.specs.Parties.{OnCollector, PartyOnCollector};

use crate::handle::Handle;
use crate::party::{HeapCollector, Party};
use crate::refusal::Refusal;
use std::alloc::Global;

/// What is done with a collector.
pub trait CollectorWork {
    ghost use Rattle.std.specs.Prelude.{Result};
    ghost use Rattle.heap_table.specs.CollectorHeld.{CollectorHeld};
    ghost use Rattle.fodderpause_c.specs.declared.refusal.Refusal.{Refusal as Causes};

    type Answer: Drop;

    /// What it comes to, and what it answers.
    ghost comes_to: { Self → CollectorHeld → CollectorHeld → Result Self.Answer Causes → Type 0 };

    fn work(&self, collector: &mut HeapCollector) -> Result<Self::Answer, Refusal>
        ensures { comes_to self.now collector.old collector.new result };
}

/// Does it with the party, where that is a collector.
fn party_works<W: CollectorWork>(party: &mut Party, work: &W) -> Result<W::Answer, Refusal>
    ensures { PartyOnCollector (W.comes_to work.now) party.old party.new result }
{
    match party {
        Party::OfCollector(collector) => work.work(collector),
        Party::OfSeat(_) => Err(Refusal::NoParty),
    }
}

/// Does it with the collector behind the handle, where there is one.
pub fn on_collector<W: CollectorWork>(
    alloc: Global,
    handle: &mut Handle,
    work: &W,
) -> Result<W::Answer, Refusal>
    ensures { OnCollector (W.comes_to work.now) handle.old.pointer.party handle.new.pointer.party result }
{
    let Some(mut party) = handle.take(alloc) else {
        return Err(Refusal::NoParty);
    };
    let answer = party_works(&mut *party, work);
    handle.put(party);
    answer
}
