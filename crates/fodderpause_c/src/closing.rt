ghost use Rattle.std.specs.Prelude.{MatchResult};
ghost use Rattle.fodderpause_c.specs.Closing.{IsOver, LeavesOneHistory, RefusesClose, Closes, ClosesAll};

use crate::codes::answer_code;
use crate::handle::Handle;
use crate::party::Party;
use crate::refusal::Refusal;
use std::alloc::Global;

/// Whether this is a collector that has taken in every seat.
fn may_close(party: &Party) -> Result<(), Refusal>
    ensures { MatchResult result (λ _. IsOver party.now) (RefusesClose party.now) }
{
    let Party::OfCollector(collector) = party else {
        return Err(Refusal::NoParty);
    };
    if !collector.all_folded() {
        return Err(Refusal::NotFolded);
    }
    Ok(())
}

/// Closes the table of this collector, which has taken in every seat. C is told of no word.
fn end_table(party: Party)
    requires { IsOver party }
    ensures { LeavesOneHistory party }
{
    let Party::OfCollector(collector) = party else {
        unreachable!()
    };
    collector.close_quietly();
}

/// Closes the table of the collector behind the handle, once that has taken in every seat.
fn close(alloc: Global, collector: &mut Handle) -> Result<(), Refusal>
    ensures { Closes collector.old.pointer.party collector.new.pointer.party result }
{
    let Some(party) = collector.take(alloc) else {
        return Err(Refusal::NoParty);
    };
    if let Err(refusal) = may_close(&*party) {
        collector.put(party);
        return Err(refusal);
    }
    end_table(Box::into_inner(party));
    Ok(())
}

/// Closes the heap of a collector that has taken in every seat: its words are read a last time, and its memory is given back.
#[unsafe(no_mangle)]
pub extern "C" fn fodderpause_close(alloc: Global, collector: &mut Handle) -> u32
    ensures { ClosesAll collector.old.pointer.party collector.new.pointer.party result }
{
    answer_code(close(alloc, collector))
}
