ghost use Rattle.fodderpause_c.specs.Closing.{IsToldOf};
ghost use Rattle.fodderpause_c.specs.Dropping.{DropsSeat, DropsCollector};

use crate::codes::answer_code;
use crate::handle::Handle;
use crate::party::Party;
use crate::refusal::Refusal;
use std::alloc::Global;

/// Lets go the seat behind the handle.
fn drop_seat(alloc: Global, seat: &mut Handle) -> Result<(), Refusal>
    ensures { DropsSeat seat.old.pointer.party seat.new.pointer.party result }
{
    let Some(party) = seat.take(alloc) else {
        return Err(Refusal::NoParty);
    };
    if let Party::OfCollector(_) = &*party {
        seat.put(party);
        return Err(Refusal::NoParty);
    }
    Ok(())
}

/// Lets go the collector behind the handle.
fn drop_collector(alloc: Global, collector: &mut Handle) -> Result<(), Refusal>
    ensures { DropsCollector collector.old.pointer.party collector.new.pointer.party result }
{
    let Some(party) = collector.take(alloc) else {
        return Err(Refusal::NoParty);
    };
    if let Party::OfSeat(_) = &*party {
        collector.put(party);
        return Err(Refusal::NoParty);
    }
    Ok(())
}

/// Lets go a seat. Where it hasn't left, what it kept stays taken, no cycle of its heap ends any more, and the heap can't be closed.
#[unsafe(no_mangle)]
pub extern "C" fn fodderpause_drop_seat(alloc: Global, seat: &mut Handle) -> u32
    ensures { IsToldOf DropsSeat seat.old.pointer.party seat.new.pointer.party result }
{
    answer_code(drop_seat(alloc, seat))
}

/// Lets go a collector. Its seats go on, and no cycle ends any more.
#[unsafe(no_mangle)]
pub extern "C" fn fodderpause_drop_collector(alloc: Global, collector: &mut Handle) -> u32
    ensures { IsToldOf DropsCollector collector.old.pointer.party collector.new.pointer.party result }
{
    answer_code(drop_collector(alloc, collector))
}
