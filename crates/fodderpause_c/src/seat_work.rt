ghost use Rattle.fodderpause_c.specs.Parties.{OnSeat, PartyOnSeat};

use crate::handle::Handle;
use crate::party::{HeapSeat, Party};
use crate::refusal::Refusal;
use std::alloc::Global;

/// What is done with a seat.
pub trait SeatWork {
    ghost use Rattle.std.specs.Prelude.{Result};
    ghost use Rattle.heap_table.specs.SeatHeld.{SeatHeld};
    ghost use Rattle.fodderpause_c.specs.declared.refusal.Refusal.{Refusal as Causes};

    type Answer: Drop;

    /// What it comes to, and what it answers.
    ghost comes_to: { Self → SeatHeld → SeatHeld → Result Self.Answer Causes → Type 0 };

    fn work(&self, seat: &mut HeapSeat) -> Result<Self::Answer, Refusal>
        ensures { comes_to self.now seat.old seat.new result };
}

/// Does it with the party, where that is a seat.
fn party_works<W: SeatWork>(party: &mut Party, work: &W) -> Result<W::Answer, Refusal>
    ensures { PartyOnSeat (W.comes_to work.now) party.old party.new result }
{
    match party {
        Party::OfSeat(seat) => work.work(seat),
        Party::OfCollector(_) => Err(Refusal::NoParty),
    }
}

/// Does it with the seat behind the handle, where there is one.
pub fn on_seat<W: SeatWork>(
    alloc: Global,
    handle: &mut Handle,
    work: &W,
) -> Result<W::Answer, Refusal>
    ensures { OnSeat (W.comes_to work.now) handle.old.pointer.party handle.new.pointer.party result }
{
    let Some(mut party) = handle.take(alloc) else {
        return Err(Refusal::NoParty);
    };
    let answer = party_works(&mut *party, work);
    handle.put(party);
    answer
}
