ghost use Rattle.std.specs.Prelude.{◌≡◌, ◌<◌, ◌↔◌, true, replicate, None, is_some, IsTrue, IfOk};
ghost use Rattle.std.specs.List.{list_all};
ghost use Rattle.heap_table.specs.Folded.{AllFolded};
ghost use Rattle.heap_table.specs.Handing.{with_handed, with_folded};
ghost use Rattle.heap_table.specs.Opened.{EachOpens, IsOpened};

use crate::collector::CollectorHolder;
use crate::holder::Holder;
use crate::plays::FoldsIn;
use crate::touch::hand_out;
use core_machine::{CountsEntries, Entries, SeatParty};
use heap_model::Memory;
use std::alloc::Global;
use std::marker::Brand;

/// A slot for each seat, with none in it yet.
pub fn empty_slots<L: Entries>(
    alloc: Global,
    seats: u8,
) -> Result<Vec<Option<SeatParty<L>>>, Memory>
    ensures { IfOk result (λ seat_slots. seat_slots.items ≡ replicate seats None) }
{
    let mut seat_slots = Vec::new(alloc);
    for _ in 0..seats {
        seat_slots.push(None)?;
    }
    Ok(seat_slots)
}

/// Whether there is a seat in each of these slots.
fn all_full<L: Entries>(seat_slots: &[Option<SeatParty<L>>]) -> bool
    ensures { result ≡ list_all is_some seat_slots.now }
{
    seat_slots.iter().all(|slot| slot.is_some())
}

impl<L: Entries, C: CountsEntries> CollectorHolder<L, C> {
    /// Hands out the next seat.
    pub(crate) fn next_seat(&mut self, alloc: Global, number: u8) -> Result<Holder<L>, Memory>
        requires opens { EachOpens self.old.heap }
        requires next { (number ≡ self.old.known.handed) × (number < self.old.heap.seats) }
        ensures handed { IfOk result (λ holder. self.new ≡ record self.old { known = with_handed self.old.known }) }
        ensures seat { IfOk result (IsOpened self.old.table self.old.heap) }
        ensures number { IfOk result (λ holder. holder.number ≡ number) }
    {
        let table = self.table.clone()?;
        let token = hand_out::<Brand>(&self.table.shared, &mut self.token, &self.heap);
        let party = SeatParty::opening(alloc, &self.heap, number);
        Ok(Holder {
            table,
            token,
            heap: self.heap,
            number,
            party,
        })
    }

    /// The phase in which the last seat was folded in; 0 where none was.
    pub fn folded(&self) -> u64
        ensures { result ≡ self.now.known.folded }
    {
        self.folded
    }

    /// Whether every seat was folded in.
    pub fn all_folded(&self) -> bool
        ensures { IsTrue result ↔ AllFolded self.now.heap self.now.known.seats }
    {
        all_full(self.seat_slots.as_slice())
    }

    /// Takes in a seat that has left: its data with its log move into its slot.
    pub fn fold_in(&mut self, from: Holder<L>)
        requires table { (from.table ≡ self.old.table) × (from.heap ≡ self.old.heap) }
        requires left { from.seat.left ≡ true }
        ensures { self.new ≡ record self.old { known = with_folded self.old.known from.number from.seat } }
    {
        let position = from.number() as usize;
        let (token, party) = from.into_token_and_party();
        self.table
            .shared
            .join_seat::<FoldsIn>(&mut self.token, token);
        self.folded = self.party.phase();
        self.seat_slots[position] = Some(party);
    }
}
