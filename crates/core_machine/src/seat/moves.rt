ghost use Rattle.std.specs.Prelude.{◌≡◌, ◌<◌, ◌≤◌, length, IfSome};
ghost use Rattle.heap_model.specs.Heap.{IsHeap};
ghost use Rattle.heap_model.specs.Limits.{register_count, most_reserve};
ghost use Rattle.core_machine.specs.seat.Fits.{Fits, FitsMaking, FitsPolling};
ghost use Rattle.core_machine.specs.seat.FitsAccess.{FitsAccess};
ghost use Rattle.core_machine.specs.table.Decode.{FoundPointsWithin};
ghost use Rattle.core_machine.specs.Moves.{next_move, seat_after_due, seat_after, making_move, access_move, polling_move, leaving_move};
ghost use Rattle.core_machine.specs.table.Operation.{address_of};
ghost use Rattle.core_machine.specs.machine.Value.{KeepsRoom};

use crate::log::Entries;
use crate::point::{Access, Leaving, Making, Point, Polling};
use crate::seat::SeatParty;
use heap_model::Heap;

impl<L: Entries> SeatParty<L> {
    /// Learns what a step of making found.
    #[inline(always)]
    fn learn_making(&mut self, heap: &Heap, number: u8, point: Making, found: u64)
        requires limits { IsHeap heap.now }
        requires number { number < heap.now.seats }
        requires fits { Fits heap.now self.old.seat }
        requires at_point { FitsMaking heap.now self.old.seat point }
        requires spare { 0 < self.old.spare }
        ensures seat { self.new.seat ≡ seat_after (making_move heap.now number self.old.seat point) found }
        ensures spare { KeepsRoom self.old self.new }
        ensures forgotten { self.new.forgotten ≡ self.old.forgotten }
    {
        match point {
            Making::Granting => self.learn_budget(heap, found),
            Making::Withdrawing => self.learn_withdrawal(number),
            Making::Gathering => self.learn_claim(heap, number, found),
            Making::GivingBack => self.learn_give_back(heap, number),
            Making::Refusing => self.learn_refusal(number, found),
            Making::Placing => self.learn_spine(found),
            Making::Listing => self.learn_listing(),
            Making::Storing => self.learn_store(),
            Making::Bearing => self.learn_birth(number),
        }
    }

    /// Learns what a step of access found.
    #[inline(always)]
    fn learn_access(&mut self, heap: &Heap, number: u8, point: Access, found: u64)
        requires limits { IsHeap heap.now }
        requires number { number < heap.now.seats }
        requires fits { Fits heap.now self.old.seat }
        requires at_point { FitsAccess self.old.seat point }
        requires found { FoundPointsWithin heap.now (address_of (access_move heap.now number self.old.seat point).step) found }
        requires spare { 0 < self.old.spare }
        ensures seat { self.new.seat ≡ seat_after (access_move heap.now number self.old.seat point) found }
        ensures spare { KeepsRoom self.old self.new }
        ensures forgotten { self.new.forgotten ≡ self.old.forgotten }
    {
        match point {
            Access::LoadingMeta => self.learn_meta(number, found),
            Access::Walking => self.learn_link(found),
            Access::LoadingSpot => self.learn_address(found),
            Access::Indexing => self.learn_index(found),
            Access::Getting => self.learn_get(number, found),
            Access::Naming => self.learn_name(number, found),
            Access::LoadingOld => self.learn_old(found),
            Access::ShadingOld => self.finish_old(),
            Access::ShadingNew => self.point = Point::Access(Access::Swapping),
            Access::Swapping => self.learn_swap(number, found),
            Access::ShadingSide(side) => self.learn_side(side),
            Access::Replacing => self.learn_replace(number, found),
        }
    }

    /// Learns what a step of answering found.
    fn learn_polling(&mut self, number: u8, point: Polling, found: u64)
        requires registers { length self.old.seat.registers ≡ register_count }
        requires at_point { FitsPolling self.old.seat point }
        requires spare { 1 < self.old.spare }
        ensures seat { self.new.seat ≡ seat_after (polling_move number self.old.seat point) found }
        ensures spare { KeepsRoom self.old self.new }
        ensures forgotten { self.new.forgotten ≡ self.old.forgotten }
    {
        match point {
            Polling::Asking => self.learn_phase(number, found),
            Polling::Shading => self.learn_root(),
            Polling::Answering => self.learn_answer(number),
        }
    }

    /// Learns that a step of leaving was made.
    fn learn_leaving(&mut self, number: u8, point: Leaving)
        requires few { length self.old.seat.reserve ≤ most_reserve }
        requires spare { 0 < self.old.spare }
        ensures seat { self.new.seat ≡ seat_after (leaving_move number self.old.seat point) 0 }
        ensures spare { KeepsRoom self.old self.new }
        ensures forgotten { self.new.forgotten ≡ self.old.forgotten }
    {
        match point {
            Leaving::Emptying => self.learn_empty(number),
            Leaving::Parting => self.learn_leave(number),
        }
    }

    /// Learns the word that its due step found.
    #[inline(always)]
    pub fn learn(&mut self, heap: &Heap, number: u8, found: u64)
        requires limits { IsHeap heap.now }
        requires number { number < heap.now.seats }
        requires fits { Fits heap.now self.old.seat }
        requires found { IfSome (next_move heap.now number self.old.seat) (λ move. FoundPointsWithin heap.now (address_of move.step) found) }
        requires spare { 1 < self.old.spare }
        ensures seat { self.new.seat ≡ seat_after_due self.old.seat (next_move heap.now number self.old.seat) found }
        ensures spare { KeepsRoom self.old self.new }
        ensures forgotten { self.new.forgotten ≡ self.old.forgotten }
    {
        match self.point {
            Point::Idle => (),
            Point::Making(point) => self.learn_making(heap, number, point, found),
            Point::Local => self.learn_local(number, found),
            Point::Access(point) => self.learn_access(heap, number, point, found),
            Point::Polling(point) => self.learn_polling(number, point, found),
            Point::Collecting(point) => self.learn_collecting(number, point, found),
            Point::Leaving(point) => self.learn_leaving(number, point),
        }
    }
}
