ghost use Rattle.std.specs.Prelude.{◌≡◌, ℕ, ◌+◌, ◌<◌, ◌≤◌, [], length};
ghost use Rattle.heap_model.specs.Heap.{IsHeap};
ghost use Rattle.heap_model.specs.Limits.{most_reserve};
ghost use Rattle.core_machine.specs.declared.step.Step.TheVariants.{Making as Makes};
ghost use Rattle.core_machine.specs.seat.Fits.{SeatIsGathering, SeatIsRefusing};
ghost use Rattle.core_machine.specs.seat.Seat.{need};
ghost use Rattle.core_machine.specs.seat.Making.{next_group_of, last_claimed, gather_next, after_gather, refusal_point, settled_point};
ghost use Rattle.core_machine.specs.Moves.{claim_move, give_back_move, refusal_looks, refusal_move, seat_after, inside_first_group};
ghost use Rattle.core_machine.specs.machine.Value.{KeepsRoom};

use crate::log::Entries;
use crate::point::{Making, Point};
use crate::seat::SeatParty;
use crate::step::MakingStep;
use crate::table::fragments::{count_in, first_group, mask_in};
use heap_model::{Command, Entry, Heap, Reply};

/// Where a refusal stands while these fragments are to be given back.
fn returning(hand: &[u16]) -> Making
    ensures { result ≡ refusal_point hand.now }
{
    if hand.is_empty() {
        Making::Refusing
    } else {
        Making::GivingBack
    }
}

/// What comes once an object has its fragments.
fn settled(command: &Command) -> Making
    ensures { result ≡ settled_point command.now }
{
    match command {
        Command::Array { .. } => Making::Placing,
        _ => Making::Storing,
    }
}

impl<L: Entries> SeatParty<L> {
    /// The group that is claimed next.
    pub(crate) fn next_group(&self, heap: &Heap) -> u16
        requires groups { 0 < heap.now.groups }
        requires small { self.now.seat.cursor + self.now.seat.tried < 65536 }
        ensures { result ≡ next_group_of heap.now self.now.seat }
    {
        (self.cursor + self.tried) % heap.groups
    }

    /// The first fragments are the new object's, and the rest is the reserve, of the group that was claimed last.
    fn settle(&mut self, heap: &Heap)
        requires groups { 0 < heap.now.groups }
        requires body { self.old.seat.body ≡ [] }
        requires small { self.old.seat.cursor + self.old.seat.tried < 65536 }
        requires enough { need self.old.seat ≤ length self.old.seat.reserve + length self.old.seat.hand }
        requires few { length self.old.seat.reserve + length self.old.seat.hand ≤ need self.old.seat + most_reserve }
        requires object { need self.old.seat ≤ 1025 }
        ensures seat { self.new.seat ≡ after_gather heap.now self.old.seat }
        ensures spare { self.new.spare ≡ self.old.spare }
        ensures forgotten { self.new.forgotten ≡ self.old.forgotten }
    {
        let need = self.command.need() as usize;
        self.hands.settle(&mut self.reserve, need);
        if self.tried > 0 {
            self.cursor = (self.cursor + self.tried - 1) % heap.groups;
        }
        self.tried = 0;
        self.point = Point::Making(settled(&self.command));
    }

    /// Enough is gathered, or the next group is claimed, or, after all groups, the call is refused.
    pub(crate) fn go_on(&mut self, heap: &Heap)
        requires groups { 0 < heap.now.groups }
        requires body { self.old.seat.body ≡ [] }
        requires small { self.old.seat.cursor + self.old.seat.tried < 65536 }
        requires few { length self.old.seat.reserve + length self.old.seat.hand ≤ need self.old.seat + most_reserve }
        requires object { need self.old.seat ≤ 1025 }
        ensures seat { self.new.seat ≡ gather_next heap.now self.old.seat }
        ensures spare { self.new.spare ≡ self.old.spare }
        ensures forgotten { self.new.forgotten ≡ self.old.forgotten }
    {
        if self.reserve.len() + self.hand().len() >= self.command.need() as usize {
            self.settle(heap);
        } else if self.tried < heap.groups {
            self.point = Point::Making(Making::Gathering);
        } else {
            self.point = Point::Making(returning(self.hand()));
        }
    }

    /// Learns the control word of the group that was claimed.
    pub(crate) fn learn_claim(&mut self, heap: &Heap, number: u8, found: u64)
        requires limits { IsHeap heap.now }
        requires cursor { self.old.seat.cursor < heap.now.groups }
        requires gathers { SeatIsGathering heap.now self.old.seat }
        requires spare { 0 < self.old.spare }
        ensures seat { self.new.seat ≡ seat_after (claim_move heap.now number self.old.seat) found }
        ensures spare { KeepsRoom self.old self.new }
        ensures forgotten { self.new.forgotten ≡ self.old.forgotten }
    {
        let group = self.next_group(heap);
        let count = self.hands.claim(group, found);
        self.tried += 1;
        self.go_on(heap);
        if count > 0 {
            self.note(Entry::Takes {
                seat: number,
                count: count as u32,
            });
        }
    }

    /// The give back that is due.
    pub(crate) fn give_back(&self) -> MakingStep
        requires { 0 < length self.now.seat.hand }
        ensures { Makes result ≡ (give_back_move 0 self.now.seat).step }
    {
        let group = first_group(self.hand());
        MakingStep::GiveBack {
            group,
            bits: mask_in(self.hand(), group),
        }
    }

    /// Gave back the fragments of the hand's first group.
    pub(crate) fn learn_give_back(&mut self, heap: &Heap, number: u8)
        requires refuses { SeatIsRefusing heap.now self.old.seat }
        requires some { 0 < length self.old.seat.hand }
        requires spare { 0 < self.old.spare }
        ensures seat { self.new.seat ≡ seat_after (give_back_move number self.old.seat) 0 }
        ensures spare { KeepsRoom self.old self.new }
        ensures forgotten { self.new.forgotten ≡ self.old.forgotten }
    {
        let group = first_group(self.hand());
        let count = count_in(self.hand(), group);
        self.hands.leave_out(group);
        self.given += count as u16;
        self.point = Point::Making(returning(self.hand()));
        self.note(Entry::GivesBack {
            seat: number,
            count: count as u32,
        });
    }

    /// Learns what the step found at which the refusal is told: the phase, but for an array.
    fn see_at_refusal(&mut self, found: u64)
        ensures seat { self.new.seat ≡ record self.old.seat { looks = refusal_looks self.old.seat.command found self.old.seat.looks } }
        ensures spare { self.new.spare ≡ self.old.spare }
        ensures forgotten { self.new.forgotten ≡ self.old.forgotten }
    {
        match self.command {
            Command::Array { .. } => (),
            _ => self.looks.see(found),
        }
    }

    /// Tells the refusal.
    pub(crate) fn learn_refusal(&mut self, number: u8, found: u64)
        requires { 0 < self.old.spare }
        ensures seat { self.new.seat ≡ seat_after (refusal_move number self.old.seat) found }
        ensures spare { KeepsRoom self.old self.new }
        ensures forgotten { self.new.forgotten ≡ self.old.forgotten }
    {
        self.see_at_refusal(found);
        let given: u16 = self.given;
        let reply = Reply::Full {
            need: self.command.need(),
            found: self.reserve.len() as u32 + u32::from(given),
        };
        self.reply(number, reply);
    }
}
