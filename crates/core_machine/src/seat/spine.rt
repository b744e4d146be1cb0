ghost use Rattle.std.specs.Prelude.{◌≡◌, ◌+◌, ◌<◌, ◌≤◌, length};
ghost use Rattle.heap_model.specs.Heap.{IsHeap};
ghost use Rattle.heap_model.specs.Limits.{last_index, most_reserve};
ghost use Rattle.core_machine.specs.declared.step.Step.TheVariants.{Spine as OnSpine};
ghost use Rattle.core_machine.specs.seat.Access.{after_address, after_index};
ghost use Rattle.core_machine.specs.seat.AccessMoves.{index_move};
ghost use Rattle.core_machine.specs.seat.Commands.{field_of};
ghost use Rattle.core_machine.specs.seat.Fits.{HasArrayBody, SeatIsGranting};
ghost use Rattle.core_machine.specs.seat.Making.{after_budget, after_placing, after_listing};
ghost use Rattle.core_machine.specs.seat.Seat.{need, spine_need};
ghost use Rattle.core_machine.specs.Moves.{withdraw_move, refusal_step, listing_step, seat_after};
ghost use Rattle.core_machine.specs.table.Layout.{FitsSpot};
ghost use Rattle.core_machine.specs.machine.Value.{KeepsRoom};

use crate::log::Entries;
use crate::point::{Access, Making, Point};
use crate::seat::SeatParty;
use crate::seat::commands::Operands;
use crate::step::{SpineStep, Step};
use heap_model::{Command, Heap, Reply};
use heap_words::Spot;

/// The cells of a payload fragment.
const FRAGMENT_CELLS: u32 = 4;

impl<L: Entries> SeatParty<L> {
    /// The spine words that the call needs.
    pub(crate) fn spine_need(&self) -> u16
        requires { spine_need self.now.seat < 65536 }
        ensures { result ≡ spine_need self.now.seat }
    {
        self.command.spine_need() as u16
    }

    /// The spine words are taken back.
    pub(crate) fn take_back(&self) -> SpineStep
        requires { spine_need self.now.seat < 65536 }
        ensures { OnSpine result ≡ (withdraw_move 0 self.now.seat).step }
    {
        SpineStep::BudgetTakeBack {
            words: self.spine_need(),
        }
    }

    /// The step at which a refusal is told.
    pub(crate) fn refusal_step(&self) -> Step
        requires { spine_need self.now.seat < 65536 }
        ensures { result ≡ refusal_step self.now.seat.command (spine_need self.now.seat) }
    {
        match self.command {
            Command::Array { .. } => Step::Spine(self.take_back()),
            _ => Step::PollLoad,
        }
    }

    /// Learns how many spine words were granted or asked for.
    pub(crate) fn learn_budget(&mut self, heap: &Heap, found: u64)
        requires limits { IsHeap heap.now }
        requires grants { SeatIsGranting self.old.seat }
        requires cursor { self.old.seat.cursor < heap.now.groups }
        requires few { length self.old.seat.reserve ≤ most_reserve }
        ensures seat { self.new.seat ≡ after_budget heap.now self.old.seat found }
        ensures spare { self.new.spare ≡ self.old.spare }
        ensures forgotten { self.new.forgotten ≡ self.old.forgotten }
    {
        let most = u64::from(heap.spine);
        let need = u64::from(self.spine_need());
        if found > most || most - found < need {
            self.used = found;
            self.point = Point::Making(Making::Withdrawing);
            return;
        }
        self.go_on(heap);
    }

    /// Took the spine words back, which were too many.
    pub(crate) fn learn_withdrawal(&mut self, number: u8)
        requires { 0 < self.old.spare }
        ensures seat { self.new.seat ≡ seat_after (withdraw_move number self.old.seat) 0 }
        ensures spare { KeepsRoom self.old self.new }
        ensures forgotten { self.new.forgotten ≡ self.old.forgotten }
    {
        let need = self.command.spine_need();
        let used = self.used % (1 << 32);
        self.reply(
            number,
            Reply::SpineFull {
                need,
                used: used as u32,
            },
        );
    }

    /// Learns where the spine stands.
    pub(crate) fn learn_spine(&mut self, found: u64)
        ensures seat { self.new.seat ≡ after_placing self.old.seat found }
        ensures spare { self.new.spare ≡ self.old.spare }
        ensures forgotten { self.new.forgotten ≡ self.old.forgotten }
    {
        self.spine = Spot::told(found);
        self.point = Point::Making(Making::Listing);
    }

    /// The store of the spine's next word.
    pub(crate) fn list(&self) -> SpineStep
        requires body { HasArrayBody self.now.seat }
        requires within { self.now.seat.listed < spine_need self.now.seat }
        requires spot { FitsSpot self.now.seat.spine }
        ensures { OnSpine result ≡ listing_step self.now.seat }
    {
        SpineStep::SpineStore {
            half: self.spine.half,
            offset: self.spine.offset + u32::from(self.listed),
            fragment: self.body()[self.listed as usize + 1],
        }
    }

    /// Stored a word of the spine.
    pub(crate) fn learn_listing(&mut self)
        requires body { HasArrayBody self.old.seat }
        requires within { self.old.seat.listed < spine_need self.old.seat }
        ensures seat { self.new.seat ≡ after_listing self.old.seat }
        ensures spare { self.new.spare ≡ self.old.spare }
        ensures forgotten { self.new.forgotten ≡ self.old.forgotten }
    {
        self.listed += 1;
        let more = self.listed < self.spine_need();
        self.point = Point::Making(if more {
            Making::Listing
        } else {
            Making::Storing
        });
    }

    /// Learns where the spine stands of the array that the way is in.
    pub(crate) fn learn_address(&mut self, found: u64)
        ensures seat { self.new.seat ≡ after_address self.old.seat found }
        ensures spare { self.new.spare ≡ self.old.spare }
        ensures forgotten { self.new.forgotten ≡ self.old.forgotten }
    {
        self.address = Spot::told(found);
        self.point = Point::Access(Access::Indexing);
    }

    /// The load of the spine word that names the cell's fragment.
    pub(crate) fn index_load(&self) -> SpineStep
        requires field { field_of self.now.seat.command ≤ last_index }
        requires spot { FitsSpot self.now.seat.address }
        ensures { OnSpine result ≡ (index_move self.now.seat).step }
    {
        let index = Operands::of(&self.command).field / FRAGMENT_CELLS;
        SpineStep::WordLoad {
            half: self.address.half,
            offset: self.address.offset + index,
        }
    }
}
