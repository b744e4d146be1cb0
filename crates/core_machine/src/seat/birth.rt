ghost use Rattle.std.specs.Prelude.{◌≡◌, ℕ, ◌*◌, ◌/◌, ◌%◌, ◌<◌, ◌^◌, length};
ghost use Rattle.heap_model.specs.Limits.{register_count, most_seats};
ghost use Rattle.core_machine.specs.declared.step.Step.TheVariants.{Making as Makes};
ghost use Rattle.core_machine.specs.seat.Commands.{fields_of, cells_of, target_of};
ghost use Rattle.core_machine.specs.seat.Fits.{HasBody};
ghost use Rattle.core_machine.specs.seat.Making.{after_store, newborn_word_of};
ghost use Rattle.core_machine.specs.Moves.{due_store, bearing_move, last_birth_move, bears_black_of, seat_after};
ghost use Rattle.core_machine.specs.table.Layout.{FitsSpot};
ghost use Rattle.core_machine.specs.machine.Value.{KeepsRoom};

use crate::log::Entries;
use crate::point::{Making, Point};
use crate::seat::SeatParty;
use crate::seat::commands::Operands;
use crate::seat::register::Register;
use crate::step::MakingStep;
use crate::table::fragments::{all_in, last_group, last_run, mask};
use heap_model::phase_plan::{BLACK_BIRTHS, CLEARING, CYCLE_PHASES};
use heap_model::{Command, Entry, Id, Reply};
use heap_words::{Name, Newborn, NewbornArray};

impl<L: Entries> SeatParty<L> {
    /// Word `part` of fragment `k` of the object that is made.
    fn newborn_word(&self, number: u8, k: usize, part: u8) -> u64
        requires fields { fields_of self.now.seat.command < 2 ^ 13 }
        requires cells { cells_of self.now.seat.command < 2 ^ 13 }
        requires half { self.now.seat.spine.half < 2 }
        requires within { k < length self.now.seat.body }
        requires number { number < most_seats }
        ensures { result ≡ newborn_word_of number self.now.seat k part }
    {
        let name = Name {
            owner: number + 1,
            count: self.made,
        };
        let Command::Array { cells, .. } = self.command else {
            let fields = Operands::of(&self.command).fields;
            let fragments = self.body();
            let record = Newborn {
                name,
                fields,
                fragments,
            };
            return record.word(k, part);
        };
        let array = NewbornArray {
            name,
            cells,
            spine: self.spine,
        };
        array.word(k, part)
    }

    /// The store that is due.
    pub(crate) fn store(&self, number: u8) -> MakingStep
        requires number { number < most_seats }
        requires body { HasBody self.now.seat }
        requires spine { FitsSpot self.now.seat.spine }
        requires within { self.now.seat.stored < 4 * length self.now.seat.body }
        ensures { result ≡ due_store number self.now.seat }
    {
        let k = (self.stored / 4) as usize;
        let part = (self.stored % 4) as u8;
        MakingStep::NewbornStore {
            fragment: self.body()[k],
            part,
            word: self.newborn_word(number, k, part),
        }
    }

    /// Stored a word.
    pub(crate) fn learn_store(&mut self)
        requires body { HasBody self.old.seat }
        requires within { self.old.seat.stored < 4 * length self.old.seat.body }
        ensures seat { self.new.seat ≡ after_store self.old.seat }
        ensures spare { self.new.spare ≡ self.old.spare }
        ensures forgotten { self.new.forgotten ≡ self.old.forgotten }
    {
        self.stored += 1;
        let done = self.stored as usize == 4 * self.body().len();
        self.point = Point::Making(if done {
            Making::Bearing
        } else {
            Making::Storing
        });
    }

    /// Whether its births are black.
    pub fn bears_black(&self) -> bool
        ensures { result ≡ bears_black_of self.now.seat }
    {
        let k = self.answered % CYCLE_PHASES;
        BLACK_BIRTHS <= k && k < CLEARING
    }

    /// The birth that is due.
    pub(crate) fn birth(&self) -> MakingStep
        requires { 0 < length self.now.seat.hand }
        ensures { Makes result ≡ (bearing_move 0 self.now.seat).step }
    {
        let hand = self.hand();
        let group = last_group(hand);
        let (_, born) = hand.split_at(hand.len() - last_run(hand));
        let bits = mask(born);
        let black = self.bears_black();
        if all_in(hand, group) {
            MakingStep::LastBirth { group, bits, black }
        } else {
            MakingStep::Birth { group, bits, black }
        }
    }

    /// Bore the fragments of the hand's last group.
    pub(crate) fn learn_birth(&mut self, number: u8)
        requires body { HasBody self.old.seat }
        requires some { 0 < length self.old.seat.hand }
        requires registers { target_of self.old.seat.command < register_count }
        requires spare { 0 < self.old.spare }
        ensures seat { self.new.seat ≡ seat_after (bearing_move number self.old.seat) 0 }
        ensures spare { KeepsRoom self.old self.new }
        ensures forgotten { self.new.forgotten ≡ self.old.forgotten }
    {
        let group = last_group(self.hand());
        if all_in(self.hand(), group) {
            self.make(number);
        } else {
            let left = self.hand().len() - last_run(self.hand());
            self.hands.bear(left);
        }
    }

    /// The object is whole: the register holds it.
    fn make(&mut self, number: u8)
        requires body { HasBody self.old.seat }
        requires some { 0 < length self.old.seat.body }
        requires registers { target_of self.old.seat.command < register_count }
        requires spare { 0 < self.old.spare }
        ensures seat { self.new.seat ≡ seat_after (last_birth_move number self.old.seat) 0 }
        ensures spare { KeepsRoom self.old self.new }
        ensures forgotten { self.new.forgotten ≡ self.old.forgotten }
    {
        let id = Id::Made {
            seat: number,
            count: self.made,
        };
        let head = self.body()[0];
        let target = Operands::of(&self.command).target;
        self.hold(target, Register::Object { head, id }, 0);
        self.made += 1;
        self.reply(number, Reply::Made(id));
    }
}
