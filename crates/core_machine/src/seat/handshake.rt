ghost use Rattle.std.specs.Prelude.{◌≡◌, ◌<◌, ◌≤◌, length, slice_index_or};
ghost use Rattle.heap_model.specs.Limits.{register_count, most_reserve};
ghost use Rattle.core_machine.specs.declared.step.Step.TheVariants.{Making as Makes};
ghost use Rattle.core_machine.specs.declared.point.Point.TheVariants.{Leaving as Leaves};
ghost use Rattle.core_machine.specs.seat.Registers.{heads_of};
ghost use Rattle.core_machine.specs.seat.Handshake.{roots, answer_next, after_root_shade, leave_point, polling_over};
ghost use Rattle.core_machine.specs.seat.HandshakeMoves.{phase_told, poll_move, answer_move, empty_move, leave_move};
ghost use Rattle.core_machine.specs.seat.Seat.{with_entries};
ghost use Rattle.core_machine.specs.Moves.{seat_after};
ghost use Rattle.core_machine.specs.machine.Value.{KeepsRoom};

use crate::log::Entries;
use crate::point::{Leaving, Point, Polling};
use crate::seat::SeatParty;
use crate::seat::register::Register;
use crate::step::MakingStep;
use crate::table::fragments::{Reserve, mask};
use heap_model::limits::REGISTER_COUNT;
use heap_model::phase_plan::{CYCLE_PHASES, MARKING};
use heap_model::{Command, Entry, Reply};

/// How many of the registers hold an object.
fn head_count(registers: &[Register]) -> usize
    ensures count { result ≡ length (heads_of registers.now) }
    ensures few { result ≤ length registers.now }
{
    registers
        .iter()
        .filter_map(|register| register.head())
        .count()
}

/// The first fragment of object `n` of those in the registers.
fn head_at(registers: &[Register], n: usize) -> u16
    requires { n < length (heads_of registers.now) }
    ensures { result ≡ slice_index_or (heads_of registers.now) n 0 }
{
    registers
        .iter()
        .filter_map(|register| register.head())
        .nth(n)
        .unwrap_or(0)
}

/// The reserve is given back before the seat leaves.
fn leaving(reserve: &[u16]) -> Leaving
    ensures { result ≡ leave_point reserve.now }
{
    if reserve.is_empty() {
        Leaving::Parting
    } else {
        Leaving::Emptying
    }
}

impl<L: Entries> SeatParty<L> {
    /// How many objects are shaded before the phase is answered.
    fn root_count(&self) -> usize
        ensures { result ≡ length (roots self.now.seat) }
    {
        if self.asked % CYCLE_PHASES == MARKING {
            head_count(&self.registers)
        } else {
            0
        }
    }

    /// The object that is shaded next.
    pub(crate) fn next_root(&self) -> u16
        requires { self.now.seat.shaded < length (roots self.now.seat) }
        ensures { result ≡ slice_index_or (roots self.now.seat) self.now.seat.shaded 0 }
    {
        head_at(&self.registers, self.shaded as usize)
    }

    /// The next root is shaded, or the answer is stored.
    fn shade_on(&mut self)
        ensures seat { self.new.seat ≡ answer_next self.old.seat }
        ensures spare { self.new.spare ≡ self.old.spare }
        ensures forgotten { self.new.forgotten ≡ self.old.forgotten }
    {
        let more = (self.shaded as usize) < self.root_count();
        self.point = Point::Polling(if more {
            Polling::Shading
        } else {
            Polling::Answering
        });
    }

    /// Ends the call that answers the phase: a poll tells it.
    fn tell_phase(&mut self, number: u8, phase: u64)
        requires { 0 < self.old.spare }
        ensures seat { self.new.seat ≡ with_entries (polling_over self.old.seat.command self.old.seat) (phase_told number self.old.seat.command phase) }
        ensures spare { KeepsRoom self.old self.new }
        ensures forgotten { self.new.forgotten ≡ self.old.forgotten }
    {
        if let Command::Collect = self.command {
            self.finish();
            return;
        }
        self.reply(number, Reply::Phase(phase));
    }

    /// Learns the phase.
    pub(crate) fn learn_phase(&mut self, number: u8, found: u64)
        requires { 0 < self.old.spare }
        ensures seat { self.new.seat ≡ seat_after (poll_move number self.old.seat) found }
        ensures spare { KeepsRoom self.old self.new }
        ensures forgotten { self.new.forgotten ≡ self.old.forgotten }
    {
        self.looks.see(found);
        if found != self.answered {
            self.asked = found;
            self.shade_on();
            return;
        }
        self.tell_phase(number, found);
    }

    /// Shaded an object of the registers.
    #[tactic(auto, using(crate::proofs::table_lemmas::WithinHeap::roots_within_register_count))]
    pub(crate) fn learn_root(&mut self)
        requires registers { length self.old.seat.registers ≡ register_count }
        requires more { self.old.seat.shaded < length (roots self.old.seat) }
        ensures seat { self.new.seat ≡ after_root_shade self.old.seat }
        ensures spare { self.new.spare ≡ self.old.spare }
        ensures forgotten { self.new.forgotten ≡ self.old.forgotten }
    {
        self.shaded += 1;
        self.shade_on();
    }

    /// Stored the answer.
    pub(crate) fn learn_answer(&mut self, number: u8)
        requires { 1 < self.old.spare }
        ensures seat { self.new.seat ≡ seat_after (answer_move number self.old.seat) 0 }
        ensures spare { KeepsRoom self.old self.new }
        ensures forgotten { self.new.forgotten ≡ self.old.forgotten }
    {
        let phase = self.asked;
        self.answered = phase;
        self.note(Entry::Answers {
            seat: number,
            phase,
        });
        self.tell_phase(number, phase);
    }

    /// Begins to leave.
    pub(crate) fn go(&mut self)
        ensures seat { self.new.seat ≡ record self.old.seat { point = Leaves (leave_point self.old.seat.reserve) } }
        ensures spare { self.new.spare ≡ self.old.spare }
        ensures forgotten { self.new.forgotten ≡ self.old.forgotten }
    {
        self.point = Point::Leaving(leaving(self.reserve.as_slice()));
    }

    /// The give back of the reserve.
    pub(crate) fn last_give_back(&self) -> MakingStep
        ensures { Makes result ≡ (empty_move 0 self.now.seat).step }
    {
        MakingStep::GiveBack {
            group: self.cursor,
            bits: mask(self.reserve.as_slice()),
        }
    }

    /// Gave the reserve back.
    pub(crate) fn learn_empty(&mut self, number: u8)
        requires few { length self.old.seat.reserve ≤ most_reserve }
        requires spare { 0 < self.old.spare }
        ensures seat { self.new.seat ≡ seat_after (empty_move number self.old.seat) 0 }
        ensures spare { KeepsRoom self.old self.new }
        ensures forgotten { self.new.forgotten ≡ self.old.forgotten }
    {
        let count = self.reserve.len() as u32;
        self.reserve = Reserve::new();
        self.point = Point::Leaving(Leaving::Parting);
        self.note(Entry::GivesBack {
            seat: number,
            count,
        });
    }

    /// Left.
    pub(crate) fn learn_leave(&mut self, number: u8)
        requires { 0 < self.old.spare }
        ensures seat { self.new.seat ≡ seat_after (leave_move number self.old.seat) 0 }
        ensures spare { KeepsRoom self.old self.new }
        ensures forgotten { self.new.forgotten ≡ self.old.forgotten }
    {
        self.registers = [Register::Nil; REGISTER_COUNT];
        self.seen = [0; REGISTER_COUNT];
        self.left = true;
        self.reply(number, Reply::Done);
    }
}
