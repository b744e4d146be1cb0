ghost use Rattle.std.specs.Prelude.{◌≡◌, ◌<◌};
ghost use Rattle.core_machine.specs.seat.Collecting.{look_move, asking_move, comparing_move, note_move, collecting_move, inner_point};
ghost use Rattle.core_machine.specs.seat.Looks.{noted_reply};
ghost use Rattle.core_machine.specs.Moves.{seat_after};
ghost use Rattle.core_machine.specs.machine.Value.{KeepsRoom};

use crate::log::Entries;
use crate::point::{Collecting, Point, Polling};
use crate::seat::SeatParty;
use heap_model::{CollectReply, Inner, Reply};

/// Where an inner call begins.
pub fn first_point(inner: Inner) -> Point
    ensures { result ≡ inner_point inner }
{
    match inner {
        Inner::Look => Point::Collecting(Collecting::Looking),
        Inner::Answer => Point::Polling(Polling::Asking),
        Inner::Behind { seat } => Point::Collecting(Collecting::Asking { other: seat }),
        Inner::Note(reply) => Point::Collecting(Collecting::Noting(reply)),
    }
}

/// The reply that a collect notes.
pub fn noted(reply: CollectReply) -> Reply
    ensures { result ≡ noted_reply reply }
{
    match reply.ended() {
        Ok(cycle) => Reply::Cycle(cycle),
        Err(behind) => Reply::from(behind),
    }
}

impl<L: Entries> SeatParty<L> {
    /// Looked at the phase.
    fn learn_look(&mut self, found: u64)
        ensures seat { self.new.seat ≡ seat_after (look_move self.old.seat) found }
        ensures spare { self.new.spare ≡ self.old.spare }
        ensures forgotten { self.new.forgotten ≡ self.old.forgotten }
    {
        self.looks.look(found);
        self.finish();
    }

    /// Learns the phase with which the answer of another seat is to be compared.
    fn learn_asking(&mut self, other: u8, found: u64)
        ensures seat { self.new.seat ≡ seat_after (asking_move self.old.seat other) found }
        ensures spare { self.new.spare ≡ self.old.spare }
        ensures forgotten { self.new.forgotten ≡ self.old.forgotten }
    {
        self.looks.see(found);
        self.point = Point::Collecting(Collecting::Comparing {
            other,
            phase: found,
        });
    }

    /// Learns the other seat's word.
    fn learn_comparing(&mut self, other: u8, phase: u64, found: u64)
        ensures seat { self.new.seat ≡ seat_after (comparing_move self.old.seat other phase) found }
        ensures spare { self.new.spare ≡ self.old.spare }
        ensures forgotten { self.new.forgotten ≡ self.old.forgotten }
    {
        self.looks.compare(other, phase, found);
        self.finish();
    }

    /// Tells the reply, at a load of the phase.
    fn learn_note(&mut self, number: u8, reply: CollectReply, found: u64)
        requires { 0 < self.old.spare }
        ensures seat { self.new.seat ≡ seat_after (note_move number self.old.seat reply) found }
        ensures spare { KeepsRoom self.old self.new }
        ensures forgotten { self.new.forgotten ≡ self.old.forgotten }
    {
        self.looks.see(found);
        self.reply(number, noted(reply));
    }

    /// Learns what a step of an inner call of a collect found.
    pub(crate) fn learn_collecting(&mut self, number: u8, point: Collecting, found: u64)
        requires { 0 < self.old.spare }
        ensures seat { self.new.seat ≡ seat_after (collecting_move number self.old.seat point) found }
        ensures spare { KeepsRoom self.old self.new }
        ensures forgotten { self.new.forgotten ≡ self.old.forgotten }
    {
        match point {
            Collecting::Looking => self.learn_look(found),
            Collecting::Asking { other } => self.learn_asking(other, found),
            Collecting::Comparing { other, phase } => self.learn_comparing(other, phase, found),
            Collecting::Noting(reply) => self.learn_note(number, reply, found),
        }
    }
}
