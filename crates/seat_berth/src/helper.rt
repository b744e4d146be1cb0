ghost use Rattle.std.specs.Prelude.{◌≡◌, MatchOption};
ghost use Rattle.std.specs.Arc.{arc_value};
ghost use Rattle.seat_berth.specs.Helped.{AnswersBy, Stays, Helps, helped_of};
ghost use Rattle.seat_berth.specs.Known.{opening_helper};
ghost use Rattle.seat_berth.specs.OnlyAnswered.{OnlyAnswered};

use crate::rule::{HeapSeat, SharedPlace, Token};
use crate::steps::{come, give_back, take};
use heap_model::SeatCalls;
use std::marker::{Brand, Model};

/// What help has come to: a phase was answered for the seat, none rested, or the seat can't answer since it has left or has no room for more entries.
#[derive(Clone, Copy, Debug, PartialEq, Eq)]
pub enum Helped {
    Answered(u64),
    Absent,
    Unable,
}

/// One who answers phases for the seat that rests in a berth.
#[derive(Drop)]
pub struct Helper {
    place: SharedPlace,
    token: Token,
}

impl Model for Helper {
    ghost use Rattle.std.specs.Arc.{arc_value};
    ghost use Rattle.seat_berth.specs.Parties.{HelperSeen, KeepsHelper};
    ghost use Rattle.seat_berth.specs.Views.{helper_by};

    ghost Value = { HelperSeen };

    ghost view = { λ helper. record {
      berth = helper.token.table_id;
      home = (arc_value helper.place).shared.key;
      known = helper_by helper.token.me.0;
    } };

    ghost invariant = { λ helper. KeepsHelper (arc_value helper.place).shared.table_id helper.token.table_id helper.token.me };
}

impl Helper {
    /// One who helps at this berth.
    pub(crate) fn of(place: SharedPlace) -> Helper
        requires words { (arc_value place).shared.table_id.words ≡ 1 }
        requires slots { (arc_value place).shared.table_id.slots ≡ 1 }
        ensures of { (result.berth ≡ (arc_value place).shared.table_id) × (result.home ≡ (arc_value place).shared.key) }
        ensures known { result.known ≡ opening_helper }
    {
        let token = come(&place.shared);
        Helper { place, token }
    }

    /// Takes the seat, where it rests, answers the phase for it by the inner call of a collect that does that, and gives it back. No command is told.
    pub fn help(&mut self) -> Helped
        ensures same { (self.new.berth ≡ self.old.berth) × (self.new.home ≡ self.old.home) }
        ensures helps { Helps self.old self.new result }
    {
        let Some(mut seat) = take::<Brand>(&self.place.shared, &mut self.token) else {
            return Helped::Absent;
        };
        let answered = answer_for(&mut *seat);
        give_back(&self.place.shared, &mut self.token, seat);
        told(answered)
    }
}

/// Answers the phase for the seat, where that may answer.
fn answer_for(seat: &mut HeapSeat) -> Option<u64>
    ensures answers { MatchOption result (Stays seat.old seat.new) (λ phase. AnswersBy phase seat.old seat.new) }
    ensures only { OnlyAnswered seat.old seat.new }
{
    if seat.left() || seat.spare() < 4 {
        return None;
    }
    Some(seat.answer())
}

/// What help has come to, once the seat was taken.
fn told(answered: Option<u64>) -> Helped
    ensures { result ≡ helped_of answered }
{
    match answered {
        Some(phase) => Helped::Answered(phase),
        None => Helped::Unable,
    }
}
