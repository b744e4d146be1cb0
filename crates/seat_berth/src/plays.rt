use crate::rule::Slot;
use crate::view::View;
use atomic_table::Play;
use std::marker::{Brand, PhantomData};

/// The first party becomes the owner.
pub struct Opens;

impl Play<Slot, View> for Opens {
    ghost use Rattle.seat_berth.specs.Plays.{HasOpened};

    ghost then = { λ _ _ _ after. HasOpened after };
}

/// A helper comes.
pub struct Comes;

impl Play<Slot, View> for Comes {
    ghost use Rattle.seat_berth.specs.Plays.{HasCome};

    ghost then = { λ _ _ _ after. HasCome after };
}

/// The owner hands its seat in.
pub struct Parks;

impl Play<Slot, View> for Parks {
    ghost use Rattle.seat_berth.specs.Plays.{HasParked};

    ghost then = { λ _ before _ after. HasParked before after };
}

/// The owner asks for its seat.
pub struct Resumes;

impl Play<Slot, View> for Resumes {
    ghost use Rattle.seat_berth.specs.Plays.{Resumed};

    ghost then = { λ _ before found after. Resumed before found after };
}

/// The seat for which a berth was made. Each step picks it.
pub trait HomeName {
    ghost use Rattle.heap_table.specs.SeatHeld.{SeatHeld};

    ghost home: { SeatHeld };
}

/// A helper asks for the seat.
pub struct Takes<H: HomeName> {
    of: PhantomData<H>,
}

impl<H: HomeName> Play<Slot, View> for Takes<H> {
    ghost use Rattle.seat_berth.specs.Plays.{Took};

    ghost then = { λ _ before found after. Took H.home before found after };
}

/// A helper gives the seat back.
pub struct Gives;

impl Play<Slot, View> for Gives {
    ghost use Rattle.seat_berth.specs.Plays.{HasGiven};

    ghost then = { λ _ before _ after. HasGiven before after };
}

impl HomeName for Brand {
    ghost use Rattle.std.specs.Prelude.{[]};
    ghost use Rattle.core_machine.specs.seat.Seat.{absent_seat};

    ghost home = { record { table = record { words = 0; slots = 0; views_name = 0; atom = 0; block = 0; offset = 0; slot_names = [] }; heap = record { groups = 1; spine = 0; seats = 1; board = 1 }; number = 0; seat = absent_seat; spare = 0 } };
}
