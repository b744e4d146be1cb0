ghost use Rattle.std.specs.Prelude.{◌≡◌};
ghost use Rattle.heap_runs.specs.SeatWork.{IsOfTable};

use heap_model::{
    Full, Id, Memory, NoObject, PlaceRefusal, SeatCalls, SpaceRefusal, Swapped, Value,
};
use heap_runs::HeldName;
use mutator_seat::Seat;
use std::marker::{Model, PhantomData};

/// A seat of the table that the name tells. What works on any seat hands one of the same table back.
#[derive(Drop)]
pub(crate) struct TableSeat<N: HeldName> {
    seat: Seat,
    name: PhantomData<N>,
}

impl<N: HeldName> Model for TableSeat<N> {
    ghost use Rattle.heap_table.specs.SeatHeld.{SeatHeld};
    ghost use Rattle.heap_runs.specs.SeatWork.{IsOfTable};

    ghost Value = { SeatHeld };

    ghost view = { λ one. one.seat };

    ghost invariant = { λ one. IsOfTable N.table N.heap one.seat };
}

impl<N: HeldName> TableSeat<N> {
    /// The seat, which is of that table.
    pub(crate) fn new(seat: Seat) -> TableSeat<N>
        requires { IsOfTable N.table N.heap seat }
        ensures { result ≡ seat }
    {
        TableSeat {
            seat,
            name: PhantomData,
        }
    }

    /// The seat's number.
    pub(crate) fn number(&self) -> u8
        ensures { result ≡ self.now.number }
    {
        self.seat.number()
    }

    /// The seat alone.
    pub(crate) fn into_seat(self) -> Seat
        ensures seat { result ≡ self }
        ensures of_table { IsOfTable N.table N.heap result }
    {
        let TableSeat { seat, .. } = self;
        seat
    }
}

impl<N: HeldName> SeatCalls for TableSeat<N> {
    ghost use Rattle.mutator_seat.specs.Resting.{seat_state};

    ghost state = { seat_state };

    fn poll(&mut self) -> u64 {
        self.seat.poll()
    }

    fn new_record(&mut self, d: u8, fields: u16) -> Result<Id, Full> {
        self.seat.new_record(d, fields)
    }

    fn new_array(&mut self, d: u8, cells: u16) -> Result<Id, SpaceRefusal> {
        self.seat.new_array(d, cells)
    }

    fn get(&mut self, d: u8, r: u8, i: u32) -> Result<(Value, u32), PlaceRefusal> {
        self.seat.get(d, r, i)
    }

    fn set(&mut self, r: u8, i: u32, v: u8) -> Result<u32, PlaceRefusal> {
        self.seat.set(r, i, v)
    }

    fn cas(&mut self, r: u8, i: u32, a: u8, v: u8) -> Result<Swapped, PlaceRefusal> {
        self.seat.cas(r, i, a, v)
    }

    fn num(&mut self, d: u8, n: u32) {
        self.seat.num(d, n);
    }

    fn nil(&mut self, d: u8) {
        self.seat.nil(d);
    }

    fn copy(&mut self, d: u8, r: u8) {
        self.seat.copy(d, r);
    }

    fn same(&mut self, a: u8, b: u8) -> bool {
        self.seat.same(a, b)
    }

    fn len(&mut self, r: u8) -> Result<u16, NoObject> {
        self.seat.len(r)
    }

    fn leave(&mut self) {
        self.seat.leave();
    }

    fn room(&mut self, n: usize) -> Result<(), Memory> {
        self.seat.room(n)
    }

    fn spare(&self) -> usize {
        self.seat.spare()
    }

    fn names_left(&self) -> u32 {
        self.seat.names_left()
    }

    fn sets_left(&self) -> u64 {
        self.seat.sets_left()
    }

    fn left(&self) -> bool {
        self.seat.left()
    }
}
