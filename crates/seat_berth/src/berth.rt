ghost use Rattle.std.specs.Prelude.{◌≡◌, Some, None, IsSome, IfSome, IfOk, MatchResult};
ghost use Rattle.seat_berth.specs.Known.{opening_owner, opening_helper};
ghost use Rattle.seat_berth.specs.OnlyAnswered.{OnlyAnswered};
ghost use Rattle.seat_berth.specs.Resting.{IsOf};
ghost use Rattle.seat_berth.specs.Views.{parked_by, resumed_by, refused_by};

use crate::helper::Helper;
use crate::rule::{HeapSeat, SharedPlace, Token};
use crate::steps::{hand_in, have_back, open};
use atomic_table::Table;
use heap_model::Memory;
use std::alloc::Global;
use std::marker::Model;
use std::sync::Arc;

/// A helper has the seat, for the few steps that its answer takes.
#[derive(Clone, Copy, Debug, PartialEq, Eq)]
pub struct Busy;

/// A place in which one seat of a table rests while its owner is away: the owner's right to hand it in and to have it back.
#[derive(Drop)]
pub struct Berth {
    place: SharedPlace,
    token: Token,
}

impl Model for Berth {
    ghost use Rattle.std.specs.Arc.{arc_value};
    ghost use Rattle.seat_berth.specs.Parties.{OwnerSeen, KeepsOwner};
    ghost use Rattle.seat_berth.specs.Views.{owner_by};

    ghost Value = { OwnerSeen };

    ghost view = { λ berth. record {
      berth = berth.token.table_id;
      home = (arc_value berth.place).shared.key;
      known = owner_by berth.token.me.0;
    } };

    ghost invariant = { λ berth. KeepsOwner (arc_value berth.place).shared.table_id berth.token.table_id berth.token.id berth.token.me };
}

impl Berth {
    /// A berth for this seat, which its owner still has.
    pub fn make(alloc: Global, seat: &HeapSeat) -> Result<Berth, Memory>
        ensures home { IfOk result (λ berth. berth.home ≡ seat.now) }
        ensures known { IfOk result (λ berth. berth.known ≡ opening_owner) }
    {
        let (table, mut token) = Table::vacant(alloc, &[0], 1, seat)?;
        open(&table.shared, &mut token);
        let place = Arc::new(alloc, table)?;
        Ok(Berth { place, token })
    }

    /// Hands the seat in.
    pub fn park(&mut self, seat: Box<HeapSeat, Global>)
        requires away { self.old.known.parked ≡ None }
        requires home { IsOf self.old.home seat.value }
        ensures { self.new ≡ record self.old { known = parked_by self.old.known (Some seat.value) } }
    {
        hand_in(&self.place.shared, &mut self.token, seat);
    }

    /// Has the seat back, unless a helper has it, in one try.
    pub fn resume(&mut self) -> Result<Box<HeapSeat, Global>, Busy>
        requires parked { IsSome self.old.known.parked }
        ensures same { (self.new.berth ≡ self.old.berth) × (self.new.home ≡ self.old.home) }
        ensures answered { IfOk result (λ seat. IfSome self.old.known.parked (λ parked. OnlyAnswered parked seat.value)) }
        ensures found { MatchResult result (λ _. self.new.known ≡ resumed_by self.old.known) (λ _. self.new.known ≡ refused_by self.old.known 2) }
    {
        match have_back(&self.place.shared, &mut self.token) {
            Some(seat) => Ok(seat),
            None => Err(Busy),
        }
    }

    /// One who helps at this berth.
    pub fn helper(&self) -> Result<Helper, Memory>
        ensures of { IfOk result (λ helper. (helper.berth ≡ self.now.berth) × (helper.home ≡ self.now.home)) }
        ensures known { IfOk result (λ helper. helper.known ≡ opening_helper) }
    {
        let place = Arc::try_clone(&self.place)?;
        Ok(Helper::of(place))
    }
}
