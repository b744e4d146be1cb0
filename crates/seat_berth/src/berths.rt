ghost use Rattle.std.specs.Prelude.{◌≡◌, ◌≤◌, ◌++◌, ◌∷◌, [], length, OnOk, OnErr};
ghost use Rattle.seat_berth.specs.Berths.{HelpsAt, HelpsWhereWaits, MakesTurn};

use crate::helper::{Helped, Helper};
use core_machine::{CountsEntries, Entries};
use heap_model::{Memory, Turn};
use heap_table::CollectorHolder;
use std::alloc::Global;
use std::marker::Model;

/// One who helps at the berths of a table's seats, each of which stands at its seat's number.
#[derive(Drop)]
pub struct Berths {
    helpers: Vec<Helper>,
}

impl Model for Berths {
    ghost use Rattle.std.specs.Prelude.{List};
    ghost use Rattle.seat_berth.specs.Berths.{AreInPlace};
    ghost use Rattle.seat_berth.specs.Parties.{HelperSeen};

    ghost Value = { List HelperSeen };

    ghost view = { λ berths. berths.helpers.items };

    ghost invariant = { λ berths. AreInPlace 0 berths.helpers.items };
}

impl Berths {
    /// No berth yet.
    pub fn new(alloc: Global) -> Berths
        ensures { result ≡ [] }
    {
        Berths {
            helpers: Vec::new(alloc),
        }
    }

    /// The berth of the next seat, too.
    pub fn push(&mut self, helper: Helper) -> Result<(), Memory>
        requires { helper.home.number ≡ length self.old }
        ensures pushed { OnOk result (self.new ≡ self.old ++ helper ∷ []) }
        ensures memory { OnErr result (self.new ≡ self.old) }
    {
        self.helpers.push(helper)?;
        Ok(())
    }

    /// Helps at the berth of this seat, where there is one.
    pub fn help(&mut self, seat: u8) -> Option<Helped>
        ensures { HelpsAt self.old self.new seat result }
    {
        let place = usize::from(seat);
        if place >= self.helpers.len() {
            return None;
        }
        Some(self.helpers[place].help())
    }

    /// Makes one turn of the collector. Where that waits for a seat, helps at the seat's berth, so that a seat that rests holds no cycle up.
    pub fn turn_or_help<L: Entries, C: CountsEntries>(
        &mut self,
        collector: &mut CollectorHolder<L, C>,
    ) -> (Turn, Option<Helped>)
        requires room { 2 ≤ collector.old.spare }
        ensures turned { MakesTurn collector.old collector.new result.0 }
        ensures helped { HelpsWhereWaits self.old self.new result.0 result.1 }
    {
        let (_, turn) = collector.turn();
        let Turn::Waits { seat, .. } = turn else {
            return (turn, None);
        };
        (turn, self.help(seat))
    }
}
