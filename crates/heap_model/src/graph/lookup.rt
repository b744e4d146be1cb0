ghost use Rattle.std.specs.Prelude.{◌≡◌, ◌≤◌, ◌<◌, ◌^◌, ◌↔◌, length, IsTrue};
ghost use Rattle.std.specs.Option.{option_copied};

use crate::graph::Graph;
use crate::graph::cell::Cell;
use crate::graph::object::Object;
use crate::id::{Id, Value};
use crate::reply::Reply;

impl Graph {
    ghost use Rattle.heap_model.specs.Limits.{name_limit};
    ghost use Rattle.heap_model.specs.graph.Objects.{cell_at, graph_seat, register_cell, target_node};
    ghost use Rattle.heap_model.specs.graph.Legal.{IsPresent};

    pub(super) fn is_present(&self, seat: u8) -> bool
        ensures { IsTrue result ↔ IsPresent self.now seat }
    {
        match self.seats.get(seat as usize) {
            Some(party) => !party.has_left(),
            None => false,
        }
    }

    /// How many objects the seat made.
    pub(super) fn made(&self, seat: u8) -> usize
        ensures count { result ≡ length (graph_seat self.now seat).objects }
        ensures few { result ≤ name_limit }
    {
        match self.seats.get(seat as usize) {
            Some(party) => party.made(),
            None => 0,
        }
    }

    pub(super) fn set_count(&self, seat: u8) -> u64
        ensures { result ≡ (graph_seat self.now seat).sets }
    {
        match self.seats.get(seat as usize) {
            Some(party) => party.sets(),
            None => 0,
        }
    }

    pub(super) fn register(&self, seat: u8, r: u8) -> Cell
        ensures { result ≡ register_cell self.now seat r }
    {
        match self.seats.get(seat as usize) {
            Some(party) => party.register(r),
            None => Cell::unseen(Value::Nil),
        }
    }

    /// The object that the value refers to.
    pub(super) fn target(&self, value: Value) -> Option<&Object>
        ensures { option_copied result ≡ target_node self.now value }
    {
        match value {
            Value::Object(Id::Board) => Some(&self.board),
            Value::Object(Id::Made { seat, count }) => {
                self.seats.get(seat as usize)?.object(count)
            }
            Value::Nil | Value::Number(_) => None,
        }
    }

    /// The cell of the object in a seat's register, or the refusal that tells why there is none.
    pub(super) fn cell(&self, seat: u8, r: u8, i: u32) -> Result<Cell, Reply>
        ensures { result ≡ cell_at self.now seat r i }
    {
        let Some(object) = self.target(self.register(seat, r).value) else {
            return Err(Reply::NoObject);
        };
        let Some(cell) = object.cell(i) else {
            return Err(Reply::NoField);
        };
        Ok(cell)
    }
}
