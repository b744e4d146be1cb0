ghost use Rattle.std.specs.Prelude.{◌≡◌, ◌<◌, ◌≤◌, length, Ok, Err, IfOk, OnOk, OnErr};
ghost use Rattle.heap_model.specs.Heap.{IsHeap};

use crate::entry::Entry;
use crate::fault::{ApplyFault, Memory};
use crate::graph::object::Object;
use crate::graph::seat::Seat;
use crate::heap::Heap;
use crate::id::Value;
use std::alloc::Global;
use std::marker::Model;

pub(crate) mod cell;
mod growth;
mod legal;
mod lookup;
pub(crate) mod object;
pub(crate) mod reach;
pub(crate) mod seat;
mod sizes;

/// The objects that were ever made, and what each seat holds: a heap that never collects.
#[derive(Drop)]
pub struct Graph {
    alloc: Global,
    board: Object,
    seats: Vec<Seat>,
}

impl Model for Graph {
    ghost use Rattle.std.specs.Prelude.{◌≤◌, length};
    ghost use Rattle.heap_model.specs.Limits.{most_seats};
    ghost use Rattle.heap_model.specs.graph.Graph.{Graph};

    ghost Value = { Graph };

    ghost view = { λ g. record { board = g.board; seats = g.seats.items } };

    ghost invariant = { λ g. length g.seats.items ≤ most_seats };
}

impl Graph {
    ghost use Rattle.heap_model.specs.Limits.{most_seats, last_register};
    ghost use Rattle.heap_model.specs.graph.Objects.{register_value, seen_stamp};
    ghost use Rattle.heap_model.specs.graph.Graph.{opening};
    ghost use Rattle.heap_model.specs.graph.Growth.{after_entry};
    ghost use Rattle.heap_model.specs.graph.Legal.{Accepts};

    /// The graph in which nothing was done yet.
    pub fn new(alloc: Global, heap: Heap) -> Result<Graph, Memory>
        requires { IsHeap heap }
        ensures { IfOk result (λ graph. graph ≡ opening heap) }
    {
        let board = Object::new(alloc, false, heap.board_fields())?;
        let mut seats = Vec::with_capacity(alloc, heap.seats as usize)?;
        for _seat in 0..heap.seats {
            seats.push(Seat::new(alloc))?;
        }
        Ok(Graph {
            alloc,
            board,
            seats,
        })
    }

    /// Lets the graph grow by the entry, where it may stand here.
    pub fn apply(&mut self, entry: &Entry) -> Result<(), ApplyFault>
        ensures accepted { OnOk result (Accepts self.old entry.now) }
        ensures grown { OnOk result (self.new ≡ after_entry self.old entry.now) }
        ensures not_legal { result ≡ Err ApplyFault.NotLegal → ¬ Accepts self.old entry.now }
        ensures memory { result ≡ Err ApplyFault.Memory → Accepts self.old entry.now }
        ensures unchanged { OnErr result (self.new ≡ self.old) }
    {
        if !self.accepts(entry) {
            return Err(ApplyFault::NotLegal);
        }
        self.grow(entry)?;
        Ok(())
    }

    /// How many seats the heap has, those that left among them.
    pub fn seats(&self) -> usize
        ensures count { result ≡ length self.now.seats }
        ensures few { result ≤ most_seats }
    {
        self.seats.len()
    }

    pub fn value(&self, seat: u8, register: u8) -> Value
        requires seat { seat < length self.now.seats }
        requires register { register ≤ last_register }
        ensures { result ≡ register_value self.now seat register }
    {
        self.register(seat, register).value
    }

    /// The stamp of the cell from which the register's value was read by a get, which a copy hands on; 0 where it was read from none.
    pub fn seen(&self, seat: u8, register: u8) -> u32
        requires seat { seat < length self.now.seats }
        requires register { register ≤ last_register }
        ensures { result ≡ seen_stamp self.now seat register }
    {
        self.register(seat, register).stamp
    }
}
