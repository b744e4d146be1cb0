ghost use Rattle.std.specs.Prelude.{◌≡◌, ◌+◌, ◌≤◌, [], ◌∷◌, ◌++◌, All, map, length, slice_index_or, slice_set, IfOk, OnOk, OnErr, IfSome, IfNone};
ghost use Rattle.heap_model.specs.declared.id.Value.TheVariants.{Object as Reference};

use super::marks::Marks;
use crate::graph::object::Object;
use crate::graph::seat::Seat;
use crate::id::{Id, Value};
use std::alloc::{AllocError, Global};
use std::marker::Model;

/// What a walk through a graph has found so far. Each object that isn't marked yet has its position among what is found, so
/// that a walk takes no memory.
#[derive(Drop)]
pub struct Search {
    marks: Marks,
    /// What is marked, in the order in which it was found.
    found: Vec<Id>,
    /// The position of the first of these whose cells weren't looked at yet.
    next: usize,
    /// For so many marks there is room.
    positions: usize,
}

impl Model for Search {
    ghost use Rattle.std.specs.Prelude.{drop, vec_capacity, vec_len};
    ghost use Rattle.heap_model.specs.graph.Search.{Search, HasFound};

    ghost Value = { Search };

    ghost view = { λ s. record { marks = s.marks; waiting = drop s.next s.found.items } };

    ghost invariant = { λ s. HasFound s.marks s.found.items s.next (vec_len s.found) s.positions (vec_capacity s.found) };
}

impl Search {
    ghost use Rattle.heap_model.specs.Limits.{most_seats};
    ghost use Rattle.heap_model.specs.graph.Reach.{IsRegistered, PointsTo};
    ghost use Rattle.heap_model.specs.graph.Search.{AreMarked, GoesOn, FoundFromSeat, FoundFromObject};
    ghost use Rattle.heap_model.specs.graph.Marking.{IsFound, mark_counts, no_marks};

    /// Room for the board and the objects of these seats.
    pub fn new(alloc: Global, seats: &[Seat]) -> Result<Search, AllocError>
        requires { length seats.now ≤ most_seats }
        ensures { IfOk result (λ search. mark_counts search.marks ≡ map (λ seat. length seat.objects) seats.now) }
    {
        let mut positions = 1;
        for seat in seats {
            positions += seat.made();
        }
        Ok(Search {
            marks: Marks::new(alloc, seats)?,
            found: Vec::with_capacity(alloc, positions)?,
            next: 0,
            positions,
        })
    }

    /// Makes room for one more object of the seat.
    pub fn add(&mut self, seat: u8) -> Result<(), AllocError>
        ensures added { OnOk result (mark_counts self.new.marks ≡ slice_set (mark_counts self.old.marks) seat (slice_index_or (mark_counts self.old.marks) seat 0 + 1)) }
        ensures unchanged { OnErr result (self.new ≡ self.old) }
    {
        self.found.reserve(self.positions + 1 - self.found.len())?;
        self.marks.add(seat)?;
        self.positions += 1;
        Ok(())
    }

    /// Takes back all marks.
    pub fn restart(&mut self)
        ensures { self.new ≡ record { marks = no_marks (mark_counts self.old.marks); waiting = [] } }
    {
        self.marks.clear();
        self.found.clear();
        self.next = 0;
    }

    pub fn marks(&self) -> &Marks
        ensures { result.now ≡ self.now.marks }
    {
        &self.marks
    }

    /// What is marked.
    pub fn found(&self) -> &[Id]
        ensures { AreMarked self.now.marks result.now }
    {
        self.found.as_slice()
    }

    /// Takes the next object whose cells are to be looked at.
    pub fn next(&mut self) -> Option<Id>
        ensures none { IfNone result (self.old.waiting ≡ []) }
        ensures unchanged { IfNone result (self.new ≡ self.old) }
        ensures taken { IfSome result (λ id. self.old ≡ record self.new {
          waiting = id ∷ self.new.waiting;
        }) }
    {
        let id = *self.found.get(self.next)?;
        self.next += 1;
        Some(id)
    }

    /// Marks what the value refers to, and lets it wait if it wasn't marked.
    fn note(&mut self, value: Value)
        ensures goes_on { GoesOn (λ id. value ≡ Reference id) self.old self.new }
        ensures found { IsFound self.new.marks value }
    {
        if let Value::Object(id) = value
            && self.marks.mark(id)
        {
            match self.found.push(id) {
                Ok(()) => (),
                Err(_) => unreachable!(),
            }
        }
    }

    pub fn note_seat(&mut self, seat: &Seat)
        ensures goes_on { GoesOn (IsRegistered seat.now) self.old self.new }
        ensures found { FoundFromSeat self.new.marks seat.now }
    {
        for register in seat.registers() {
            self.note(register.value);
        }
    }

    pub fn note_object(&mut self, object: &Object)
        ensures goes_on { GoesOn (PointsTo object.now) self.old self.new }
        ensures found { FoundFromObject self.new.marks object.now }
    {
        for cell in object.cells() {
            self.note(cell.value);
        }
    }
}
