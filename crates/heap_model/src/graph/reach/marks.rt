ghost use Rattle.std.specs.Prelude.{◌≡◌, ◌<◌, ◌↔◌, [], ◌∷◌, ◌++◌, map, false, length, replicate, slice_set, Some, if◌then◌else◌, IfOk, OnOk, OnErr, IsTrue};

use crate::graph::seat::Seat;
use crate::id::Id;
use std::alloc::{AllocError, AllocFailed, Global};
use std::marker::Model;

/// The marks of the objects of one seat, by the numbers of the walks that set them.
#[derive(Drop)]
struct Row {
    marks: Vec<u64>,
}

impl Model for Row {
    ghost use Rattle.std.specs.Prelude.{ℕ, List};

    ghost Value = { List ℕ };

    ghost view = { λ r. r.marks.items };
}

/// A mark for each object of a graph. It is the number of the walk that set it, so that all marks are taken back by going on
/// to the next walk, whatever was ever made.
#[derive(Drop)]
pub struct Marks {
    /// The number of the walk now.
    walk: u64,
    board: u64,
    seats: Vec<Row>,
}

impl Model for Marks {
    ghost use Rattle.heap_model.specs.graph.Marking.{Marking};
    ghost use Rattle.heap_model.specs.graph.Walks.{marking_by, AreOfWalks};

    ghost Value = { Marking };

    ghost view = { λ m. marking_by m.walk m.board m.seats.items };

    ghost invariant = { λ m. AreOfWalks m.walk m.board m.seats.items };
}

impl Marks {
    ghost use Rattle.heap_model.specs.graph.Marking.{mark_of, marks_of, mark_counts, no_marks, with_mark, is_marked, HasMark};

    /// The marks of the board and of the objects of these seats, with none set.
    pub fn new(alloc: Global, seats: &[Seat]) -> Result<Marks, AllocError>
        ensures { IfOk result (λ marks. marks ≡ no_marks (map (λ seat. length seat.objects) seats.now)) }
    {
        let mut rows = Vec::with_capacity(alloc, seats.len())?;
        for seat in seats {
            let marks = vec![in alloc; 0; seat.made()]?;
            rows.push(Row { marks })?;
        }
        Ok(Marks {
            walk: 1,
            board: 0,
            seats: rows,
        })
    }

    /// One more mark of the seat, where there is such a one.
    pub fn add(&mut self, seat: u8) -> Result<(), AllocFailed<u64>>
        ensures added { OnOk result (self.new ≡ record self.old { seats = slice_set self.old.seats seat (marks_of self.old seat ++ false ∷ []) }) }
        ensures unchanged { OnErr result (self.new ≡ self.old) }
    {
        match self.seats.get_mut(seat as usize) {
            Some(row) => row.add(),
            None => Ok(()),
        }
    }

    /// Takes back all marks.
    pub fn clear(&mut self)
        ensures { self.new ≡ no_marks (mark_counts self.old) }
    {
        match self.walk.checked_add(1) {
            Some(next) => self.walk = next,
            None => self.count_anew(),
        }
    }

    /// Takes back all marks, and counts the walks from 1 on again.
    fn count_anew(&mut self)
        ensures { self.new ≡ no_marks (mark_counts self.old) }
    {
        self.walk = 1;
        self.board = 0;
        clear_rows(self.seats.as_mut_slice());
    }

    pub fn is_marked(&self, id: Id) -> bool
        ensures value { result ≡ is_marked self.now id }
        ensures marked { IsTrue result ↔ HasMark self.now id }
    {
        match id {
            Id::Board => self.board == self.walk,
            Id::Made { seat, count } => match self.seats.get(seat as usize) {
                Some(row) => row.marks.get(count as usize) == Some(&self.walk),
                None => false,
            },
        }
    }

    /// Marks the object, where there is such a one and it wasn't marked: then it answers true.
    pub fn mark(&mut self, id: Id) -> bool
        ensures fresh { IsTrue result ↔ (mark_of self.old id ≡ Some false) }
        ensures marked { self.new ≡ (if result then with_mark self.old id else self.old) }
    {
        match id {
            Id::Board => {
                let fresh = self.board != self.walk;
                self.board = self.walk;
                fresh
            }
            Id::Made { seat, count } => match self.seats.get_mut(seat as usize) {
                Some(row) => row.mark(self.walk, count),
                None => false,
            },
        }
    }
}

/// Makes all marks of the seats those of no walk.
fn clear_rows(rows: &mut [Row])
    ensures { rows.new ≡ map (λ row. replicate (length row) 0) rows.old }
{
    for seat in 0..rows.len() {
        rows[seat].clear();
    }
}

impl Row {
    ghost use Rattle.std.specs.Prelude.{slice_get};
    ghost use Rattle.heap_model.specs.graph.Walks.{marks_by};

    fn add(&mut self) -> Result<(), AllocFailed<u64>>
        ensures added { OnOk result (self.new ≡ self.old ++ 0 ∷ []) }
        ensures unchanged { OnErr result (self.new ≡ self.old) }
    {
        self.marks.push(0)
    }

    fn clear(&mut self)
        ensures { self.new ≡ replicate (length self.old) 0 }
    {
        self.marks.fill(0);
    }

    /// Sets the mark, where there is such a one and this walk hasn't set it: then it answers true.
    fn mark(&mut self, walk: u64, count: u32) -> bool
        ensures fresh { IsTrue result ↔ (slice_get (marks_by walk self.old) count ≡ Some false) }
        ensures marked { self.new ≡ (if result then slice_set self.old count walk else self.old) }
    {
        match self.marks.get_mut(count as usize) {
            Some(mark) if *mark != walk => {
                *mark = walk;
                true
            }
            _ => false,
        }
    }
}
