ghost use Rattle.std.specs.Prelude.{◌≡◌, ◌+◌, [], List, length, IfOk, OnOk, IfSome};
ghost use Rattle.heap_model.specs.declared.id.Id.{Id as Ids};
ghost use Rattle.heap_model.specs.declared.id.Id.TheVariants.{Board, Made};

use crate::fault::Memory;
use crate::graph::Graph;
use crate::id::{Id, Value};
use marks::Marks;
use search::Search;
use std::alloc::AllocError;

pub(super) mod marks;
pub(crate) mod search;

impl Graph {
    ghost use Rattle.heap_model.specs.graph.Objects.{node};
    ghost use Rattle.heap_model.specs.graph.Reach.{IsReach, AreReached, AreReachedAmong, Points};
    ghost use Rattle.heap_model.specs.graph.Sizes.{fragments_at, fragments_of_all};
    ghost use Rattle.heap_model.specs.graph.Search.{IsSearch, GoesOn, FoundFromObject};
    ghost use Rattle.heap_model.specs.graph.Marking.{HasMarks, IsListed, mark_counts};

    /// The objects to which a path leads from some register: the board first, and the others by seat and count.
    pub fn reach(&self) -> Result<Vec<Id>, Memory>
        ensures { IfOk result (λ ids. IsReach self.now ids.items) }
    {
        let mut search = self.room_to_search()?;
        self.search(&mut search);
        let ids = self.list(search.marks())?;
        Ok(ids)
    }

    /// Room for a search, in which each object of the graph has a mark.
    pub(crate) fn room_to_search(&self) -> Result<Search, AllocError>
        ensures { IfOk result (λ search. HasMarks self.now search.marks) }
    {
        Search::new(self.alloc, &self.seats)
    }

    /// The objects to which a path leads from some register, each once and in whatever order, by a search that is at hand.
    pub(crate) fn reached(&self, search: &mut Search) -> Result<Vec<Id>, Memory>
        ensures reached { HasMarks self.now search.old.marks → IfOk result (λ ids. AreReached self.now ids.items) }
        ensures marks { mark_counts search.new.marks ≡ mark_counts search.old.marks }
    {
        self.search(search);
        let mut ids = Vec::new(self.alloc);
        ids.extend_from_slice(search.found())?;
        Ok(ids)
    }

    /// The fragments of those of the ids to which a path leads from some register.
    pub(crate) fn reached_frags(&self, ids: &[Id], search: &mut Search) -> u128
        ensures sum { HasMarks self.now search.old.marks → (both : List Ids) × AreReachedAmong self.now ids.now both × (result ≡ fragments_of_all self.now both) }
        ensures marks { mark_counts search.new.marks ≡ mark_counts search.old.marks }
    {
        self.search(search);
        self.marked_frags(ids, search.marks())
    }

    /// Marks what is reached, where each object has a mark.
    fn search(&self, search: &mut Search)
        ensures reached { HasMarks self.now search.old.marks → IsSearch self.now search.new }
        ensures through { search.new.waiting ≡ [] }
        ensures marks { mark_counts search.new.marks ≡ mark_counts search.old.marks }
    {
        self.search_from_seats(search);
        while let Some(id) = search.next() {
            self.look_at(id, search);
        }
    }

    /// How many fragments the object has, and 0 where there is no such object.
    pub fn frags(&self, id: Id) -> u32
        ensures { result ≡ fragments_at self.now id }
    {
        match self.target(Value::Object(id)) {
            Some(object) => object.fragments(),
            None => 0,
        }
    }

    /// Begins a search anew, by what the registers hold.
    fn search_from_seats(&self, search: &mut Search)
        ensures reached { HasMarks self.now search.old.marks → IsSearch self.now search.new }
        ensures marks { mark_counts search.new.marks ≡ mark_counts search.old.marks }
    {
        search.restart();
        for seat in &self.seats {
            search.note_seat(seat);
        }
    }

    /// Notes what the cells of the object hold.
    fn look_at(&self, id: Id, search: &mut Search)
        ensures goes_on { GoesOn (Points self.now id) search.old search.new }
        ensures found { IfSome (node self.now id) (FoundFromObject search.new.marks) }
    {
        if let Some(object) = self.target(Value::Object(id)) {
            search.note_object(object);
        }
    }

    /// The marked ids in their order.
    fn list(&self, marks: &Marks) -> Result<Vec<Id>, AllocError>
        requires { HasMarks self.now marks.now }
        ensures { IfOk result (λ ids. IsListed marks.now (Made (length self.now.seats) 0) ids.items) }
    {
        let mut ids = Vec::new(self.alloc);
        if marks.is_marked(Id::Board) {
            ids.push(Id::Board)?;
        }
        for seat in 0..self.seats.len() as u8 {
            self.list_seat(marks, seat, &mut ids)?;
        }
        Ok(ids)
    }

    fn list_seat(&self, marks: &Marks, seat: u8, ids: &mut Vec<Id>) -> Result<(), AllocError>
        requires objects { HasMarks self.now marks.now }
        requires before { IsListed marks.now (Made seat 0) ids.old.items }
        ensures { OnOk result (IsListed marks.now (Made (seat + 1) 0) ids.new.items) }
    {
        for count in 0..self.made(seat) {
            let id = Id::Made {
                seat,
                count: count as u32,
            };
            if marks.is_marked(id) {
                ids.push(id)?;
            }
        }
        Ok(())
    }
}
