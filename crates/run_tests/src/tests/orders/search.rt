ghost use Rattle.heap_model.specs.Heap.{IsHeap};

use super::books::{Books, Verdict};
use super::order::{Order, accept, counts_with, has_all, replies_of, rest_of, stands};
use super::waiting::is_behind;
use heap_model::{Entry, Heap, Memory};
use std::alloc::Global;
use std::collections::BTreeSet;

/// What a search came to.
#[derive(Clone, Copy, Debug, PartialEq)]
pub(super) enum End {
    /// An order in which graph and account accept all entries, and nothing is in use at the end.
    Found,
    /// No such order was found. Of orders that hold the same entries of each log only the first is followed.
    Nothing,
    /// There were too few steps.
    RanOut,
}

/// The logs of two seats and their collector, and what of them is in an order so far.
#[derive(Drop)]
struct Search<'a> {
    alloc: Global,
    heap: Heap,
    logs: &'a [Vec<Entry>],
    /// The seats whose commands were begun, in the order in which they were.
    begun: &'a [u8],
    order: Order,
    books: Books,
    /// How many entries each log had in the orders that the search has left, since nothing came of them.
    left: BTreeSet<[usize; 3]>,
    ghost limits: { IsHeap heap },
}

/// Where the log stands in the order in which they are tried.
fn tried_at(choices: &[usize], number: usize) -> usize {
    for (position, other) in choices.iter().enumerate() {
        if *other == number {
            return position;
        }
    }
    choices.len()
}

impl Search<'_> {
    /// The position at which the seat's next command was begun.
    fn begin_of(&self, seat: u8) -> usize {
        let made = replies_of(self.logs, &self.order, seat as usize);
        let mut behind = 0usize;
        for (position, other) in self.begun.iter().enumerate() {
            if *other == seat {
                if behind == made {
                    return position;
                }
                behind = behind.saturating_add(1);
            }
        }
        self.begun.len()
    }

    /// The logs, in the order in which their next entries are tried: first the seat's whose command was begun first, then the collector's.
    fn choices(&self) -> [usize; 3] {
        if self.begin_of(0) <= self.begin_of(1) {
            [0, 2, 1]
        } else {
            [1, 2, 0]
        }
    }

    /// Whether the entry has to wait for one of another log.
    fn must_wait(&self, number: usize, entry: &Entry) -> bool {
        for other in 0..self.logs.len() {
            if other != number && is_behind(rest_of(self.logs, &self.order, other), entry) {
                return true;
            }
        }
        false
    }

    /// Whether the search has left an order that had as many entries of each log as this one has with the log's next.
    fn has_left(&self, number: usize) -> bool {
        self.left.contains(&counts_with(&self.order, number))
    }

    /// Puts the next entry of the log into the order, if graph and account both accept it.
    fn place(&mut self, number: usize) -> Result<bool, Memory> {
        let Some(entry) = rest_of(self.logs, &self.order, number).first().copied() else {
            return Ok(false);
        };
        if self.has_left(number) || self.must_wait(number, &entry) {
            return Ok(false);
        }
        match self.books.judge(&entry)? {
            Verdict::Accepted => self.order.push(number)?,
            Verdict::Refused => return Ok(false),
            Verdict::Spoiled => {
                self.reopen()?;
                return Ok(false);
            }
        }
        Ok(true)
    }

    /// Puts one more entry into the order: the first that is accepted of those that are tried behind so many others.
    fn place_one(&mut self, behind: usize) -> Result<bool, Memory> {
        let choices = self.choices();
        for position in behind..choices.len() {
            if self.place(choices[position])? {
                return Ok(true);
            }
        }
        Ok(false)
    }

    /// Lets new books count what is in the order.
    fn reopen(&mut self) -> Result<(), Memory> {
        self.books = Books::opening(self.alloc, self.heap)?;
        accept(&mut self.books, self.logs, &self.order)?;
        Ok(())
    }

    /// Takes the last entry out of the order, and tells how many are tried before the one behind it.
    fn go_back(&mut self) -> Result<Option<usize>, Memory> {
        let Some(number) = self.order.pop() else {
            return Ok(None);
        };
        self.left.insert(counts_with(&self.order, number))?;
        self.reopen()?;
        Ok(Some(tried_at(&self.choices(), number).saturating_add(1)))
    }

    /// Whether the order has all entries, and nothing is in use behind them.
    fn is_through(&self) -> bool {
        has_all(self.logs, &self.order) && self.books.are_even()
    }

    /// Searches depth first, in so many steps at most.
    fn run(&mut self, steps: u32) -> Result<End, Memory> {
        let mut behind = 0;
        for _ in 0..steps {
            if self.is_through() {
                return Ok(End::Found);
            }
            if self.place_one(behind)? {
                behind = 0;
            } else {
                let Some(next) = self.go_back()? else {
                    return Ok(End::Nothing);
                };
                behind = next;
            }
        }
        Ok(End::RanOut)
    }

    /// What the search comes to, and whether the order then stands by books of its own.
    fn end(&mut self, steps: u32) -> Result<(End, bool), Memory> {
        let end = self.run(steps)?;
        let stands = stands(self.alloc, self.heap, self.logs, &self.order)?;
        Ok((end, stands))
    }
}

/// Searches for an order of the logs of two seats and their collector, in so many steps at most: what that comes to, and whether what has then been put into an order stands as one of all.
pub(super) fn searched(
    alloc: Global,
    heap: Heap,
    logs: &[Vec<Entry>],
    begun: &[u8],
    steps: u32,
) -> Result<(End, bool), Memory>
    requires { IsHeap heap }
{
    let books = Books::opening(alloc, heap)?;
    let mut search = Search {
        alloc,
        heap,
        logs,
        begun,
        order: Vec::new(alloc),
        books,
        left: BTreeSet::new(alloc),
    };
    search.end(steps)
}
