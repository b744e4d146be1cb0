ghost use Rattle.std.specs.Prelude.{◌≡◌, ◌<◌, ◌↔◌, IsTrue};
ghost use Rattle.core_machine.specs.seat.Commands.{IsServed};
ghost use Rattle.core_machine.specs.seat.Seat.{HasNumberLeft};
ghost use Rattle.heap_model.specs.Heap.{IsHeap};
ghost use Rattle.core_machine.specs.seat.Fits.{Fits};
ghost use Rattle.core_machine.specs.machine.Machine.{MayBegin, MayBeginInner, after_begin, after_inner_begin};

use crate::log::Entries;
use crate::point::{Making, Point, Polling};
use crate::seat::SeatParty;
use crate::seat::collecting::first_point;
use crate::seat::commands::Operands;
use heap_model::limits::SET_LIMIT;
use heap_model::{Command, Heap, Inner};

/// The most sets that a seat does, its compare and swaps that swapped among them.
const MOST_SETS: u64 = SET_LIMIT - 1;

/// Whether the machine serves the command.
fn is_served(command: &Command) -> bool
    ensures { IsTrue result ↔ IsServed command.now }
{
    match command {
        Command::Collect => false,
        Command::New { .. }
        | Command::Array { .. }
        | Command::Get { .. }
        | Command::Set { .. }
        | Command::Cas { .. }
        | Command::Num { .. }
        | Command::Nil { .. }
        | Command::Copy { .. }
        | Command::Same { .. }
        | Command::Len { .. }
        | Command::Poll
        | Command::Leave => true,
    }
}

impl<L: Entries> SeatParty<L> {
    /// Whether the command may be begun now.
    #[inline(always)]
    pub fn may_begin(&self, command: &Command) -> bool
        ensures { IsTrue result ↔ MayBegin self.now.seat command.now }
    {
        let Point::Idle = self.point else {
            return false;
        };
        !self.left && is_served(command) && command.is_in_range() && self.has_number(command)
    }

    /// Whether a name is left for the object that the command makes, or a set for the field that it sets.
    fn has_number(&self, command: &Command) -> bool
        ensures { IsTrue result ↔ HasNumberLeft self.now.seat.made self.now.seat.sets command.now }
    {
        match command {
            Command::New { .. } | Command::Array { .. } => self.made < u32::MAX,
            Command::Set { .. } | Command::Cas { .. } => self.sets < MOST_SETS,
            _ => true,
        }
    }

    /// Puts the command in flight.
    #[inline(always)]
    pub fn begin(&mut self, heap: &Heap, command: Command)
        requires limits { IsHeap heap.now }
        requires fits { Fits heap.now self.old.seat }
        requires may { MayBegin self.old.seat command }
        ensures seat { self.new.seat ≡ after_begin heap.now self.old.seat command }
        ensures spare { self.new.spare ≡ self.old.spare }
        ensures forgotten { self.new.forgotten ≡ self.old.forgotten }
    {
        self.command = command;
        match command {
            Command::New { .. } => self.go_on(heap),
            Command::Array { .. } => self.point = Point::Making(Making::Granting),
            Command::Get { .. } | Command::Set { .. } | Command::Cas { .. } | Command::Len { .. } =>
                {
                    self.open(Operands::of(&command).object);
                }
            Command::Poll => self.point = Point::Polling(Polling::Asking),
            Command::Leave => self.go(),
            Command::Num { .. }
            | Command::Nil { .. }
            | Command::Copy { .. }
            | Command::Same { .. } => self.point = Point::Local,
            Command::Collect => unreachable!(),
        }
    }

    /// Whether the inner call of a collect may be begun now.
    pub fn may_begin_inner(&self, heap: &Heap, number: u8, inner: &Inner) -> bool
        ensures { IsTrue result ↔ MayBeginInner heap.now number self.now.seat inner.now }
    {
        let Point::Idle = self.point else {
            return false;
        };
        !self.left && self.looks.may_make(heap, number, inner)
    }

    /// Puts the inner call of a collect in flight.
    pub fn begin_inner(&mut self, inner: Inner)
        ensures seat { self.new.seat ≡ after_inner_begin self.old.seat inner }
        ensures spare { self.new.spare ≡ self.old.spare }
        ensures forgotten { self.new.forgotten ≡ self.old.forgotten }
    {
        self.command = Command::Collect;
        self.point = first_point(inner);
    }
}
