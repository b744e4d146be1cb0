ghost use Rattle.std.specs.Prelude.{◌≡◌, ◌+◌, ◌<◌, ◌≤◌, List, length, IsTrue};
ghost use Rattle.heap_model.specs.Heap.{IsHeap};
ghost use Rattle.heap_model.specs.declared.command.Command.TheVariants.{Get};
ghost use Rattle.core_machine.specs.declared.point.Point.TheVariants.{Idle};
ghost use Rattle.core_machine.specs.machine.Machine.{MayBegin, after_begin};
ghost use Rattle.core_machine.specs.seat.Fits.{Fits};
ghost use Rattle.heap_table.specs.Ahead.{begun};
ghost use Rattle.heap_table.specs.Begun.{next_seat};
ghost use Rattle.heap_table.specs.Made.{Made, MakesSteps};
ghost use Rattle.heap_table.specs.Told.{ToldAtStep};

use crate::ahead::step_next;
use crate::holder::Holder;
use crate::way::{find_field, referred};
use core_machine::{AccessStep, Entries, Register, SeatParty, Step};
use heap_model::{Command, Heap};

/// Begins the command, and learns what its first step has found: the party stands where the view does, and the call goes on step by step.
#[cold]
pub(crate) fn catch_up<L: Entries>(
    party: &mut SeatParty<L>,
    heap: &Heap,
    number: u8,
    command: Command,
    found: u64,
)
    requires limits { IsHeap heap.now }
    requires number { number < heap.now.seats }
    requires fits { Fits heap.now party.old.seat }
    requires may { MayBegin party.old.seat command }
    requires begun { Fits heap.now (after_begin heap.now party.old.seat command) }
    requires told { ToldAtStep heap.now number (after_begin heap.now party.old.seat command) found }
    requires spare { 2 ≤ party.old.spare }
    ensures seat { party.new.seat ≡ next_seat heap.now number (after_begin heap.now party.old.seat command) found }
    ensures spare { party.old.spare + length (after_begin heap.now party.old.seat command).mine ≤ party.new.spare + length party.new.seat.mine }
    ensures no_more { party.new.spare ≤ party.old.spare }
{
    party.begin(heap, command);
    party.learn(heap, number, found);
}

impl<L: Entries> Holder<L> {
    /// Makes a get, in one go where its object has the field. Answers whether it is over; else it is in flight.
    #[inline(always)]
    pub fn get_near(&mut self, d: u8, r: u8, i: u32) -> bool
        requires may { MayBegin self.old.seat (Get d r i) }
        requires room { 2 ≤ self.old.spare }
        ensures steps { (made : List Made) × MakesSteps (begun self.old (Get d r i)) self.new made }
        ensures over { IsTrue result → self.new.seat.point ≡ Idle }
    {
        let command = Command::Get { d, r, i };
        let Register::Object { head, .. } = self.party.register(r) else {
            self.local_near(command);
            return true;
        };
        let place = match find_field(
            &self.table.shared,
            &mut self.token,
            &self.heap,
            self.number,
            &self.party,
            &command,
            head,
            i,
        ) {
            Ok(place) => place,
            Err(meta) => {
                catch_up(&mut self.party, &self.heap, self.number, command, meta);
                return false;
            }
        };
        let load = Step::Access(AccessStep::GetLoad {
            fragment: place.fragment,
            part: place.part,
        });
        let word = step_next(
            &self.table.shared,
            &mut self.token,
            &self.heap,
            self.number,
            &load,
        );
        let Some(to) = referred(word) else {
            self.party.end_get(self.number, command, word);
            return true;
        };
        let naming = Step::Access(AccessStep::NameLoad { head: to });
        let name = step_next(
            &self.table.shared,
            &mut self.token,
            &self.heap,
            self.number,
            &naming,
        );
        self.party
            .end_named_get(self.number, command, word, to, name);
        true
    }
}
