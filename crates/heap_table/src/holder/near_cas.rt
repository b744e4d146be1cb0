ghost use Rattle.std.specs.Prelude.{◌≡◌, ◌≤◌, List, IsTrue};
ghost use Rattle.heap_model.specs.declared.command.Command.TheVariants.{Cas};
ghost use Rattle.core_machine.specs.declared.point.Point.TheVariants.{Idle};
ghost use Rattle.core_machine.specs.machine.Machine.{MayBegin};
ghost use Rattle.heap_table.specs.Ahead.{begun};
ghost use Rattle.heap_table.specs.Made.{Made, MakesSteps};

use crate::ahead::step_next;
use crate::guards::guard_cas;
use crate::holder::Holder;
use crate::holder::near::catch_up;
use crate::way::find_field;
use core_machine::{AccessStep, Entries, Register, Step};
use heap_model::Command;

impl<L: Entries> Holder<L> {
    /// Makes a compare and swap, in one go where its object has the field. Answers whether it is over; else it is in flight.
    #[inline(always)]
    pub fn cas_near(&mut self, r: u8, i: u32, a: u8, v: u8) -> bool
        requires may { MayBegin self.old.seat (Cas r i a v) }
        requires room { 2 ≤ self.old.spare }
        ensures steps { (made : List Made) × MakesSteps (begun self.old (Cas r i a v)) self.new made }
        ensures over { IsTrue result → self.new.seat.point ≡ Idle }
    {
        let command = Command::Cas { r, i, a, v };
        let Register::Object { head, .. } = self.party.register(r) else {
            self.local_near(command);
            return true;
        };
        let place = match find_field(
            &self.table.shared,
            &mut self.token,
            &self.heap,
            self.number,
            &self.party,
            &command,
            head,
            i,
        ) {
            Ok(place) => place,
            Err(meta) => {
                catch_up(&mut self.party, &self.heap, self.number, command, meta);
                return false;
            }
        };
        guard_cas(
            &self.table.shared,
            &mut self.token,
            &self.heap,
            self.number,
            &self.party,
            &command,
            place,
            a,
            v,
        );
        let old = self.party.word_seen(a);
        let new = self.party.word_to_set(self.number, v);
        let compare = Step::Access(AccessStep::CompareSwap {
            fragment: place.fragment,
            part: place.part,
            old,
            new,
        });
        let found = step_next(
            &self.table.shared,
            &mut self.token,
            &self.heap,
            self.number,
            &compare,
        );
        self.party.end_cas(self.number, command, old, found);
        true
    }
}
