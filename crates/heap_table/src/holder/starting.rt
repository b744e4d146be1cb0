ghost use Rattle.std.specs.Prelude.{◌≡◌, ◌≤◌, List, IsTrue};
ghost use Rattle.core_machine.specs.declared.point.Point.TheVariants.{Idle};
ghost use Rattle.core_machine.specs.machine.Machine.{MayBegin};
ghost use Rattle.heap_table.specs.Ahead.{begun};
ghost use Rattle.heap_table.specs.Made.{Made, MakesSteps};

use crate::holder::Holder;
use core_machine::Entries;
use heap_model::Command;

impl<L: Entries> Holder<L> {
    /// Begins the command, and makes a call that is near in one go. Answers whether it is over; else it is in flight.
    #[inline(always)]
    pub fn start(&mut self, command: &Command) -> bool
        requires may { MayBegin self.old.seat command.now }
        requires room { 2 ≤ self.old.spare }
        ensures steps { (made : List Made) × MakesSteps (begun self.old command.now) self.new made }
        ensures over { IsTrue result → self.new.seat.point ≡ Idle }
    {
        match *command {
            Command::Get { d, r, i } => self.get_near(d, r, i),
            Command::Set { r, i, v } => self.set_near(r, i, v),
            Command::Cas { r, i, a, v } => self.cas_near(r, i, a, v),
            Command::Num { d, n } => {
                self.local_near(Command::Num { d, n });
                true
            }
            Command::Nil { d } => {
                self.local_near(Command::Nil { d });
                true
            }
            Command::Copy { d, r } => {
                self.local_near(Command::Copy { d, r });
                true
            }
            Command::Same { a, b } => {
                self.local_near(Command::Same { a, b });
                true
            }
            Command::Len { r } => {
                self.len_near(r);
                true
            }
            Command::Poll => self.poll_near(),
            other => {
                self.begin(other);
                false
            }
        }
    }
}
