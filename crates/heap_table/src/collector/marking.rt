ghost use Rattle.core_machine.specs.declared.step.Step.TheVariants.{Turning};
ghost use Rattle.core_machine.specs.declared.step.TurningStep.TheVariants.{GroupLoad, ScanLoad, MarkShade, Blacken};
ghost use Rattle.heap_table.specs.CollectorHeld.{MayTurn, IsTurned};

use crate::collector::CollectorHolder;
use crate::shared_steps::SharedSteps;
use core_machine::{CountsEntries, Entries, Step, TurningStep};

impl<L: Entries, C: CountsEntries> CollectorHolder<L, C> {
    /// Loads a group's control word.
    pub fn group_load(&mut self, group: u16) -> u64
        requires { MayTurn self.old (Turning (GroupLoad group)) }
        ensures { IsTurned self.old self.new result }
    {
        self.found_by(&Step::Turning(TurningStep::GroupLoad { group }))
    }

    /// Loads a word of a fragment to see where it leads.
    pub fn scan_load(&mut self, fragment: u16, part: u8) -> u64
        requires { MayTurn self.old (Turning (ScanLoad fragment part)) }
        ensures { IsTurned self.old self.new result }
    {
        self.found_by(&Step::Turning(TurningStep::ScanLoad { fragment, part }))
    }

    /// Marks a fragment to which a scanned one leads.
    pub fn mark_shade(&mut self, fragment: u16)
        requires { MayTurn self.old (Turning (MarkShade fragment)) }
        ensures { IsTurned self.old self.new 0 }
    {
        self.turn_quietly(&Step::Turning(TurningStep::MarkShade { fragment }));
    }

    /// Tells of a fragment that it was scanned.
    pub fn blacken(&mut self, fragment: u16)
        requires { MayTurn self.old (Turning (Blacken fragment)) }
        ensures { IsTurned self.old self.new 0 }
    {
        self.turn_quietly(&Step::Turning(TurningStep::Blacken { fragment }));
    }
}
