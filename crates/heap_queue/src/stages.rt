ghost use Rattle.std.specs.Prelude.{◌≡◌, ◌<◌, ℕ};
ghost use Rattle.heap_model.specs.Command.{IsCommand};
ghost use Rattle.heap_model.specs.declared.entry.Entry.TheVariants.{Said};
ghost use Rattle.heap_queue.specs.Effects.{start, moved};
ghost use Rattle.heap_queue.specs.Stages.{AreNamed, IsNamed, place_of, places_of};

use crate::stage::Stage;
use heap_model::{Command, Reply};

/// Where each seat stands.
#[derive(Drop)]
pub(crate) struct Stages {
    stages: [Stage; 16],
}

impl Stages {
    /// Before the first entry, where the first seat is to make the queue.
    pub(crate) fn opening() -> Stages
        ensures places { (number : ℕ) → places_of result number ≡ start 0 number }
        ensures named { AreNamed result }
    {
        let mut stages = [Stage::Waits; 16];
        stages[0] = Stage::MakesNode;
        Stages { stages }
    }

    /// Where the seat stands.
    pub(crate) fn stage(&self, seat: u8) -> Stage
        requires seat { seat < 16 }
        requires named { AreNamed self.now }
        ensures place { place_of result ≡ places_of self.now seat }
        ensures named { IsNamed result }
    {
        self.stages[seat as usize]
    }

    /// Moves the seat on by a command and its reply.
    pub(crate) fn pass(&mut self, seat: u8, command: Command, reply: Reply)
        requires seat { seat < 16 }
        requires in_range { IsCommand command }
        requires named { AreNamed self.old }
        ensures places { (number : ℕ) → places_of self.new number ≡ moved (places_of self.old) (Said seat command reply) number }
        ensures named { AreNamed self.new }
    {
        let stage = self.stage(seat).after(command, reply);
        self.stages[seat as usize] = stage;
    }
}
