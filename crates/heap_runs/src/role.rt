ghost use Rattle.std.specs.Prelude.{◌≡◌, ℕ, ◌+◌, ◌-◌, ◌^◌, ◌≤◌, ◌↔◌, min, IsTrue, IfOk, OnOk, OnErr};
ghost use Rattle.collector_turns.specs.Turning.{MakesRoom};
ghost use Rattle.heap_runs.specs.Role.{IsOfRun, MakesOneTurn, MakesSlack};

use collector_turns::Collector;
use heap_model::{CollectorCalls, Memory, Turn};
use heap_record::SlackWork;
use slack_pace::{MOST_SLACK_TURNS, Pace, slack};
use std::marker::{Brand, PhantomData};

/// The name of a run on a table: which table it is, of which heap, and what its collector had told before. Each run picks it for itself.
pub trait HeldName {
    ghost use Rattle.atomic_table.specs.Seated.{TableId};
    ghost use Rattle.heap_model.specs.declared.entry.Entry.{Entry};
    ghost use Rattle.heap_model.specs.declared.heap.Heap.{Heap};
    ghost use Rattle.std.specs.Prelude.{List};

    ghost table: { TableId };

    ghost heap: { Heap };

    ghost before: { List Entry };
}

impl HeldName for Brand {
    ghost use Rattle.std.specs.Prelude.{[]};
    ghost use Rattle.heap_runs.specs.Role.{no_table};

    ghost table = { no_table };

    ghost heap = { record { groups = 0; spine = 0; seats = 0; board = 0 } };

    ghost before = { [] };
}

/// What the parties of a run share under one lock, and no word of the heap: the collector, the pace of its slack turns, how many fragments were claimed since it last made them,
/// and how many seats' workers have ended.
#[derive(Drop)]
pub struct Held<N: HeldName, P = Box<dyn Pace>> {
    pub collector: Collector,
    pub pace: P,
    pub owed: u64,
    pub gone: u16,
    pub name: PhantomData<N>,
    pub ghost of_run: { IsOfRun N.table N.heap N.before collector },
}

impl<N: HeldName, P> Held<N, P> {
    /// What is shared as a run begins: nothing was claimed, and no worker has ended.
    pub fn new(collector: Collector, pace: P) -> Held<N, P>
        requires table { collector.holder.table ≡ N.table }
        requires heap { collector.holder.heap ≡ N.heap }
        requires before { collector.holder.known.collector.log ≡ N.before }
        ensures collector { result.collector ≡ collector }
        ensures pace { result.pace ≡ pace }
        ensures owed { result.owed ≡ 0 }
        ensures gone { result.gone ≡ 0 }
    {
        Held {
            collector,
            pace,
            owed: 0,
            gone: 0,
            name: PhantomData,
        }
    }

    /// Makes one turn of the collector, and answers what it came to.
    pub fn turn(&mut self) -> Result<Turn, Memory>
        ensures turn { IfOk result (MakesOneTurn self.old.collector self.new.collector) }
        ensures still { OnErr result (MakesRoom self.old.collector self.new.collector) }
        ensures owed { self.new.owed ≡ self.old.owed }
        ensures gone { self.new.gone ≡ self.old.gone }
    {
        self.collector.room(2)?;
        Ok(self.collector.turn())
    }

    /// So many fragments more were claimed.
    pub fn owe(&mut self, claimed: u64)
        ensures owed { self.new.owed ≡ min (self.old.owed + claimed) (2 ^ 64 - 1) }
        ensures collector { self.new.collector ≡ self.old.collector }
        ensures gone { self.new.gone ≡ self.old.gone }
    {
        self.owed = self.owed.saturating_add(claimed);
    }

    /// One seat's worker more has ended.
    pub fn end_one(&mut self)
        ensures gone { self.new.gone ≡ min (self.old.gone + 1) (2 ^ 16 - 1) }
        ensures collector { self.new.collector ≡ self.old.collector }
        ensures owed { self.new.owed ≡ self.old.owed }
    {
        self.gone = self.gone.saturating_add(1);
    }
}

impl<N: HeldName> Held<N> {
    /// Makes the turns that the pace asks for, by what was claimed since it was asked last, or those up to the first that waits.
    fn pay(&mut self) -> Result<(), Memory>
        ensures came { OnOk result (came self.old.pace self.old.owed (kept self.new.pace)) }
        ensures slack { OnOk result (MakesSlack (asks self.old.pace self.old.owed) self.old.collector self.new.collector) }
        ensures paid { OnOk result (self.new.owed ≡ 0) }
        ensures still { OnErr result (MakesRoom self.old.collector self.new.collector) }
        ensures owed { OnErr result (self.new.owed ≡ self.old.owed) }
        ensures gone { self.new.gone ≡ self.old.gone }
    {
        self.collector.room(MOST_SLACK_TURNS as usize + 2)?;
        let claimed = self.owed;
        slack(&mut self.pace, &mut self.collector, claimed);
        self.owed = 0;
        Ok(())
    }
}

impl<N: HeldName> SlackWork for Held<N> {
    type Own = ();

    ghost over = { λ held. N.heap.seats ≤ held.gone };

    ghost slackened = { λ old new. (asked : ℕ) × MakesSlack asked old.collector new.collector };

    /// No more slack is wanted once as many workers have ended as there are seats.
    fn is_over(&self) -> bool
        ensures { IsTrue result ↔ (N.heap.seats ≤ self.now.gone) }
    {
        u16::from(self.collector.heap().seats) <= self.gone
    }

    fn make_slack(&mut self, _own: &mut ()) -> Result<(), Memory>
        requires { ¬ (N.heap.seats ≤ self.old.gone) }
        ensures slackened { OnOk result ((asked : ℕ) × MakesSlack asked self.old.collector self.new.collector) }
        ensures slack { OnOk result (MakesSlack (asks self.old.pace self.old.owed) self.old.collector self.new.collector) }
        ensures paid { OnOk result (self.new.owed ≡ 0) }
    {
        self.pay()
    }

    /// All seats' workers have ended.
    fn end(&mut self)
        ensures ended { N.heap.seats ≤ self.new.gone }
        ensures collector { self.new.collector ≡ self.old.collector }
    {
        self.gone = u16::from(self.collector.heap().seats);
    }
}
