ghost use Rattle.std.specs.Prelude.{◌≡◌, ◌↔◌, ℕ, IsTrue, true, OnOk, OnErr};
ghost use Rattle.heap_record.specs.Recorded.{StandsStill};
ghost use Rattle.locked_heap.specs.Locked.{AllGone, IsOver, MakesSlack};

use crate::handed::Handed;
use crate::locked::Locked;
use heap_model::{CollectorCalls, Memory};
use heap_record::SlackWork;
use slack_pace::{MOST_SLACK_TURNS, Pace, slack};

impl<N: Handed> Locked<N> {
    /// Whether every seat has left.
    fn all_gone(&self) -> bool
        ensures { IsTrue result ↔ AllGone N.given self.now.seats }
    {
        self.seats.iter().all(|seat| seat.gone)
    }
}

impl<N: Handed> SlackWork for Locked<N> {
    type Own = Box<dyn Pace>;

    ghost over = { IsOver N.given };

    ghost slackened = { λ old new. (asked : ℕ) × MakesSlack asked old new };

    /// No more slack is wanted once the seats' workers have returned, or every seat has left.
    fn is_over(&self) -> bool
        ensures { IsTrue result ↔ IsOver N.given self.now }
    {
        self.over || self.all_gone()
    }

    /// Makes the turns that the pace asks for, by what was claimed since it was asked last, or those up to the first that waits.
    fn make_slack(&mut self, own: &mut Box<dyn Pace>) -> Result<(), Memory>
        requires { ¬ IsOver N.given self.old }
        ensures slackened { OnOk result ((asked : ℕ) × MakesSlack asked self.old self.new) }
        ensures came { OnOk result (came own.old self.old.owed (kept own.new)) }
        ensures slack { OnOk result (MakesSlack (asks own.old self.old.owed) self.old self.new) }
        ensures beside { OnErr result (self.new ≡ record self.old { recorded = self.new.recorded }) }
        ensures still { OnErr result (StandsStill self.old.recorded self.new.recorded) }
    {
        self.recorder.room(MOST_SLACK_TURNS as usize + 2)?;
        let claimed = self.owed;
        slack(own, &mut self.recorder, claimed);
        self.owed = 0;
        Ok(())
    }

    /// The seats' workers have returned.
    fn end(&mut self)
        ensures ended { IsOver N.given self.new }
        ensures returned { self.new ≡ record self.old { over = true } }
    {
        self.over = true;
    }
}
