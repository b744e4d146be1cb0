ghost use Rattle.std.specs.Prelude.{◌↔◌, IsTrue, OnOk};

use heap_model::Memory;
use std::sync::{Mutex, Wait};
use std::thread::yield_now;

/// What lies under the lock that the collector's worker takes for each slack.
pub trait SlackWork {
    /// What the worker has of its own, outside of the lock.
    type Own;

    /// No more slack is wanted.
    ghost over: { Self → Type 0 };

    /// What one slack comes to.
    ghost slackened: { Self → Self → Type 0 };

    /// Whether no more slack is wanted.
    fn is_over(&self) -> bool
        ensures { IsTrue result ↔ over self.now };

    /// Makes the turns of the collector that are asked for now.
    fn make_slack(&mut self, own: &mut Self::Own) -> Result<(), Memory>
        requires { ¬ over self.old }
        ensures slackened { OnOk result (slackened self.old self.new) };

    /// From here on no more slack is wanted.
    fn end(&mut self)
        ensures ended { over self.new };
}

/// Makes one slack after another until no more is wanted, and lets go of the lock after each. It returns without a fault only once it has seen that no more is wanted.
pub fn work_slack<W: SlackWork, R: Wait>(
    rt: &R,
    held: &Mutex<W>,
    own: &mut W::Own,
) -> Result<(), Memory>
    ensures over { OnOk result ((seen : W) × W.over seen) }
{
    for _ in rt.forever() {
        let mut here = held.lock(rt);
        if here.is_over() {
            return Ok(());
        }
        here.make_slack(own)?;
        drop(here);
        yield_now();
    }
    unreachable!()
}
