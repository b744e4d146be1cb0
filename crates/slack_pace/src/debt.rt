ghost use Rattle.std.specs.Prelude.{◌≡◌, ◌≤◌, [], ◌∷◌};
ghost use Rattle.slack_pace.specs.Slack.{most_slack_turns};
ghost use Rattle.slack_pace.specs.Debt.{debt_turns, debt_left};

use crate::pace::{MOST_SLACK_TURNS, Pace};

/// The most that is owed, however much was claimed.
pub const MOST_OWED: u64 = 1 << 63;

/// Asks for so many turns for each fragment that was claimed, and owes what it couldn't ask for at once.
#[derive(Debug, Drop)]
pub struct Debt {
    rate: u64,
    /// The turns that it hasn't asked for yet.
    pub owed: u64,
}

impl Debt {
    /// A pace that owes nothing, and asks for `rate` turns for each fragment that is claimed.
    pub fn make(rate: u64) -> Debt
        ensures rate { result.rate ≡ rate }
        ensures owed { result.owed ≡ 0 }
    {
        Debt { rate, owed: 0 }
    }
}

impl Pace for Debt {
    ghost asks = { λ debt claimed. debt_turns debt.rate debt.owed claimed };

    ghost kept = { λ debt. debt.owed ∷ [] };

    ghost came = { λ debt claimed kept. kept ≡ debt_left debt.rate debt.owed claimed ∷ [] };

    fn turns(&mut self, claimed: u64) -> u64
        ensures asks { result ≡ debt_turns self.old.rate self.old.owed claimed }
        ensures most { result ≤ most_slack_turns }
        ensures owed { self.new.owed ≡ debt_left self.old.rate self.old.owed claimed }
        ensures rate { self.new.rate ≡ self.old.rate }
    {
        let due = self
            .owed
            .saturating_add(self.rate.saturating_mul(claimed))
            .min(MOST_OWED);
        let asked = due.min(MOST_SLACK_TURNS);
        self.owed = due - asked;
        asked
    }
}
