ghost use Rattle.std.specs.Prelude.{◌≡◌, []};
ghost use Rattle.slack_pace.specs.Slack.{steady_turns};

use crate::pace::{MOST_SLACK_TURNS, Pace};

/// Asks for 16 turns, and for 8 more for each fragment that was claimed, up to the most.
#[derive(Debug, Drop)]
pub struct Steady;

impl Pace for Steady {
    ghost asks = { λ _ claimed. steady_turns claimed };

    ghost kept = { λ _. [] };

    ghost came = { λ _ _ kept. kept ≡ [] };

    fn turns(&mut self, claimed: u64) -> u64 {
        claimed
            .saturating_mul(8)
            .saturating_add(16)
            .min(MOST_SLACK_TURNS)
    }
}
