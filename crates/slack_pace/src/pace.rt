ghost use Rattle.std.specs.Prelude.{◌≡◌, ◌≤◌, ℕ, List};
ghost use Rattle.slack_pace.specs.Slack.{most_slack_turns};

/// The most turns that a pace asks for at once.
pub const MOST_SLACK_TURNS: u64 = 4096;

/// Says how many turns the collector makes after a command.
pub trait Pace: Send + Drop {
    /// How many turns it asks for now, by how many fragments were claimed.
    ghost asks: { Self → ℕ → ℕ };

    /// What it keeps of the claims with which it was asked.
    ghost kept: { Self → List ℕ };

    /// What it keeps once it was asked one time more, by how many fragments were claimed.
    ghost came: { Self → ℕ → List ℕ → Type 0 };

    /// For how many turns it asks where so many fragments were claimed since it was last asked.
    fn turns(&mut self, claimed: u64) -> u64
        ensures asks { result ≡ asks self.old claimed }
        ensures most { result ≤ most_slack_turns }
        ensures came { came self.old claimed (kept self.new) };
}

/// The paces that a program has to choose from.
#[derive(Drop)]
pub struct Paces {
    pub steady: Box<dyn Pace>,
    pub debt: Box<dyn Pace>,
}
