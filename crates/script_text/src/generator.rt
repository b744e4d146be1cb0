ghost use Rattle.std.specs.Prelude.{◌≡◌, ◌<◌, ◌≤◌, ◌^◌};
ghost use Rattle.script_text.specs.Generator.{next_state, draw};
ghost use Rattle.script_text.specs.Made.{most_start};

use std::marker::Model;

const MULTIPLIER: u64 = 1_103_515_245;

const INCREMENT: u64 = 12_345;

const MODULUS: u64 = 1 << 31;

/// Numbers that look drawn by chance, and are the same each time from the same start.
#[derive(Drop)]
pub struct Generator {
    state: u32,
}

impl Model for Generator {
    ghost use Rattle.std.specs.Prelude.{ℕ, ◌<◌, ◌^◌};

    ghost Value = { ℕ };

    ghost view = { λ g. g.state };

    ghost invariant = { λ g. g.state < 2 ^ 31 };
}

impl Generator {
    pub fn new(start: u32) -> Generator
        requires { start ≤ most_start }
        ensures { result ≡ start }
    {
        Generator { state: start }
    }

    /// The next number, of 15 bits.
    #[tactic(auto, unfolding(crate::specs::Generator::next_state))]
    pub fn draw(&mut self) -> u32
        ensures state { self.new ≡ next_state self.old }
        ensures drawn { result ≡ draw 1 self.old }
        ensures small { result < 2 ^ 15 }
    {
        let next = (MULTIPLIER * u64::from(self.state) + INCREMENT) % MODULUS;
        self.state = next as u32;
        self.state / 65_536
    }
}
