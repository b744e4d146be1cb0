ghost use Rattle.std.specs.Prelude.{◌≡◌, ◌≢◌, IfSome, IfNone};
ghost use Rattle.form_words.specs.Settings.{pace_word};
ghost use Rattle.form_words.specs.declared.pace.PaceName.{PaceName as APaceName};

/// A pace of the collector, as words name it.
#[derive(Clone, Copy, Debug, PartialEq, Eq)]
pub enum PaceName {
    /// So many turns behind each line of a seat, and some more for each fragment that it claimed.
    Steady,
    /// Turns for each fragment that a line claimed alone; those that can't be asked for at once are owed.
    Debt,
}

impl PaceName {
    /// The pace that the word names.
    pub fn of(word: &str) -> Option<PaceName>
        ensures some { IfSome result (λ name. word.now ≡ pace_word name) }
        ensures none { IfNone result ((name : APaceName) → word.now ≢ pace_word name) }
    {
        match word {
            "steady" => Some(PaceName::Steady),
            "debt" => Some(PaceName::Debt),
            _ => None,
        }
    }
}
