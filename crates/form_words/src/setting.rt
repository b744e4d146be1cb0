ghost use Rattle.std.specs.Prelude.{◌≡◌, ℕ, Option as AnOption, IfSome, IfNone};
ghost use Rattle.clap.specs.Words.{found_of, rows_of};
ghost use Rattle.form_words.specs.declared.setting.Settings.{Settings as AreGiven};
ghost use Rattle.form_words.specs.Matched.{HasFlags, HasPace, HasPatience, HasValues};
ghost use Rattle.form_words.specs.declared.pace.PaceName.{PaceName as APaceName};

use crate::pace::PaceName;
use crate::range::number_in;
use clap::ArgMatches;

/// The most often that a patience asks a seat to find another one behind.
pub const MOST_PATIENCE: u32 = 1_000_000;

/// Which settings were given.
#[derive(Clone, Copy, Debug, PartialEq, Eq)]
pub struct Settings {
    pub pace: Option<PaceName>,
    pub brief: bool,
    pub press: bool,
    pub locked: bool,
    pub patience: Option<u32>,
}

/// The pace that was given, where one is named.
fn pace_in(matches: &ArgMatches) -> Option<Option<PaceName>>
    ensures some { IfSome result (HasPace (rows_of (found_of matches.now))) }
    ensures none { IfNone result ((pace : AnOption APaceName) → ¬ HasPace (rows_of (found_of matches.now)) pace) }
{
    match matches.get_str("pace") {
        None => Some(None),
        Some(word) => Some(Some(PaceName::of(word)?)),
    }
}

/// The patience that was given, where it is one.
fn patience_in(matches: &ArgMatches) -> Option<Option<u32>>
    ensures some { IfSome result (HasPatience (rows_of (found_of matches.now))) }
    ensures none { IfNone result ((patience : AnOption ℕ) → ¬ HasPatience (rows_of (found_of matches.now)) patience) }
{
    match matches.get_str("patience") {
        None => Some(None),
        Some(word) => Some(Some(number_in(word, 1, MOST_PATIENCE)?)),
    }
}

impl Settings {
    /// The settings that were found, where each value is one.
    pub fn of(matches: &ArgMatches) -> Option<Settings>
        ensures some { IfSome result (HasValues (rows_of (found_of matches.now))) }
        ensures flags { IfSome result (HasFlags (rows_of (found_of matches.now))) }
        ensures none { IfNone result ((all : AreGiven) → ¬ HasValues (rows_of (found_of matches.now)) all) }
    {
        let pace = pace_in(matches)?;
        let patience = patience_in(matches)?;
        Some(Settings {
            pace,
            brief: matches.get_flag("brief"),
            press: matches.get_flag("press"),
            locked: matches.get_flag("locked"),
            patience,
        })
    }
}
