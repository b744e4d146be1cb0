ghost use Rattle.std.specs.Prelude.{◌≡◌, ◌≤◌, [], ℕ, Some, decimal, Bool as ABool, Option as AnOption, true, codes, map, IfNone, IfOk, IfSome};
ghost use Rattle.clap.specs.Words.{app_of, first_of, found_of, is_simple_and_free, rows_of};
ghost use Rattle.form_words.specs.Matched.{FindsMaking, FindsSettings};
ghost use Rattle.form_words.specs.Works.{most_bytes, form_word, AskFor, Completes, IsForm, IsWork, HasInput};
ghost use Rattle.form_words.specs.declared.kind.TextKind.{TextKind as AKind};
ghost use Rattle.form_words.specs.declared.pace.PaceName.{PaceName as APaceName};
ghost use Rattle.form_words.specs.declared.setting.Settings.{Settings as AreGiven};
ghost use Rattle.form_words.specs.declared.work.Work.TheVariants as works;

use crate::command::{make_command, play_command, run_command};
use crate::kind::TextKind;
use crate::matching::matches_in;
use crate::pace::PaceName;
use crate::range::number_in;
use crate::setting::Settings;
use clap::{ArgMatches, Command};
use heap_model::Memory;
use heap_model::limits::MOST_SEATS;
use script_text::{MOST_MADE_LINES, MOST_START};
use std::alloc::Global;

/// The most bytes of a script that is played or run, and of a crew's or a queue's text.
pub const MOST_SCRIPT: usize = 1_048_576;

/// The most bytes of a history that is checked, or by which space is planned.
pub const MOST_HISTORY: usize = 16_777_216;

/// The most bytes of a script that is migrated, so that what is written may be played and run.
pub const MOST_MIGRATED_SCRIPT: usize = 1_048_572;

/// The most bytes of a history that is migrated, so that what is written may be checked.
pub const MOST_MIGRATED_HISTORY: usize = 16_777_212;

/// How often a seat of a run finds another one behind before it answers that its collect waits, where the words don't say.
const USUAL_PATIENCE: u32 = 1_000;

/// What the program does.
#[derive(Clone, Copy, Debug, PartialEq, Eq)]
pub enum Work {
    /// Plays a script, with a pace or with none, and tells the play's history or its brief. Where it presses, a seat
    /// collects when a command of it is refused for want of space, and makes that again.
    Play {
        pace: Option<PaceName>,
        brief: bool,
        press: bool,
    },
    /// Runs a script, each seat on a thread of its own, and tells the run's history.
    Run {
        pace: PaceName,
        locked: bool,
        patience: u32,
    },
    /// Checks a history.
    Check,
    /// Plans the space for a play by its history.
    Plan,
    /// Makes a script.
    Make {
        start: u32,
        seats: u8,
        lines: u32,
    },
    /// Writes a text of either version as the same in version 2.
    Migrate(TextKind),
    /// Runs the jobs of a crew's text on its seats, and tells each job's run, or the history of the whole.
    Crew {
        history: bool,
    },
    /// Runs the puts and takes of a queue's text on its seats, and tells what each came to.
    Queue,
}

/// The settings that the command finds in the words, where it takes them and each value is one.
fn settings_by<'a>(command: Command<'a>, words: &'a [&'a str]) -> Result<Option<Settings>, Memory>
    requires { is_simple_and_free (app_of command) ≡ true }
    ensures some { IfOk result (λ found. IfSome found (FindsSettings (app_of command.entry) (map (λ w. w.now) words.entry.now))) }
    ensures none { IfOk result (λ found. IfNone found ((all : AreGiven) → ¬ FindsSettings (app_of command.entry) (map (λ w. w.now) words.entry.now) all)) }
{
    match matches_in(command, words)? {
        Some(matches) => Ok(Settings::of(&matches)),
        None => Ok(None),
    }
}

/// The play that the words behind the form's ask for.
fn play_of<'a>(alloc: Global, words: &'a [&'a str]) -> Result<Option<Work>, Memory>
    ensures some { IfOk result (λ found. IfSome found (λ work. (form_word work ≡ codes "play") × Completes (map (λ w. w.now) words.entry.now) work)) }
    ensures none { IfOk result (λ found. IfNone found ((pace : AnOption APaceName) (brief press : ABool) → ¬ Completes (map (λ w. w.now) words.entry.now) (works.Play pace brief press))) }
{
    let command = play_command(alloc)?;
    let Some(settings) = settings_by(command, words)? else {
        return Ok(None);
    };
    Ok(Some(Work::Play {
        pace: settings.pace,
        brief: settings.brief,
        press: settings.press,
    }))
}

/// The run that the words behind the form's ask for.
fn run_of<'a>(alloc: Global, words: &'a [&'a str]) -> Result<Option<Work>, Memory>
    ensures some { IfOk result (λ found. IfSome found (λ work. (form_word work ≡ codes "run") × Completes (map (λ w. w.now) words.entry.now) work)) }
    ensures none { IfOk result (λ found. IfNone found ((pace : APaceName) (locked : ABool) (patience : ℕ) → ¬ Completes (map (λ w. w.now) words.entry.now) (works.Run pace locked patience))) }
{
    let command = run_command(alloc)?;
    let Some(settings) = settings_by(command, words)? else {
        return Ok(None);
    };
    Ok(Some(Work::Run {
        pace: settings.pace.unwrap_or(PaceName::Steady),
        locked: settings.locked,
        patience: settings.patience.unwrap_or(USUAL_PATIENCE),
    }))
}

/// The work, where no words stand behind its form's.
fn alone(work: Work, words: &[&str]) -> Option<Work>
    ensures some { IfSome result (λ found. (found ≡ work) × (words.now ≡ [])) }
    ensures none { IfNone result (¬ (words.now ≡ [])) }
{
    if words.is_empty() { Some(work) } else { None }
}

/// The number at the position, in the range with both ends.
fn number_at(matches: &ArgMatches, position: &str, least: u32, most: u32) -> Option<u32>
    ensures some { IfSome result (λ n. (first_of position.now (rows_of (found_of matches.now)) ≡ Some (decimal n)) × (least ≤ n) × (n ≤ most)) }
    ensures none { IfNone result ((n : ℕ) → first_of position.now (rows_of (found_of matches.now)) ≡ Some (decimal n) → least ≤ n → n ≤ most → ⊥) }
{
    let word = matches.get_str(position)?;
    number_in(word, least, most)
}

/// The making by the words at the three positions, where each is a number in its range.
fn making_in(matches: &ArgMatches) -> Option<Work>
    ensures some { IfSome result (λ work. (form_word work ≡ codes "make") × FindsMaking (rows_of (found_of matches.now)) work) }
    ensures none { IfNone result ((start seats lines : ℕ) → ¬ FindsMaking (rows_of (found_of matches.now)) (works.Make start seats lines)) }
{
    let start = number_at(matches, "start", 0, MOST_START)?;
    let seats = number_at(matches, "seats", 1, u32::from(MOST_SEATS))?;
    let lines = number_at(matches, "lines", 0, MOST_MADE_LINES)?;
    Some(Work::Make {
        start,
        seats: seats as u8,
        lines,
    })
}

/// The making of a script that the words behind the form's ask for.
fn make_of<'a>(alloc: Global, words: &'a [&'a str]) -> Result<Option<Work>, Memory>
    ensures some { IfOk result (λ found. IfSome found (λ work. (form_word work ≡ codes "make") × Completes (map (λ w. w.now) words.entry.now) work)) }
    ensures none { IfOk result (λ found. IfNone found ((start seats lines : ℕ) → ¬ Completes (map (λ w. w.now) words.entry.now) (works.Make start seats lines))) }
{
    let command = make_command(alloc)?;
    match matches_in(command, words)? {
        Some(matches) => Ok(making_in(&matches)),
        None => Ok(None),
    }
}

/// The migration that the words behind the form's ask for.
fn migrate_of(words: &[&str]) -> Option<Work>
    ensures some { IfSome result (λ work. (form_word work ≡ codes "migrate") × Completes (map (λ w. w.now) words.now) work) }
    ensures none { IfNone result ((kind : AKind) → ¬ Completes (map (λ w. w.now) words.now) (works.Migrate kind)) }
{
    let Some((word, rest)) = words.split_first() else {
        return None;
    };
    let Some(kind) = TextKind::of(word) else {
        return None;
    };
    alone(Work::Migrate(kind), rest)
}

/// The run of a crew that the words behind the form's ask for.
fn crew_of(words: &[&str]) -> Option<Work>
    ensures some { IfSome result (λ work. (form_word work ≡ codes "crew") × Completes (map (λ w. w.now) words.now) work) }
    ensures none { IfNone result ((history : ABool) → ¬ Completes (map (λ w. w.now) words.now) (works.Crew history)) }
{
    let Some((word, rest)) = words.split_first() else {
        return Some(Work::Crew { history: false });
    };
    if *word != "--history" {
        return None;
    }
    alone(Work::Crew { history: true }, rest)
}

impl Work {
    /// The work that the words after the program's name ask for: none, where they are no form.
    pub fn of<'a>(alloc: Global, words: &'a [&'a str]) -> Result<Option<Work>, Memory>
        ensures some { IfOk result (λ found. IfSome found (AskFor (map (λ w. w.now) words.entry.now))) }
        ensures none { IfOk result (λ found. IfNone found (¬ IsForm (map (λ w. w.now) words.entry.now))) }
        ensures range { IfOk result (λ found. IfSome found IsWork) }
    {
        let Some((form, rest)) = words.split_first() else {
            return Ok(None);
        };
        match *form {
            "play" => play_of(alloc, rest),
            "run" => run_of(alloc, rest),
            "check" => Ok(alone(Work::Check, rest)),
            "plan" => Ok(alone(Work::Plan, rest)),
            "make" => make_of(alloc, rest),
            "migrate" => Ok(migrate_of(rest)),
            "crew" => Ok(crew_of(rest)),
            "queue" => Ok(alone(Work::Queue, rest)),
            _ => Ok(None),
        }
    }

    /// The most bytes of an input, where the work has one.
    pub fn most_bytes(self) -> Option<usize>
        ensures some { IfSome result (λ most. HasInput self × (most ≡ most_bytes self)) }
        ensures none { IfNone result (¬ HasInput self) }
    {
        match self {
            Work::Play { .. } | Work::Run { .. } | Work::Crew { .. } | Work::Queue => {
                Some(MOST_SCRIPT)
            }
            Work::Check | Work::Plan => Some(MOST_HISTORY),
            Work::Make { .. } => None,
            Work::Migrate(TextKind::Script) => Some(MOST_MIGRATED_SCRIPT),
            Work::Migrate(TextKind::History) => Some(MOST_MIGRATED_HISTORY),
        }
    }
}
