ghost use Rattle.std.specs.Prelude.{◌≡◌, true, IfOk, IfNone, IfSome, map};
ghost use Rattle.clap.specs.Words.{app_of, found_of, is_simple_and_free, matches_of, rows_of};
ghost use Rattle.form_words.specs.Joined.{are_apart, is_joined};
ghost use Rattle.form_words.specs.Matched.{Takes};

use clap::error::ErrorKind;
use clap::{ArgMatches, Command};
use heap_model::Memory;

/// Whether the word ends the options, or is an option with its value in the same word: a form has neither.
fn is_joined(word: &str) -> bool
    ensures { result ≡ is_joined word.now }
{
    match word.as_bytes() {
        [b'-', b'-', name @ ..] => name.is_empty() || name.contains(&b'='),
        _ => false,
    }
}

/// Whether no word is one of those.
fn are_apart(words: &[&str]) -> bool
    ensures { result ≡ are_apart (map (λ w. w.now) words.now) }
{
    words.iter().all(|word| !is_joined(word))
}

/// What the command finds in the words, where it takes them.
pub fn matches_in<'a>(
    command: Command<'a>,
    words: &'a [&'a str],
) -> Result<Option<ArgMatches<'a>>, Memory>
    requires { is_simple_and_free (app_of command) ≡ true }
    ensures some { IfOk result (λ found. IfSome found (λ matches.
        Takes (app_of command.entry) (map (λ w. w.now) words.entry.now)
        × (rows_of (found_of matches) ≡ matches_of (app_of command.entry) (map (λ w. w.now) words.entry.now)))) }
    ensures none { IfOk result (λ found. IfNone found (¬ Takes (app_of command.entry) (map (λ w. w.now) words.entry.now))) }
{
    if !are_apart(words) {
        return Ok(None);
    }
    match command.try_get_matches_from(words) {
        Ok(matches) => Ok(Some(matches)),
        Err(error) if error.kind() == ErrorKind::OutOfMemory => Err(Memory),
        Err(_) => Ok(None),
    }
}
