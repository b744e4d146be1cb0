ghost use Rattle.std.specs.Prelude.{◌≡◌, IfOk, false};
ghost use Rattle.clap.specs.Words.{app_of, rule_of};
ghost use Rattle.form_words.specs.Commands.{bare_app, make_app, number_rule, plain_rule, play_app, run_app, valued_rule};

use clap::{Arg, ArgAction, Command};
use std::alloc::{AllocError, Global};

/// A command that takes what it is given alone: no help, no version, and no word for the program.
fn bare_command<'a>(alloc: Global, name: &'a str) -> Command<'a>
    ensures { app_of result ≡ bare_app name.entry.now }
{
    Command::new(alloc, name)
        .no_binary_name(true)
        .disable_help_flag(true)
        .disable_version_flag(true)
}

/// The option `--name` with a value behind it.
fn valued_option<'a>(alloc: Global, name: &'a str) -> Arg<'a>
    ensures rule { rule_of result ≡ valued_rule name.entry.now }
    ensures own { result.global ≡ false }
{
    Arg::new(alloc, name).long(name)
}

/// The option `--name` by itself.
fn plain_option<'a>(alloc: Global, name: &'a str) -> Arg<'a>
    ensures rule { rule_of result ≡ plain_rule name.entry.now }
    ensures own { result.global ≡ false }
{
    Arg::new(alloc, name).long(name).action(ArgAction::SetTrue)
}

/// A word at its position that has to be there.
fn number<'a>(alloc: Global, name: &'a str) -> Arg<'a>
    ensures rule { rule_of result ≡ number_rule name.entry.now }
    ensures own { result.global ≡ false }
{
    Arg::new(alloc, name).required(true)
}

/// What stands behind the word of a play.
pub fn play_command<'a>(alloc: Global) -> Result<Command<'a>, AllocError>
    ensures { IfOk result (λ command. app_of command ≡ play_app) }
{
    bare_command(alloc, "play")
        .arg(valued_option(alloc, "pace"))?
        .arg(plain_option(alloc, "brief"))?
        .arg(plain_option(alloc, "press"))
}

/// What stands behind the word of a run.
pub fn run_command<'a>(alloc: Global) -> Result<Command<'a>, AllocError>
    ensures { IfOk result (λ command. app_of command ≡ run_app) }
{
    bare_command(alloc, "run")
        .arg(valued_option(alloc, "pace"))?
        .arg(plain_option(alloc, "locked"))?
        .arg(valued_option(alloc, "patience"))
}

/// What stands behind the word of a making.
pub fn make_command<'a>(alloc: Global) -> Result<Command<'a>, AllocError>
    ensures { IfOk result (λ command. app_of command ≡ make_app) }
{
    bare_command(alloc, "make")
        .arg(number(alloc, "start"))?
        .arg(number(alloc, "seats"))?
        .arg(number(alloc, "lines"))
}
