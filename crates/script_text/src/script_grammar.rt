ghost use Rattle.std.specs.Prelude.{◌≡◌, ◌<◌, IfNone, IfSome, OnSome, decimal, false, true};
ghost use Rattle.script_text.specs.Grammar.{IsLine};
ghost use Rattle.script_text.specs.LineFaults.{is_below, is_collector, script_judge};
ghost use Rattle.script_text.specs.Words.{line_words, script_header};

use crate::cause::Cause;
use crate::command::read_command;
use crate::command_set::CommandSet;
use crate::grammar::Grammar;
use crate::number::read_short;
use crate::parts::Parts;
use crate::preamble::Preamble;
use crate::script::{Form, Line};
use crate::turn::read_turns;
use heap_model::Heap;

/// The number below the limit that the word is.
pub fn read_below(word: &[u8], limit: u16) -> Option<u16>
    ensures found { IfSome result (λ n. word.now ≡ decimal n) }
    ensures below { IfSome result (λ n. n < limit) }
    ensures some { OnSome result (is_below limit word.now ≡ true) }
    ensures none { IfNone result (is_below limit word.now ≡ false) }
{
    let Some(number) = read_short(word) else {
        return None;
    };
    if number < u64::from(limit) {
        Some(number as u16)
    } else {
        None
    }
}

/// Whether the word is the collector's in a script of this form.
fn is_turns(word: &[u8], form: Form) -> bool
    ensures { result ≡ is_collector form word.now }
{
    match form {
        Form::Play => word == b"c".as_slice(),
        Form::Run => false,
    }
}

/// The grammar of scripts of this form.
#[derive(Clone, Copy)]
pub struct ScriptGrammar {
    pub form: Form,
}

impl Grammar for ScriptGrammar {
    type Line = Line;

    ghost judge = { λ g. script_judge g.form };

    ghost header = { λ _. script_header };

    ghost line_words = { λ _. line_words };

    ghost may_follow = { λ g. IsLine g.form };

    fn version_of(&self, first: &[u8]) -> Option<u8> {
        if first == b"schism 1".as_slice() {
            return Some(1);
        }
        if first == b"schism 2".as_slice() {
            return Some(2);
        }
        None
    }

    fn takes(&self, _heap: &Heap) -> bool {
        true
    }

    fn read_front(&self, words: &mut Parts<'_>, preamble: &Preamble) -> Result<Line, Cause> {
        let Some(word) = words.next() else {
            return Err(Cause::NoSeat);
        };
        if let Some(seat) = read_below(word, preamble.heap.seats.into()) {
            let command = read_command(words, CommandSet::of_version(preamble.version))?;
            let seat = seat as u8;
            return Ok(Line::Seat { seat, command });
        }
        if !is_turns(word, self.form) {
            return Err(Cause::NoSeat);
        }
        let command = read_turns(words)?;
        Ok(Line::Turns { command })
    }
}
