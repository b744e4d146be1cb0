ghost use Rattle.std.specs.Prelude.{◌≡◌, ◌==◌, option_copied};
ghost use Rattle.std.specs.Iterator.{YieldsFirstRef, item_count};
ghost use Rattle.std.specs.List.{slice_split};
ghost use Rattle.script_text.specs.Left.{parts_left};
ghost use Rattle.script_text.specs.Text.{lines_of, words_of};

use crate::cut::cut;
use std::marker::Model;

/// The parts of a text between marks that are still to be read, one after the other.
#[derive(Drop)]
pub struct Parts<'a> {
    rest: Option<&'a [u8]>,
    mark: u8,
}

impl<'a> Model for Parts<'a> {
    ghost use Rattle.std.specs.Prelude.{◌==◌, List, ℕ, option_copied};
    ghost use Rattle.std.specs.List.{slice_split};
    ghost use Rattle.script_text.specs.Left.{parts_left};

    ghost Value = { List (List ℕ) };

    ghost view = { λ p. parts_left (slice_split (λ b. b == p.mark)) (option_copied p.rest) };
}

/// The text but for a line feed at its end, if there is a text.
fn without_last_feed(text: &[u8]) -> Option<&[u8]>
    ensures { lines_of text.now ≡ parts_left (slice_split (λ b. b == 10)) (option_copied result) }
{
    if text.is_empty() {
        return None;
    }
    Some(text.strip_suffix(b"\n".as_slice()).unwrap_or(text))
}

impl<'a> Parts<'a> {
    /// The lines of a text.
    pub fn lines(text: &'a [u8]) -> Parts<'a>
        ensures { result ≡ lines_of text.now }
    {
        Parts {
            rest: without_last_feed(text),
            mark: b'\n',
        }
    }

    /// The words of a line.
    pub fn words(line: &'a [u8]) -> Parts<'a>
        ensures { result ≡ words_of line.now }
    {
        Parts {
            rest: Some(line),
            mark: b' ',
        }
    }
}

impl<'a> Iterator for Parts<'a> {
    type Item = &'a [u8];

    ghost next_gives = { YieldsFirstRef (λ p. p) };

    ghost remaining = { item_count (λ p. p) };

    fn next(&mut self) -> Option<&'a [u8]> {
        let (part, rest) = cut(self.rest?, self.mark);
        self.rest = rest;
        Some(part)
    }
}
