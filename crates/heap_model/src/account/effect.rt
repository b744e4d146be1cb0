ghost use Rattle.std.specs.Prelude.{◌≡◌, ◌^◌, ◌<◌, ◌≤◌, length};

use crate::command::Command;
use crate::entry::Entry;
use crate::reply::Reply;

/// What an entry does, or what many entries come to: the fragments that are taken from the heap, given back, made into
/// objects and freed, the spine words of the arrays that are made and those that are returned, the phases that begin,
/// and the answers to phases.
#[derive(Clone, Copy, Debug, PartialEq, Eq)]
pub struct Effect {
    pub taken: u64,
    pub given: u64,
    pub born: u64,
    pub freed: u64,
    pub words: u64,
    pub returned: u64,
    pub phases: u64,
    pub answers: u64,
}

impl Effect {
    ghost use Rattle.heap_model.specs.account.Effects.{no_effect, effect_of};
    ghost use Rattle.heap_model.specs.Needs.{made_by, words_by};
    ghost use Rattle.heap_model.specs.account.Space.{total};
    ghost use Rattle.heap_model.specs.account.Sums.{IsFew, IsMeasured, plus};

    pub(crate) const NONE: Effect = Effect {
        taken: 0,
        given: 0,
        born: 0,
        freed: 0,
        words: 0,
        returned: 0,
        phases: 0,
        answers: 0,
    };

    /// What these entries come to together.
    pub fn of_all(entries: &[Entry]) -> Effect
        requires { length entries.now < 2 ^ 32 }
        ensures sums { IsMeasured result (λ summand. total summand entries.now) }
        ensures few { IsFew (length entries.now) result }
    {
        let mut all = Effect::NONE;
        for entry in entries {
            all = all.plus(Effect::of(entry));
        }
        all
    }

    /// What the entry does.
    pub fn of(entry: &Entry) -> Effect
        ensures exact { result ≡ effect_of entry.now }
        ensures few { IsFew 1 result }
    {
        match *entry {
            Entry::Said { command, reply, .. } => Effect::of_reply(command, reply),
            Entry::Takes { count, .. } => Effect {
                taken: count as u64,
                ..Effect::NONE
            },
            Entry::GivesBack { count, .. } => Effect {
                given: count as u64,
                ..Effect::NONE
            },
            Entry::Answers { .. } => Effect {
                answers: 1,
                ..Effect::NONE
            },
            Entry::Frees(count) => Effect {
                freed: count as u64,
                ..Effect::NONE
            },
            Entry::Returns(count) => Effect {
                returned: count as u64,
                ..Effect::NONE
            },
            Entry::Advance(_) | Entry::Ends { .. } => Effect {
                phases: 1,
                ..Effect::NONE
            },
            Entry::Swings(_) | Entry::Turned { .. } => Effect::NONE,
        }
    }

    pub(crate) fn of_reply(command: Command, reply: Reply) -> Effect
        ensures exact { result ≡ record no_effect { born = made_by command reply; words = words_by command reply } }
        ensures few { IsFew 1 result }
    {
        match reply {
            Reply::Made(_) => Effect {
                born: command.need() as u64,
                words: command.spine_need() as u64,
                ..Effect::NONE
            },
            _ => Effect::NONE,
        }
    }

    pub(crate) fn plus(self, more: Effect) -> Effect
        requires few { IsFew 4294967295 self }
        requires one { IsFew 1 more }
        ensures { result ≡ plus self more }
    {
        Effect {
            taken: self.taken + more.taken,
            given: self.given + more.given,
            born: self.born + more.born,
            freed: self.freed + more.freed,
            words: self.words + more.words,
            returned: self.returned + more.returned,
            phases: self.phases + more.phases,
            answers: self.answers + more.answers,
        }
    }
}
