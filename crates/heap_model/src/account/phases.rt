ghost use Rattle.std.specs.Prelude.{◌≡◌, ◌≢◌, ◌<◌, ◌≤◌, ◌+◌, ◌*◌, ◌^◌, ◌↔◌, false, List, IsTrue, IfSome, is_some};
ghost use Rattle.heap_model.specs.declared.entry.Entry.{Entry as Entries};
ghost use Rattle.heap_model.specs.declared.entry.Entry.TheVariants as entries;

use crate::account::Account;
use crate::behind::Behind;
use crate::command::Command;
use crate::phase_plan::{BARRIERS, CYCLE_PHASES, REST};
use crate::reply::{Reply, TurnReply};

impl Account {
    ghost use Rattle.heap_model.specs.account.Books.{Tells, IsUpToDate};
    ghost use Rattle.heap_model.specs.account.SeatBooks.{account_at, first_behind, last_phase};
    ghost use Rattle.heap_model.specs.account.Phases.{AnswersPhase, BeginsPhase, IsBehind, WasBehind, SawBehind, ShowsWait, ShowsTurnWait, ShowsPhases, TurnShows};
    ghost use Rattle.heap_model.specs.account.PhaseCounts.{AllAnswered, HasEnded, BeganSince};

    pub(super) fn may_answer(&self, seat: u8, phase: u64) -> bool
        requires { seat < self.now.heap.seats }
        ensures { (history : List Entries) → Tells self.now history → (IsTrue result ↔ AnswersPhase history (entries.Answers seat phase)) }
    {
        let own = self.seat(seat);
        phase == self.all.phases && phase > 0 && own.own.answers == phase - 1
    }

    pub(super) fn may_begin(&self, phase: u64) -> bool
        ensures { (history : List Entries) → Tells self.now history → (IsTrue result ↔ BeginsPhase self.now.heap history (entries.Advance phase)) }
    {
        phase > 0
            && phase - 1 == self.all.phases
            && phase % CYCLE_PHASES != REST
            && self.all_answered()
    }

    pub(super) fn all_answered(&self) -> bool
        ensures { (history : List Entries) → Tells self.now history → (IsTrue result ↔ AllAnswered self.now.heap history) }
    {
        for seat in 0..self.heap.seats {
            if !self.has_answered(seat) {
                return false;
            }
        }
        true
    }

    /// Whether the seat has answered the phase or left.
    fn has_answered(&self, seat: u8) -> bool
        requires { seat < self.now.heap.seats }
        ensures { IsTrue result ↔ IsUpToDate self.now seat }
    {
        let own = self.seat(seat);
        own.left.is_some() || own.own.answers == self.all.phases
    }

    pub(super) fn shows_phases(&self, play: bool, seat: u8, command: Command, reply: Reply) -> bool
        requires { seat < self.now.heap.seats }
        ensures { (history : List Entries) → Tells self.now history → (IsTrue result ↔ ShowsPhases self.now.heap play history seat command reply) }
    {
        match (command, reply) {
            (Command::Poll, Reply::Phase(phase)) => {
                phase == self.all.phases && phase == self.seat(seat).own.answers
            }
            (Command::Collect, Reply::Cycle(cycle)) => {
                self.has_ended(cycle) && self.began_since(seat, cycle)
            }
            (Command::Collect, _) => self.shows_wait(play, seat, reply.behind()),
            _ => true,
        }
    }

    /// Whether the seat that a collect tells to be waited for, where it tells one, is another one and was seen to be behind.
    fn shows_wait(&self, play: bool, seat: u8, found: Option<Behind>) -> bool
        requires { seat < self.now.heap.seats }
        ensures { (history : List Entries) → Tells self.now history → (IsTrue result ↔ IfSome found (ShowsWait self.now.heap play history seat)) }
    {
        let Some(behind) = found else {
            return true;
        };
        behind.seat < self.heap.seats
            && behind.seat != seat
            && behind.answered < behind.phase
            && self.saw_behind(play, seat, &behind)
    }

    pub(super) fn turn_shows(&self, reply: TurnReply) -> bool
        ensures { (history : List Entries) → Tells self.now history → (IsTrue result ↔ TurnShows self.now.heap history reply) }
    {
        match reply {
            TurnReply::Cycle(cycle) => self.ended == Some(cycle),
            TurnReply::Done | TurnReply::Waits { .. } => self.shows_turn_wait(reply.behind()),
        }
    }

    /// Whether the seat that the collector tells to be waited for, where it tells one, is behind.
    fn shows_turn_wait(&self, found: Option<Behind>) -> bool
        ensures { (history : List Entries) → Tells self.now history → (IsTrue result ↔ IfSome found (ShowsTurnWait self.now.heap history)) }
    {
        let Some(behind) = found else {
            return true;
        };
        behind.seat < self.heap.seats && behind.answered < behind.phase && self.is_behind(&behind)
    }

    fn has_ended(&self, cycle: u64) -> bool
        ensures { (history : List Entries) → Tells self.now history → (IsTrue result ↔ HasEnded cycle history) }
    {
        cycle < self.all.phases / CYCLE_PHASES
    }

    fn began_since(&self, seat: u8, cycle: u64) -> bool
        requires { seat < self.now.heap.seats }
        ensures { (history : List Entries) → Tells self.now history → (IsTrue result ↔ BeganSince seat cycle history) }
    {
        let begin = CYCLE_PHASES as u128 * cycle as u128 + BARRIERS as u128;
        let then = self.seat(seat);
        (then.all_then.phases as u128) < begin && begin <= self.all.phases as u128
    }

    fn is_behind(&self, behind: &Behind) -> bool
        requires { behind.now.seat < self.now.heap.seats }
        ensures { (history : List Entries) → Tells self.now history → (IsTrue result ↔ IsBehind behind.now.seat behind.now.answered behind.now.phase history) }
    {
        let own = self.seat(behind.seat);
        own.left.is_none() && own.own.answers == behind.answered && self.all.phases == behind.phase
    }

    fn saw_behind(&self, play: bool, seat: u8, other: &Behind) -> bool
        requires seat { seat < self.now.heap.seats }
        requires other { other.now.seat < self.now.heap.seats }
        requires not_own { other.now.seat ≢ seat }
        requires behind { other.now.answered < other.now.phase }
        ensures { (history : List Entries) → Tells self.now history → (IsTrue result ↔ SawBehind play history seat other.now) }
    {
        if play {
            self.is_behind(other)
        } else {
            other.phase - 1 == other.answered && self.was_behind(seat, other.seat, other.answered)
        }
    }

    /// Whether the other seat was one phase behind at some position since the seat's last reply.
    fn was_behind(&self, seat: u8, other: u8, answered: u64) -> bool
        requires seat { seat < self.now.heap.seats }
        requires other { other < self.now.heap.seats }
        requires not_own { other ≢ seat }
        ensures { (history : List Entries) → Tells self.now history → (IsTrue result ↔ WasBehind seat other answered (answered + 1) history) }
    {
        let phase = answered as u128 + 1;
        self.first_behind(seat, other) <= phase && phase <= self.last_phase(other) as u128
    }

    fn first_behind(&self, seat: u8, other: u8) -> u128
        requires seat { seat < self.now.heap.seats }
        requires other { other < self.now.heap.seats }
        ensures first { result ≡ first_behind (account_at self.now.seats seat) other }
        ensures fits { result < 2 ^ 66 }
    {
        let _ = &self.heap;
        let then = self.seat(seat);
        if then.behind_then[other as usize] {
            then.all_then.phases as u128
        } else {
            then.all_then.phases as u128 + 1
        }
    }

    pub(super) fn last_phase(&self, seat: u8) -> u64
        requires { seat < self.now.heap.seats }
        ensures { result ≡ last_phase (account_at self.now.seats seat) self.now.all.phases }
    {
        let own = self.seat(seat);
        own.left.unwrap_or(self.all.phases)
    }
}
