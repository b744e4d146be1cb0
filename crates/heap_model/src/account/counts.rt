ghost use Rattle.std.specs.Prelude.{◌≡◌, ◌<◌, ◌≤◌, ◌+◌, ◌*◌, ◌^◌, ◌↔◌, List, IsTrue};
ghost use Rattle.heap_model.specs.declared.entry.Entry.{Entry as Entries};
ghost use Rattle.heap_model.specs.declared.entry.Entry.TheVariants as entries;
ghost use Rattle.heap_model.specs.account.Account.{most_kept};

use crate::account::Account;
use crate::account::effect::Effect;
use crate::account::seat::SeatAccount;
use crate::command::Command;
use crate::limits::{GROUP_FRAGMENTS, MOST_RESERVE};
use crate::reply::Reply;

impl Account {
    ghost use Rattle.heap_model.specs.Board.{board_fragments};
    ghost use Rattle.heap_model.specs.Limits.{group_fragments};
    ghost use Rattle.heap_model.specs.account.Books.{Tells};
    ghost use Rattle.heap_model.specs.account.SeatBooks.{account_at};
    ghost use Rattle.heap_model.specs.account.Space.{total_but, words_returned};
    ghost use Rattle.heap_model.specs.account.Sums.{IsFew};
    ghost use Rattle.heap_model.specs.account.Windows.{since_reply};
    ghost use Rattle.heap_model.specs.account.Account.{TakesAndGives, MakesOfOwn};
    ghost use Rattle.heap_model.specs.account.Refusals.{given_up, ShowsSpace, ShowsSpine, FindsSpace, FindsSpine};

    pub(super) fn may_take(&self, seat: u8, count: u32) -> bool
        requires { seat < self.now.heap.seats }
        ensures { (history : List Entries) → Tells self.now history → (IsTrue result ↔ TakesAndGives self.now.heap history (entries.Takes seat count)) }
    {
        1 <= count && self.gained() + count as u128 <= self.room() + self.lost()
    }

    pub(super) fn may_give(&self, seat: u8, count: u32) -> bool
        requires { seat < self.now.heap.seats }
        ensures { (history : List Entries) → Tells self.now history → (IsTrue result ↔ TakesAndGives self.now.heap history (entries.GivesBack seat count)) }
    {
        let own = self.seat(seat);
        1 <= count && own.spent() + count as u128 <= own.taken()
    }

    pub(super) fn makes_of_own(&self, seat: u8, command: Command, reply: Reply) -> bool
        requires { seat < self.now.heap.seats }
        ensures { (history : List Entries) → Tells self.now history → (IsTrue result ↔ MakesOfOwn history (entries.Said seat command reply)) }
    {
        let own = self.seat(seat);
        let made = own.spent() + Effect::of_reply(command, reply).born as u128;
        made <= own.taken() && own.taken() <= made + most_kept(command)
    }

    pub(super) fn shows_space(&self, play: bool, seat: u8, command: Command, reply: Reply) -> bool
        requires { seat < self.now.heap.seats }
        ensures { (history : List Entries) → Tells self.now history → (IsTrue result ↔ ShowsSpace self.now.heap play history seat command reply) }
    {
        let Reply::Full { need, found } = reply else {
            return true;
        };
        need == command.need() && found < need && self.finds_space(play, seat, found)
    }

    fn finds_space(&self, play: bool, seat: u8, found: u32) -> bool
        requires { seat < self.now.heap.seats }
        ensures { (history : List Entries) → Tells self.now history → (IsTrue result ↔ FindsSpace self.now.heap play history seat found) }
    {
        let own = self.seat(seat);
        let shown = found as u128 + self.gained() + own.spent();
        let there = self.room() + self.lost() + own.taken();
        if play {
            shown == there
        } else {
            there <= shown + self.given_up(seat) && shown <= there + self.taken_by_others(seat)
        }
    }

    /// What was freed since the seat's last reply, and what others gave back.
    fn given_up(&self, seat: u8) -> u128
        requires { seat < self.now.heap.seats }
        ensures sum { (history : List Entries) → Tells self.now history → result ≡ given_up seat (since_reply seat history) }
        ensures fits { result < 2 ^ 66 }
    {
        let then = self.seat(seat);
        let all = self.all.freed as u128 + self.all.given as u128 + then.own_then.given as u128;
        all.saturating_sub(
            then.all_then.freed as u128 + then.all_then.given as u128 + then.own.given as u128,
        )
    }

    fn taken_by_others(&self, seat: u8) -> u128
        requires { seat < self.now.heap.seats }
        ensures sum { (history : List Entries) → Tells self.now history → result ≡ total_but seat (λ e. e.taken) (since_reply seat history) }
        ensures fits { result < 2 ^ 66 }
    {
        let then = self.seat(seat);
        let all = self.all.taken as u128 + then.own_then.taken as u128;
        all.saturating_sub(then.all_then.taken as u128 + then.own.taken as u128)
    }

    pub(super) fn shows_spine(&self, play: bool, seat: u8, command: Command, reply: Reply) -> bool
        requires { seat < self.now.heap.seats }
        ensures { (history : List Entries) → Tells self.now history → (IsTrue result ↔ ShowsSpine self.now.heap play history seat command reply) }
    {
        let Reply::SpineFull { need, used } = reply else {
            return true;
        };
        need == command.spine_need()
            && (self.heap.spine as u64) < used as u64 + need as u64
            && self.finds_spine(play, seat, used)
    }

    fn finds_spine(&self, play: bool, seat: u8, used: u32) -> bool
        requires { seat < self.now.heap.seats }
        ensures { (history : List Entries) → Tells self.now history → (IsTrue result ↔ FindsSpine self.now.heap play history seat used) }
    {
        let shown = used as u128 + self.all.returned as u128;
        let granted = self.all.words as u128;
        if play {
            shown == granted
        } else {
            let others = 1024 * (self.heap.seats as u128 - 1);
            granted <= shown + self.words_of_others(seat)
                && shown <= granted + self.returned_since(seat) + others
        }
    }

    fn words_of_others(&self, seat: u8) -> u128
        requires { seat < self.now.heap.seats }
        ensures sum { (history : List Entries) → Tells self.now history → result ≡ total_but seat (λ e. e.words) (since_reply seat history) }
        ensures fits { result < 2 ^ 66 }
    {
        let then = self.seat(seat);
        let all = self.all.words as u128 + then.own_then.words as u128;
        all.saturating_sub(then.all_then.words as u128 + then.own.words as u128)
    }

    fn returned_since(&self, seat: u8) -> u128
        requires { seat < self.now.heap.seats }
        ensures sum { (history : List Entries) → Tells self.now history → result ≡ words_returned (since_reply seat history) }
        ensures fits { result < 2 ^ 66 }
    {
        let then = self.seat(seat);
        (self.all.returned as u128).saturating_sub(then.all_then.returned as u128)
    }

    /// The fragments of the heap.
    pub(super) fn room(&self) -> u128
        ensures number { result ≡ group_fragments * self.now.heap.groups }
        ensures fits { result < 2 ^ 66 }
    {
        GROUP_FRAGMENTS as u128 * self.heap.groups as u128
    }

    pub(super) fn gained(&self) -> u128
        ensures sum { result ≡ board_fragments self.now.heap + self.now.all.taken }
        ensures fits { result < 2 ^ 66 }
    {
        self.heap.board_fragments() as u128 + self.all.taken as u128
    }

    pub(super) fn lost(&self) -> u128
        ensures sum { result ≡ self.now.all.given + self.now.all.freed }
        ensures fits { result < 2 ^ 66 }
    {
        self.all.given as u128 + self.all.freed as u128
    }

    pub(super) fn seat(&self, seat: u8) -> SeatAccount
        requires { seat < self.now.heap.seats }
        ensures kept { result ≡ account_at self.now.seats seat }
        ensures few { IsFew self.now.entries result.own }
    {
        self.seats[seat as usize]
    }
}

/// The most fragments that a seat keeps after this command.
fn most_kept(command: Command) -> u128
    ensures { result ≡ most_kept command }
{
    match command {
        Command::Leave => 0,
        _ => MOST_RESERVE as u128,
    }
}
