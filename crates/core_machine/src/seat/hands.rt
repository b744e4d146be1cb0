ghost use Rattle.std.specs.Prelude.{◌≡◌, ◌+◌, ◌-◌, ◌*◌, ◌<◌, ◌≤◌, ◌++◌, [], length, take, drop};
ghost use Rattle.heap_model.specs.Limits.{group_fragments, most_groups, most_reserve};
ghost use Rattle.core_machine.specs.table.Fragments.{outside_group, clear_in};

use crate::table::fragments::{Hand, MOST_HELD, Reserve, add_clear, leave_out, put_before, refill};
use std::marker::Model;

/// The fragments that a call has claimed and not borne, its hand, and those of the object that it makes, its body. Once
/// there is a body the hand is the first of it, so one buffer has both.
#[derive(Drop)]
pub struct Hands {
    held: Hand,
    /// How many fragments of the body aren't borne; none before there is a body.
    unborn: Option<usize>,
}

impl Model for Hands {
    ghost use Rattle.core_machine.specs.seat.Hands.{HandAndBody, hand_of, body_of};

    ghost Value = { HandAndBody };

    ghost view = { λ hands. record {
      hand = hand_of hands.held.items hands.unborn;
      body = body_of hands.held.items hands.unborn;
    } };
}

impl Hands {
    /// Nothing is held.
    pub fn empty() -> Hands
        ensures hand { result.hand ≡ [] }
        ensures body { result.body ≡ [] }
    {
        Hands {
            held: Hand::new(),
            unborn: None,
        }
    }

    /// The fragments that aren't borne.
    #[inline(always)]
    pub fn hand(&self) -> &[u16]
        ensures { result.now ≡ self.now.hand }
    {
        let held = self.held.as_slice();
        match self.unborn {
            Some(unborn) if unborn < held.len() => &held[..unborn],
            _ => held,
        }
    }

    /// The fragments of the object that is made.
    #[inline(always)]
    pub fn body(&self) -> &[u16]
        ensures { result.now ≡ self.now.body }
    {
        match self.unborn {
            Some(_) => self.held.as_slice(),
            None => &[],
        }
    }

    /// Adds the fragments of the group whose taken bit isn't set in its control word, and answers how many these are.
    pub fn claim(&mut self, group: u16, word: u64) -> usize
        requires body { self.old.body ≡ [] }
        requires room { length self.old.hand + group_fragments ≤ MOST_HELD }
        requires group { group < most_groups }
        ensures hand { self.new.hand ≡ self.old.hand ++ clear_in group word }
        ensures body { self.new.body ≡ [] }
        ensures count { length self.new.hand ≡ length self.old.hand + result }
        ensures few { result ≤ group_fragments }
    {
        self.unborn = None;
        let before = self.held.len();
        add_clear(&mut self.held, group, word);
        self.held.len() - before
    }

    /// Leaves out the fragments of the group.
    pub fn leave_out(&mut self, group: u16)
        requires { self.old.body ≡ [] }
        ensures hand { self.new.hand ≡ outside_group group self.old.hand }
        ensures body { self.new.body ≡ [] }
    {
        self.unborn = None;
        leave_out(&mut self.held, group);
    }

    /// The first fragments of the reserve and the hand, so many as are needed, are the object's, and the rest is the reserve.
    pub fn settle(&mut self, reserve: &mut Reserve, need: usize)
        requires body { self.old.body ≡ [] }
        requires enough { need ≤ length reserve.old.items + length self.old.hand }
        requires few { length reserve.old.items + length self.old.hand ≤ need + most_reserve }
        requires object { need ≤ 1025 }
        ensures hand { self.new.hand ≡ take need (reserve.old.items ++ self.old.hand) }
        ensures body { self.new.body ≡ take need (reserve.old.items ++ self.old.hand) }
        ensures reserve { reserve.new.items ≡ drop need (reserve.old.items ++ self.old.hand) }
    {
        self.unborn = Some(need);
        put_before(&mut self.held, reserve.as_slice());
        refill(reserve, &self.held.as_slice()[need..]);
        self.held.truncate(need);
    }

    /// The last fragments of the hand are borne: so many are left.
    pub fn bear(&mut self, left: usize)
        requires { left ≤ length self.old.hand }
        ensures hand { self.new.hand ≡ take left self.old.hand }
        ensures body { self.new.body ≡ self.old.body }
    {
        match self.unborn {
            Some(_) => self.unborn = Some(left),
            None => self.held.truncate(left),
        }
    }

    /// Nothing is held any more.
    pub fn clear(&mut self)
        ensures hand { self.new.hand ≡ [] }
        ensures body { self.new.body ≡ [] }
    {
        self.held.clear();
        self.unborn = None;
    }
}
