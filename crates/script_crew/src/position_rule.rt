use crossbeam_queue::protocol::{Join, Lesson, Outcome, Protocol, Split};
use crossbeam_queue::{Pass, RuledArrayQueue};
use std::collections::LinkedList;

/// What a pass knows: how many of the shares it has, which positions it has pushed and popped, and which were pushed in all. No value of this type is made.
pub struct Tally {
    pub shares: u64,
    pub pushed: LinkedList<u32>,
    pub popped: LinkedList<u32>,
    pub known: LinkedList<u32>,
}

/// The rule that no position is lost, and none is popped twice.
pub struct PositionRule;

impl Protocol<u32, Tally> for PositionRule {
    ghost use Rattle.std.specs.Prelude.{[]};
    ghost use Rattle.script_crew.specs.Positions.{all_shares, tally, KeepsPositions};

    ghost holds = { KeepsPositions };

    ghost first = { tally all_shares [] [] [] };
}

/// A new pass gets one share, and a pass that takes in another one gets that one's shares.
pub struct Sharing;

impl Split<Tally> for Sharing {
    ghost use Rattle.std.specs.Prelude.{◌-◌, []};
    ghost use Rattle.script_crew.specs.Positions.{tally};

    ghost left = { λ one. tally (one.shares - 1) one.pushed one.popped one.known };

    ghost right = { λ one. tally 1 [] [] one.known };
}

impl Join<Tally> for Sharing {
    ghost use Rattle.std.specs.Prelude.{◌+◌, ◌++◌, []};
    ghost use Rattle.script_crew.specs.Positions.{tally};

    ghost both = { λ one other. tally (one.shares + other.shares) (one.pushed ++ other.pushed) (one.popped ++ other.popped) one.known };

    ghost spent = { tally 0 [] [] [] };
}

/// A push, by the pass that has every share.
pub struct Pushing;

impl Outcome<u32, Tally> for Pushing {
    ghost use Rattle.script_crew.specs.Positions.{HasPushed};

    ghost then = { HasPushed };
}

impl Lesson<u32, Tally> for Pushing {
    ghost use Rattle.script_crew.specs.Positions.{Settles};

    ghost fact = { Settles };
}

/// A pop. Only the pass that has every share learns by it what the queue holds.
pub struct Popping;

impl Outcome<u32, Tally> for Popping {
    ghost use Rattle.script_crew.specs.Positions.{HasPopped};

    ghost then = { HasPopped };
}

impl Lesson<u32, Tally> for Popping {
    ghost use Rattle.script_crew.specs.Positions.{Settles};

    ghost fact = { Settles };
}

/// The queue of the positions of jobs.
pub type PositionQueue = RuledArrayQueue<u32, Tally, PositionRule>;

/// What each thread that uses the queue holds.
pub type PositionPass = Pass<u32, Tally>;
