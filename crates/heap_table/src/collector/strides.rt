ghost use Rattle.std.specs.Prelude.{◌≡◌, ◌≤◌, None, IfSome};
ghost use Rattle.heap_model.specs.calls.ManyTurns.{MakesOnward};
ghost use Rattle.core_machine.specs.collector.Collector.{next_turn};
ghost use Rattle.heap_table.specs.ManyTurns.{collector_in, KeepsAhead, Works, LeadsTo, WorksOn};
ghost use Rattle.heap_table.specs.Told.{next_known, ToldAtTurn};
ghost use Rattle.heap_table.specs.Views.{known_by};

use crate::collector::CollectorHolder;
use crate::rule::{Token, Words};
use crate::touch::touch;
use core_machine::{CountsEntries, Entries, Stage, Step};
use heap_model::Heap;
use std::marker::Brand;

pub(crate) mod copying;
pub(crate) mod marking;
pub(crate) mod sweeping;

/// A kind of stages at which a turn tells no entry, and mostly leads to another one of the kind.
pub(crate) trait Stride {
    /// Makes the turn at this stage, where it is of the kind, and answers to which stage it leads.
    fn turn(table: &Words, token: &mut Token, heap: &Heap, stage: &Stage) -> Option<Stage>
        requires keeps { KeepsAhead table.now.table_id table.now.key token.old.table_id token.old.me heap.now }
        requires stage { (collector_in token.old.me).stage ≡ stage.now }
        ensures same { token.new.table_id ≡ token.old.table_id }
        ensures keeps { KeepsAhead table.now.table_id table.now.key token.new.table_id token.new.me heap.now }
        ensures none { result ≡ None → token.new.me ≡ token.old.me }
        ensures leads { IfSome result (λ next. LeadsTo heap.now (known_by token.old.me.0) (known_by token.new.me.0) next) };
}

/// Makes the due turn of the collector of the token's view.
#[inline(always)]
pub(crate) fn turn_next(table: &Words, token: &mut Token, heap: &Heap, step: &Step) -> u64
    requires keeps { KeepsAhead table.now.table_id table.now.key token.old.table_id token.old.me heap.now }
    requires due { (next_turn heap.now (collector_in token.old.me)).step ≡ step.now }
    requires may { (next_turn heap.now (collector_in token.old.me)).may }
    ensures same { token.new.table_id ≡ token.old.table_id }
    ensures keeps { KeepsAhead table.now.table_id table.now.key token.new.table_id token.new.me heap.now }
    ensures known { known_by token.new.me.0 ≡ next_known heap.now (known_by token.old.me.0) result }
    ensures told { ToldAtTurn heap.now (collector_in token.old.me) result }
{
    let found = touch::<Brand, Heap>(table, token, heap, step, 0, heap);
    found
}

/// Makes the turns from this stage on that are of the kind, `n` at most: answers how many, and to which stage they lead.
#[inline(always)]
fn go_on<K: Stride>(
    table: &Words,
    token: &mut Token,
    heap: &Heap,
    stage: Stage,
    n: u64,
) -> (u64, Stage)
    requires keeps { KeepsAhead table.now.table_id table.now.key token.old.table_id token.old.me heap.now }
    requires stage { (collector_in token.old.me).stage ≡ stage }
    ensures same { token.new.table_id ≡ token.old.table_id }
    ensures keeps { KeepsAhead table.now.table_id table.now.key token.new.table_id token.new.me heap.now }
    ensures most { result.0 ≤ n }
    ensures works { MakesOnward (Works heap.now) result.0 (known_by token.old.me.0) (known_by token.new.me.0) }
    ensures stage { collector_in token.new.me ≡ record (collector_in token.old.me) { stage = result.1 } }
{
    let mut at = stage;
    for made in 0..n {
        let Some(next) = K::turn(table, token, heap, &at) else {
            return (made, at);
        };
        at = next;
    }
    (n, at)
}

impl<L: Entries, C: CountsEntries> CollectorHolder<L, C> {
    /// Makes the turns that are due and of this kind, `n` at most, in one loop, and answers how many.
    #[inline(always)]
    pub(crate) fn take_strides<K: Stride>(&mut self, n: u64) -> u64
        ensures most { result ≤ n }
        ensures works { MakesOnward WorksOn result self.old self.new }
    {
        let _counted = self.party.turns();
        let stage = self.party.stage();
        let (made, stage) = go_on::<K>(&self.table.shared, &mut self.token, &self.heap, stage, n);
        self.party.end_turns(stage, made);
        made
    }
}
