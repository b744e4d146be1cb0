ghost use Rattle.std.specs.Prelude.{◌≡◌, ◌+◌, ◌<◌, ◌≤◌};
ghost use Rattle.core_machine.specs.collector.Copying.{left_half as left_half_of, next_half as next_half_of, after_visited, after_seen, after_visit, visit_on, after_inspected, after_located, copy_at, after_claimed, after_copied};
ghost use Rattle.core_machine.specs.collector.CopyingTurns.{visited, copying_step, after_copying};
ghost use Rattle.core_machine.specs.collector.FitsCopying.{FitsVisit, FitsCopying, spine_most};
ghost use Rattle.core_machine.specs.collector.TurnMove.{Collector};
ghost use Rattle.heap_words.specs.Loaded.{array_length_of};
ghost use Rattle.heap_model.specs.Heap.{IsHeap};
ghost use Rattle.heap_model.specs.Limits.{group_fragments, most_groups};
ghost use Rattle.heap_words.specs.Control.{next_position_of};

use crate::collector::stage::{ArrayAt, Copying, SpineCopy, Stage, Visit};
use crate::step::{AccessStep, CopyingStep, SpineStep, Step, TurningStep};
use crate::table::decode::{array_words, id_in};
use heap_model::Heap;
use heap_model::limits::GROUP_FRAGMENTS;
use heap_model::phase_plan::CYCLE_PHASES;
use heap_words::{Spot, array_length, marked_bits, next_position};

/// The half that the flip of the phase's cycle leaves.
fn left_half(phase: u64) -> u8
    ensures { result ≡ left_half_of phase }
{
    (phase / CYCLE_PHASES % 2) as u8
}

/// The half in which spines have their places from that flip on.
pub fn next_half(phase: u64) -> u8
    ensures { result ≡ next_half_of phase }
{
    ((phase / CYCLE_PHASES + 1) % 2) as u8
}

/// The group's marked fragments are seen to: the next group's turn comes, and behind the last one the phase is done.
#[inline(always)]
fn next_group(heap: &Heap, group: u16) -> Stage
    requires { group < heap.now.groups }
    ensures { result ≡ after_visited heap.now group }
{
    let groups = heap.groups;
    if group + 1 < groups {
        Stage::Copying(Copying::Visiting { group: group + 1 })
    } else {
        Stage::Advancing
    }
}

/// The first marked fragment from this position on is looked at.
#[inline(always)]
fn visit_from(heap: &Heap, group: u16, marked: u16, from: u8) -> Stage
    requires { group < heap.now.groups }
    ensures { result ≡ after_seen heap.now group marked (next_position_of marked from) }
{
    let Some(position) = next_position(marked, from) else {
        return next_group(heap, group);
    };
    Stage::Copying(Copying::Inspecting(Visit {
        group,
        marked,
        position,
    }))
}

/// The group has this control word: its marked fragments are looked at.
#[inline(always)]
pub fn visit(heap: &Heap, group: u16, word: u64) -> Stage
    requires { group < heap.now.groups }
    ensures { result ≡ after_visit heap.now group word }
{
    visit_from(heap, group, marked_bits(word), 0)
}

impl Visit {
    /// The fragment at which it stands.
    #[inline(always)]
    pub fn fragment(&self) -> u16
        requires group { self.now.group < most_groups }
        requires position { self.now.position < group_fragments }
        ensures { result ≡ visited self.now }
    {
        GROUP_FRAGMENTS * self.group + u16::from(self.position)
    }

    /// Its fragment is seen to: the next one comes.
    #[inline(always)]
    fn on(&self, heap: &Heap) -> Stage
        requires { FitsVisit heap.now self.now }
        ensures { result ≡ visit_on heap.now self.now }
    {
        visit_from(heap, self.group, self.marked, self.position + 1)
    }

    /// The first word of its fragment was found: where that is an array's meta its name comes next.
    #[inline(always)]
    pub fn inspected(&self, heap: &Heap, word: u64) -> Stage
        requires { FitsVisit heap.now self.now }
        ensures { result ≡ after_inspected heap.now self.now (array_length_of word) }
    {
        let Some(cells) = array_length(word) else {
            return self.on(heap);
        };
        Stage::Copying(Copying::Naming {
            visit: *self,
            words: array_words(cells),
        })
    }
}

impl ArrayAt {
    /// The place of its spine was found: where it stands in the half that was left, a copy gets its place.
    fn located(&self, heap: &Heap, phase: u64, from: Spot) -> Stage
        requires { FitsVisit heap.now self.now.visit }
        ensures { result ≡ after_located heap.now phase self.now from }
    {
        if from.half != left_half(phase) {
            return self.visit.on(heap);
        }
        Stage::Copying(Copying::Claiming { array: *self, from })
    }

    /// The copy has its place where this word tells.
    fn claimed(&self, from: Spot, found: u64) -> Stage
        ensures { result ≡ after_claimed self.now from found }
    {
        let copy = SpineCopy {
            array: *self,
            from,
            to: Spot::told(found),
            index: 0,
        };
        copy.go_on()
    }
}

impl SpineCopy {
    /// It comes to its word, or behind the last one to its end.
    fn go_on(&self) -> Stage
        ensures { result ≡ copy_at self.now }
    {
        if self.index < self.array.words {
            Stage::Copying(Copying::Loading(*self))
        } else {
            Stage::Copying(Copying::Swinging(*self))
        }
    }

    /// Its word was copied: the next one comes.
    fn copied(&self) -> Stage
        requires index { self.now.index < self.now.array.words }
        requires words { self.now.array.words ≤ spine_most }
        ensures { result ≡ after_copied self.now }
    {
        let copy = SpineCopy {
            index: self.index + 1,
            ..*self
        };
        copy.go_on()
    }
}

impl Copying {
    /// The step of its turn.
    pub fn due(&self, heap: &Heap) -> Step
        requires limits { IsHeap heap.now }
        requires fits { FitsCopying heap.now self.now }
        ensures { result ≡ copying_step self.now }
    {
        let step = match *self {
            Copying::Visiting { group } => return Step::Turning(TurningStep::GroupLoad { group }),
            Copying::Inspecting(visit) => {
                let fragment = visit.fragment();
                return Step::Turning(TurningStep::MetaLoad { fragment });
            }
            Copying::Naming { visit, .. } => {
                let head = visit.fragment();
                return Step::Access(AccessStep::NameLoad { head });
            }
            Copying::Locating(array) => {
                let sentinel = array.visit.fragment();
                return Step::Spine(SpineStep::AddressLoad { sentinel });
            }
            Copying::Claiming { array, .. } => CopyingStep::CopyClaim { words: array.words },
            Copying::Loading(copy) => CopyingStep::CopyLoad {
                half: copy.from.half,
                offset: copy.from.offset + u32::from(copy.index),
            },
            Copying::Storing { copy, word } => CopyingStep::CopyStore {
                half: copy.to.half,
                offset: copy.to.offset + u32::from(copy.index),
                word,
            },
            Copying::Swinging(copy) => CopyingStep::SwingStore {
                sentinel: copy.array.visit.fragment(),
                spot: copy.to.pack(),
            },
        };
        Step::Copying(step)
    }

    /// Where it goes on once its turn has found this word.
    pub fn after(&self, heap: &Heap, phase: u64, found: u64) -> Stage
        requires limits { IsHeap heap.now }
        requires fits { FitsCopying heap.now self.now }
        ensures { result ≡ after_copying heap.now phase self.now found }
    {
        match *self {
            Copying::Visiting { group } => visit(heap, group, found),
            Copying::Inspecting(visit) => visit.inspected(heap, found),
            Copying::Naming { visit, words } => Stage::Copying(Copying::Locating(ArrayAt {
                visit,
                words,
                id: id_in(found),
            })),
            Copying::Locating(array) => array.located(heap, phase, Spot::told(found)),
            Copying::Claiming { array, from } => array.claimed(from, found),
            Copying::Loading(copy) => Stage::Copying(Copying::Storing { copy, word: found }),
            Copying::Storing { copy, .. } => copy.copied(),
            Copying::Swinging(copy) => copy.array.visit.on(heap),
        }
    }
}
