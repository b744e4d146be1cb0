ghost use Rattle.std.specs.Prelude.{◌≡◌, min, ◌+◌, ◌-◌, ◌<◌, ◌≤◌, ◌^◌, ◌++◌, [], ◌∷◌, length};
ghost use Rattle.core_machine.specs.collector.Collector.{next_turn, collector_after, has_answered_of, first_work as first_work_of, after_advance, advance_turn, end_turn, free_turn, return_turn, copying_turn, look_answer, after_look, after_counted_look};
ghost use Rattle.core_machine.specs.collector.FitsCopying.{FitsCopying};
ghost use Rattle.core_machine.specs.seat.Fits.{CollectorFits};
ghost use Rattle.core_machine.specs.table.Decode.{FoundPointsWithin};
ghost use Rattle.core_machine.specs.table.Operation.{address_of};
ghost use Rattle.heap_model.specs.Heap.{IsHeap};

use crate::collector::CollectorParty;
use crate::collector::marking::pass_on;
use crate::collector::stage::{Copying, Stage};
use crate::collector::sweeping::{cleared, examine_from, freed, sweep_on, swept};
use crate::log::CountsEntries;
use crate::table::decode::spine_words;
use heap_model::phase_plan::{CLEARING, COPYING, CYCLE_PHASES, MARKING, SWEEP};
use heap_model::{Behind, Entry, Heap, Turn};
use heap_words::LEFT;

impl<L: CountsEntries> CollectorParty<L> {
    /// Whether the seat with this word has answered the phase, or has left.
    fn has_answered(&self, word: u64) -> bool
        ensures { result ≡ has_answered_of self.now.collector.phase word }
    {
        word == self.phase || word == LEFT
    }

    /// Looks at a seat's word.
    fn look(&mut self, heap: &Heap, found: u64) -> Turn
        requires { self.old.collector.looked < heap.now.seats }
        ensures collector { self.new.collector ≡ after_look heap.now self.old.collector found }
        ensures answer { result ≡ look_answer self.old.collector found }
        ensures spare { self.new.spare ≡ self.old.spare }
        ensures forgotten { self.new.forgotten ≡ self.old.forgotten }
        ensures turns { self.new.turns ≡ self.old.turns }
    {
        if !self.has_answered(found) {
            return Turn::from(Behind {
                seat: self.looked,
                answered: found,
                phase: self.phase,
            });
        }
        self.look_on(heap);
        Turn::Stepped
    }

    /// One more seat has answered.
    fn look_on(&mut self, heap: &Heap)
        requires { self.old.collector.looked < heap.now.seats }
        ensures collector { self.new.collector ≡ after_counted_look heap.now self.old.collector }
        ensures spare { self.new.spare ≡ self.old.spare }
        ensures forgotten { self.new.forgotten ≡ self.old.forgotten }
        ensures turns { self.new.turns ≡ self.old.turns }
    {
        let seats = heap.seats;
        self.looked += 1;
        if self.looked < seats {
            return;
        }
        self.stage = self.first_work();
    }

    /// What the phase is for begins; where there is nothing to do the next phase does.
    fn first_work(&self) -> Stage
        ensures { result ≡ first_work_of self.now.collector.phase }
    {
        match self.phase % CYCLE_PHASES {
            MARKING => Stage::Passing {
                group: 0,
                found: false,
            },
            COPYING => Stage::Copying(Copying::Visiting { group: 0 }),
            SWEEP => Stage::Sweeping { group: 0 },
            CLEARING => Stage::Clearing { group: 0, kept: 0 },
            _ => Stage::Advancing,
        }
    }

    /// The next phase begins, and this entry tells of it.
    fn enter_phase(&mut self, entry: Entry)
        requires may { self.old.collector.phase < 2 ^ 64 - 2 }
        requires spare { 0 < self.old.spare }
        ensures collector { self.new.collector ≡ record (after_advance self.old.collector) { log = self.old.collector.log ++ entry ∷ [] } }
        ensures spare { self.old.spare ≤ self.new.spare + 1 }
        ensures no_more { self.new.spare ≤ self.old.spare }
        ensures forgotten { self.new.forgotten ≡ self.old.forgotten }
        ensures turns { self.new.turns ≡ self.old.turns }
    {
        self.phase += 1;
        self.stage = Stage::Looking;
        self.looked = 0;
        self.log.push(entry);
    }

    /// The group's dead fragments are freed, among them arrays with so many spine words.
    fn free(&mut self, heap: &Heap, group: u16, dead: u16, words: u32)
        requires group { group < heap.now.groups }
        requires spare { 0 < self.old.spare }
        ensures collector { self.new.collector ≡ collector_after (free_turn heap.now self.old.collector group dead words) 0 }
        ensures spare { self.old.spare ≤ self.new.spare + 1 }
        ensures no_more { self.new.spare ≤ self.old.spare }
        ensures forgotten { self.new.forgotten ≡ self.old.forgotten }
        ensures turns { self.new.turns ≡ self.old.turns }
    {
        self.stage = freed(heap, group, words);
        self.log.push(Entry::Frees(dead.count_ones()));
    }

    /// The spine words of the group's dead arrays are returned.
    fn return_words(&mut self, heap: &Heap, group: u16, words: u32)
        requires group { group < heap.now.groups }
        requires spare { 0 < self.old.spare }
        ensures collector { self.new.collector ≡ collector_after (return_turn heap.now self.old.collector group words) 0 }
        ensures spare { self.old.spare ≤ self.new.spare + 1 }
        ensures no_more { self.new.spare ≤ self.old.spare }
        ensures forgotten { self.new.forgotten ≡ self.old.forgotten }
        ensures turns { self.new.turns ≡ self.old.turns }
    {
        self.stage = sweep_on(heap, group);
        self.log.push(Entry::Returns(words));
    }

    /// Copying goes on by the word that its turn found; where an array swings to its copy an entry tells of it.
    fn copy(&mut self, heap: &Heap, stage: Copying, found: u64)
        requires limits { IsHeap heap.now }
        requires fits { FitsCopying heap.now stage }
        requires spare { 0 < self.old.spare }
        ensures collector { self.new.collector ≡ collector_after (copying_turn heap.now self.old.collector stage) found }
        ensures spare { self.old.spare + length self.old.collector.log ≤ self.new.spare + length self.new.collector.log }
        ensures no_more { self.new.spare ≤ self.old.spare }
        ensures forgotten { self.new.forgotten ≡ self.old.forgotten }
        ensures turns { self.new.turns ≡ self.old.turns }
    {
        self.stage = stage.after(heap, self.phase, found);
        if let Copying::Swinging(copy) = stage {
            self.log.push(Entry::Swings(copy.array.id));
        }
    }

    /// The next phase of the cycle begins.
    fn advance(&mut self) -> Turn
        requires may { self.old.collector.phase < 2 ^ 64 - 2 }
        requires spare { 0 < self.old.spare }
        ensures collector { self.new.collector ≡ collector_after (advance_turn self.old.collector) 0 }
        ensures answer { result ≡ (advance_turn self.old.collector).answer 0 }
        ensures spare { self.old.spare ≤ self.new.spare + 1 }
        ensures no_more { self.new.spare ≤ self.old.spare }
        ensures forgotten { self.new.forgotten ≡ self.old.forgotten }
        ensures turns { self.new.turns ≡ self.old.turns }
    {
        self.enter_phase(Entry::Advance(self.phase + 1));
        Turn::Stepped
    }

    /// The cycle ends, with so many fragments kept, and the next phase begins.
    fn end_cycle(&mut self, kept: u64) -> Turn
        requires may { self.old.collector.phase < 2 ^ 64 - 2 }
        requires spare { 0 < self.old.spare }
        ensures collector { self.new.collector ≡ collector_after (end_turn self.old.collector kept) 0 }
        ensures answer { result ≡ (end_turn self.old.collector kept).answer 0 }
        ensures spare { self.old.spare ≤ self.new.spare + 1 }
        ensures no_more { self.new.spare ≤ self.old.spare }
        ensures forgotten { self.new.forgotten ≡ self.old.forgotten }
        ensures turns { self.new.turns ≡ self.old.turns }
    {
        let cycle = self.phase / CYCLE_PHASES;
        self.enter_phase(Entry::Ends { cycle, kept });
        Turn::Ended { cycle, kept }
    }

    /// Learns the word that its turn found. Each phase has an entry, so there is always a number left for the next one.
    pub fn learn(&mut self, heap: &Heap, found: u64) -> Turn
        requires limits { IsHeap heap.now }
        requires fits { CollectorFits heap.now self.old.collector }
        requires found { FoundPointsWithin heap.now (address_of (next_turn heap.now self.old.collector).step) found }
        requires spare { 1 < self.old.spare }
        ensures may { (next_turn heap.now self.old.collector).may }
        ensures collector { self.new.collector ≡ collector_after (next_turn heap.now self.old.collector) found }
        ensures answer { result ≡ (next_turn heap.now self.old.collector).answer found }
        ensures spare { self.old.spare + length self.old.collector.log ≤ self.new.spare + length self.new.collector.log }
        ensures no_more { self.new.spare ≤ self.old.spare }
        ensures forgotten { self.new.forgotten ≡ self.old.forgotten }
        ensures turns { self.new.turns ≡ min (self.old.turns + 1) (2 ^ 64 - 1) }
    {
        let _all = self.log.count();
        self.turns = self.turns.saturating_add(1);
        match self.stage {
            Stage::Looking => return self.look(heap, found),
            Stage::Passing { group, found: some } => {
                self.stage = pass_on(heap, group, some, found);
            }
            Stage::Scanning(scan) => self.stage = scan.seen(found),
            Stage::Shading { scan, next, .. } => self.stage = scan.shaded(next),
            Stage::Addressing { scan, words } => self.stage = scan.addressed(words, found),
            Stage::Indexing(scan) => self.stage = scan.seen(found),
            Stage::Spreading { scan, .. } => self.stage = scan.spread(),
            Stage::Blackening(scan) => self.stage = scan.done(),
            Stage::Flipping => self.stage = Stage::Advancing,
            Stage::Copying(stage) => self.copy(heap, stage, found),
            Stage::Sweeping { group } => self.stage = swept(heap, group, found),
            Stage::Examining {
                group,
                dead,
                position,
                words,
            } => {
                let words = words + u32::from(spine_words(found));
                self.stage = examine_from(heap, group, dead, words, position + 1);
            }
            Stage::Freeing { group, dead, words } => self.free(heap, group, dead, words),
            Stage::Returning { group, words } => self.return_words(heap, group, words),
            Stage::Clearing { group, kept } => self.stage = cleared(heap, group, kept, found),
            Stage::Ending { kept } => return self.end_cycle(kept),
            Stage::Advancing => return self.advance(),
        }
        Turn::Stepped
    }
}
