ghost use Rattle.std.specs.Prelude.{◌≡◌, ◌+◌, ◌*◌, ◌/◌, ◌<◌, ◌≤◌, ◌^◌, IfSome, true};
ghost use Rattle.heap_model.specs.Heap.{IsHeap};
ghost use Rattle.core_machine.specs.collector.Marking.{lowest_grey_of, after_last_group, after_group, after_pass, part_after, scan_step, scan_at, array_at, after_first_load, spine_step, spine_scan_at, after_address, after_spread};
ghost use Rattle.core_machine.specs.collector.FitsTurns.{spine_most};
ghost use Rattle.core_machine.specs.declared.step.SpineStep.TheVariants.{WordLoad};
ghost use Rattle.heap_words.specs.Loaded.{pointer_in, payload_in};
ghost use Rattle.core_machine.specs.table.Layout.{FitsSpot};
ghost use Rattle.core_machine.specs.declared.collector.stage.Stage.TheVariants.{Passing, Spreading};
ghost use Rattle.heap_model.specs.Limits.{group_fragments};

use crate::collector::stage::{Scan, SpineScan, Stage};
use crate::step::SpineStep;
use crate::table::decode::array_words;
use heap_model::Heap;
use heap_model::limits::GROUP_FRAGMENTS;
use heap_words::{Spot, array_length, is_meta, lead_in, lowest_grey, payload};

/// A pass has seen the last group: another one begins where it found something, else the flip comes.
#[inline(always)]
fn next_pass(found: bool) -> Stage
    ensures { result ≡ after_last_group found }
{
    if found {
        Stage::Passing {
            group: 0,
            found: false,
        }
    } else {
        Stage::Flipping
    }
}

/// The group has no grey fragment: the next group's turn comes.
#[inline(always)]
fn next_group(heap: &Heap, group: u16, found: bool) -> Stage
    requires { group < heap.now.groups }
    ensures { result ≡ after_group heap.now group found }
{
    let groups = heap.groups;
    if group + 1 < groups {
        Stage::Passing {
            group: group + 1,
            found,
        }
    } else {
        next_pass(found)
    }
}

/// The group has this control word: its lowest grey fragment is scanned.
#[inline(always)]
pub fn pass_on(heap: &Heap, group: u16, found: bool, word: u64) -> Stage
    requires limits { IsHeap heap.now }
    requires group { group < heap.now.groups }
    ensures { result ≡ after_pass heap.now group found (lowest_grey_of word) }
{
    let Some(position) = lowest_grey(word) else {
        return next_group(heap, group, found);
    };
    Stage::Scanning(Scan {
        fragment: GROUP_FRAGMENTS * group + position,
        part: 0,
        steps: 0,
    })
}

impl Scan {
    /// The word after the one that was found: the name behind a meta is passed over.
    #[inline(always)]
    fn next_part(&self, word: u64) -> u8
        requires { self.now.part < 4 }
        ensures { result ≡ part_after self.now.part word }
    {
        if self.part == 0 && is_meta(word) {
            2
        } else {
            self.part + 1
        }
    }

    /// One step more was made.
    #[inline(always)]
    fn stepped(&self) -> Scan
        requires { self.now.steps ≤ 2 * spine_most + 2 }
        ensures { result ≡ scan_step self.now }
    {
        Scan {
            steps: self.steps + 1,
            ..*self
        }
    }

    /// It comes to this word.
    #[inline(always)]
    fn at(&self, part: u8) -> Stage
        ensures { result ≡ scan_at self.now part }
    {
        let scan = Scan { part, ..*self };
        if part < 4 {
            Stage::Scanning(scan)
        } else {
            Stage::Blackening(scan)
        }
    }

    /// Its word was found: what that leads to is marked before the next word's turn comes.
    #[inline(always)]
    pub fn seen(&self, word: u64) -> Stage
        requires part { self.now.part < 4 }
        requires steps { self.now.steps ≤ 2 * self.now.part }
        requires leads { IfSome (pointer_in self.now.part word) (λ target. target < 2 ^ 16) }
        ensures { result ≡ after_first_load self.now (array_at self.now.part word) (part_after self.now.part word) (pointer_in self.now.part word) }
    {
        let next = self.next_part(word);
        let scan = self.stepped();
        if let Some(cells) = self.array_at(word) {
            let words = array_words(cells);
            return Stage::Addressing { scan, words };
        }
        let Some(target) = lead_in(self.part, word) else {
            return scan.at(next);
        };
        Stage::Shading {
            scan,
            target: target as u16,
            next,
        }
    }

    /// The length of an array, where the word that was found is its meta.
    #[inline(always)]
    fn array_at(&self, word: u64) -> Option<u16>
        ensures { result ≡ array_at self.now.part word }
    {
        if self.part == 0 {
            array_length(word)
        } else {
            None
        }
    }

    /// The place of its array's spine was found, which has so many words.
    pub fn addressed(&self, words: u16, found: u64) -> Stage
        requires { self.now.steps ≤ 2 * spine_most + 2 }
        ensures { result ≡ after_address self.now words found }
    {
        let scan = SpineScan {
            scan: self.stepped(),
            spine: Spot::told(found),
            words,
            index: 0,
        };
        scan.go_on()
    }

    /// What its word led to was marked: the word `next` comes.
    #[inline(always)]
    pub fn shaded(&self, next: u8) -> Stage
        requires { self.now.steps < 8 }
        ensures { result ≡ scan_at (scan_step self.now) next }
    {
        self.stepped().at(next)
    }

    /// All its words were seen to: its group's turn comes again.
    #[inline(always)]
    pub fn done(&self) -> Stage
        ensures { result ≡ Passing (self.now.fragment / group_fragments) true }
    {
        Stage::Passing {
            group: self.fragment / GROUP_FRAGMENTS,
            found: true,
        }
    }
}

impl SpineScan {
    /// It comes to its spine word, or behind the last one to its end.
    fn go_on(&self) -> Stage
        ensures { result ≡ spine_scan_at self.now }
    {
        if self.index < self.words {
            Stage::Indexing(*self)
        } else {
            Stage::Blackening(self.scan)
        }
    }

    /// The load of its spine word.
    pub fn load(&self) -> SpineStep
        requires spine { FitsSpot self.now.spine }
        requires index { self.now.index < spine_most }
        ensures { result ≡ WordLoad self.now.spine.half (self.now.spine.offset + self.now.index) }
    {
        SpineStep::WordLoad {
            half: self.spine.half,
            offset: self.spine.offset + u32::from(self.index),
        }
    }

    /// Its spine word was found: the fragment that it names is marked before the next word's turn comes.
    pub fn seen(&self, word: u64) -> Stage
        requires steps { self.now.scan.steps ≤ 2 * spine_most + 2 }
        requires names { payload_in word < 2 ^ 16 }
        ensures { result ≡ Spreading (spine_step self.now) (payload_in word) }
    {
        Stage::Spreading {
            scan: SpineScan {
                scan: self.scan.stepped(),
                ..*self
            },
            target: payload(word),
        }
    }

    /// The fragment that its spine word names was marked: the next word comes.
    pub fn spread(&self) -> Stage
        requires steps { self.now.scan.steps ≤ 2 * spine_most + 2 }
        requires index { self.now.index < self.now.words }
        requires words { self.now.words ≤ spine_most }
        ensures { result ≡ after_spread self.now }
    {
        let scan = SpineScan {
            scan: self.scan.stepped(),
            index: self.index + 1,
            ..*self
        };
        scan.go_on()
    }
}
