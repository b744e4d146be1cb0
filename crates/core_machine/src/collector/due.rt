ghost use Rattle.std.specs.Prelude.{◌≡◌};
ghost use Rattle.core_machine.specs.collector.Collector.{next_turn};
ghost use Rattle.core_machine.specs.seat.Fits.{CollectorFits};
ghost use Rattle.heap_model.specs.Heap.{IsHeap};

use crate::collector::CollectorParty;
use crate::collector::copying::next_half;
use crate::collector::stage::{Scan, Stage};
use crate::log::CountsEntries;
use crate::step::{CopyingStep, SpineStep, Step, TurningStep};
use heap_model::Heap;
use heap_model::limits::GROUP_FRAGMENTS;

impl<L: CountsEntries> CollectorParty<L> {
    /// The step of its next turn.
    pub fn due(&self, heap: &Heap) -> Step
        requires limits { IsHeap heap.now }
        requires fits { CollectorFits heap.now self.now.collector }
        ensures { result ≡ (next_turn heap.now self.now.collector).step }
    {
        let step = match self.stage {
            Stage::Looking => TurningStep::LookLoad { seat: self.looked },
            Stage::Passing { group, .. } => TurningStep::GroupLoad { group },
            Stage::Scanning(Scan { fragment, part, .. }) => {
                TurningStep::ScanLoad { fragment, part }
            }
            Stage::Shading { target, .. } => TurningStep::MarkShade { fragment: target },
            Stage::Addressing {
                scan: Scan { fragment, .. },
                ..
            } => {
                return Step::Spine(SpineStep::AddressLoad { sentinel: fragment });
            }
            Stage::Indexing(scan) => return Step::Spine(scan.load()),
            Stage::Spreading { target, .. } => TurningStep::MarkShade { fragment: target },
            Stage::Blackening(Scan { fragment, .. }) => TurningStep::Blacken { fragment },
            Stage::Flipping => {
                let half = next_half(self.phase);
                return Step::Copying(CopyingStep::FlipStore { half });
            }
            Stage::Copying(stage) => return stage.due(heap),
            Stage::Sweeping { group } => TurningStep::GroupLoad { group },
            Stage::Examining {
                group,
                position,
                ..
            } => TurningStep::MetaLoad {
                fragment: GROUP_FRAGMENTS * group + u16::from(position),
            },
            Stage::Freeing { group, dead, .. } => TurningStep::Free { group, bits: dead },
            Stage::Returning { words, .. } => {
                return Step::Copying(CopyingStep::BudgetReturn { words });
            }
            Stage::Clearing { group, .. } => TurningStep::Clear { group },
            Stage::Ending { kept } => TurningStep::EndAdvance {
                phase: self.phase + 1,
                kept,
            },
            Stage::Advancing => TurningStep::AdvanceStore {
                phase: self.phase + 1,
            },
        };
        Step::Turning(step)
    }
}
