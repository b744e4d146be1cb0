use crate::collector::strides::{Stride, turn_next};
use crate::rule::{Token, Words};
use core_machine::{Stage, Step, TurningStep, cleared, examine_from, spine_words, swept};
use heap_model::Heap;
use heap_model::limits::GROUP_FRAGMENTS;

/// The sweep's loads: of groups' control words, and of dead fragments' first words.
pub(crate) struct SweepLoads;

/// The clearing of groups' marks.
pub(crate) struct Clears;

impl Stride for SweepLoads {
    #[inline(always)]
    fn turn(table: &Words, token: &mut Token, heap: &Heap, stage: &Stage) -> Option<Stage> {
        match *stage {
            Stage::Examining {
                group,
                dead,
                position,
                words,
            } => {
                let fragment = GROUP_FRAGMENTS * group + u16::from(position);
                let step = Step::Turning(TurningStep::MetaLoad { fragment });
                let meta = turn_next(table, token, heap, &step);
                let words = words + u32::from(spine_words(meta));
                Some(examine_from(heap, group, dead, words, position + 1))
            }
            Stage::Sweeping { group } => {
                let step = Step::Turning(TurningStep::GroupLoad { group });
                let word = turn_next(table, token, heap, &step);
                Some(swept(heap, group, word))
            }
            _ => None,
        }
    }
}

impl Stride for Clears {
    #[inline(always)]
    fn turn(table: &Words, token: &mut Token, heap: &Heap, stage: &Stage) -> Option<Stage> {
        let Stage::Clearing { group, kept } = *stage else {
            return None;
        };
        let step = Step::Turning(TurningStep::Clear { group });
        let word = turn_next(table, token, heap, &step);
        Some(cleared(heap, group, kept, word))
    }
}
