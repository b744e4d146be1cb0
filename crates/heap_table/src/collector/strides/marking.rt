use crate::collector::strides::{Stride, turn_next};
use crate::rule::{Token, Words};
use core_machine::{Stage, Step, TurningStep, pass_on};
use heap_model::Heap;

/// The loads of a pass: of groups' control words, up to one with a grey fragment.
pub(crate) struct PassLoads;

/// The scan of a grey fragment.
pub(crate) struct Scans;

impl Stride for PassLoads {
    #[inline(always)]
    fn turn(table: &Words, token: &mut Token, heap: &Heap, stage: &Stage) -> Option<Stage> {
        let Stage::Passing { group, found } = *stage else {
            return None;
        };
        let step = Step::Turning(TurningStep::GroupLoad { group });
        let word = turn_next(table, token, heap, &step);
        Some(pass_on(heap, group, found, word))
    }
}

impl Stride for Scans {
    #[inline(always)]
    fn turn(table: &Words, token: &mut Token, heap: &Heap, stage: &Stage) -> Option<Stage> {
        match *stage {
            Stage::Scanning(scan) => {
                let step = Step::Turning(TurningStep::ScanLoad {
                    fragment: scan.fragment,
                    part: scan.part,
                });
                let word = turn_next(table, token, heap, &step);
                Some(scan.seen(word))
            }
            Stage::Shading { scan, target, next } => {
                let step = Step::Turning(TurningStep::MarkShade { fragment: target });
                turn_next(table, token, heap, &step);
                Some(scan.shaded(next))
            }
            Stage::Blackening(scan) => {
                let step = Step::Turning(TurningStep::Blacken {
                    fragment: scan.fragment,
                });
                turn_next(table, token, heap, &step);
                Some(scan.done())
            }
            _ => None,
        }
    }
}
