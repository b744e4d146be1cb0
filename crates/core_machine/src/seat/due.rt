ghost use Rattle.std.specs.Prelude.{◌≡◌, ◌<◌};
ghost use Rattle.heap_model.specs.Heap.{IsHeap};
ghost use Rattle.core_machine.specs.seat.Fits.{Fits, FitsMaking, FitsPolling};
ghost use Rattle.core_machine.specs.seat.FitsAccess.{FitsAccess};
ghost use Rattle.core_machine.specs.Moves.{due_step, making_move, access_move, polling_move, leaving_move, collecting_move};

use crate::log::Entries;
use crate::point::{Access, Collecting, Leaving, Making, Point, Polling};
use crate::seat::SeatParty;
use crate::step::{AccessStep, HandshakeStep, MakingStep, SpineStep, Step, TurningStep};
use heap_model::Heap;

impl<L: Entries> SeatParty<L> {
    /// The step of making that is due.
    #[inline(always)]
    fn due_making(&self, heap: &Heap, number: u8, point: Making) -> Step
        requires limits { IsHeap heap.now }
        requires number { number < heap.now.seats }
        requires fits { Fits heap.now self.now.seat }
        requires at_point { FitsMaking heap.now self.now.seat point }
        ensures { result ≡ (making_move heap.now number self.now.seat point).step }
    {
        match point {
            Making::Granting => Step::Spine(SpineStep::BudgetAdd {
                words: self.spine_need(),
            }),
            Making::Withdrawing => Step::Spine(self.take_back()),
            Making::Gathering => Step::Making(MakingStep::Claim {
                group: self.next_group(heap),
            }),
            Making::GivingBack => Step::Making(self.give_back()),
            Making::Refusing => self.refusal_step(),
            Making::Placing => Step::Spine(SpineStep::SpotClaim {
                words: self.spine_need(),
            }),
            Making::Listing => Step::Spine(self.list()),
            Making::Storing => Step::Making(self.store(number)),
            Making::Bearing => Step::Making(self.birth()),
        }
    }

    /// The step of access that is due.
    #[inline(always)]
    fn due_access(&self, heap: &Heap, number: u8, point: Access) -> Step
        requires limits { IsHeap heap.now }
        requires number { number < heap.now.seats }
        requires fits { Fits heap.now self.now.seat }
        requires at_point { FitsAccess self.now.seat point }
        ensures { result ≡ (access_move heap.now number self.now.seat point).step }
    {
        let fragment = self.reached;
        let step = match point {
            Access::LoadingMeta | Access::Walking => AccessStep::WalkLoad { fragment },
            Access::LoadingSpot => {
                return Step::Spine(SpineStep::AddressLoad { sentinel: fragment });
            }
            Access::Indexing => return Step::Spine(self.index_load()),
            Access::Getting => AccessStep::GetLoad {
                fragment,
                part: self.part,
            },
            Access::Naming => AccessStep::NameLoad {
                head: self.loaded_head(),
            },
            Access::LoadingOld => AccessStep::OldLoad {
                fragment,
                part: self.part,
            },
            Access::ShadingOld => AccessStep::Shade {
                fragment: self.loaded_head(),
            },
            Access::ShadingNew => AccessStep::Shade {
                fragment: self.new_register().head().unwrap_or(0),
            },
            Access::Swapping => AccessStep::Swap {
                fragment,
                part: self.part,
                word: self.new_word(number),
            },
            Access::ShadingSide(side) => AccessStep::Shade {
                fragment: self.side_register(side).head().unwrap_or(0),
            },
            Access::Replacing => AccessStep::CompareSwap {
                fragment,
                part: self.part,
                old: self.old_word(),
                new: self.new_word(number),
            },
        };
        Step::Access(step)
    }

    /// The step of answering the phase that is due.
    fn due_polling(&self, number: u8, point: Polling) -> Step
        requires at_point { FitsPolling self.now.seat point }
        ensures { result ≡ (polling_move number self.now.seat point).step }
    {
        match point {
            Polling::Asking => Step::PollLoad,
            Polling::Shading => Step::Access(AccessStep::Shade {
                fragment: self.next_root(),
            }),
            Polling::Answering => Step::Handshake(HandshakeStep::AnswerStore {
                seat: number,
                phase: self.asked,
            }),
        }
    }

    /// The step of an inner call of a collect that is due.
    fn due_collecting(&self, number: u8, point: Collecting) -> Step
        ensures { result ≡ (collecting_move number self.now.seat point).step }
    {
        match point {
            Collecting::Looking | Collecting::Asking { .. } | Collecting::Noting(_) => {
                Step::PollLoad
            }
            Collecting::Comparing { other, .. } => {
                Step::Turning(TurningStep::LookLoad { seat: other })
            }
        }
    }

    /// The step of leaving that is due.
    fn due_leaving(&self, number: u8, point: Leaving) -> Step
        ensures { result ≡ (leaving_move number self.now.seat point).step }
    {
        match point {
            Leaving::Emptying => Step::Making(self.last_give_back()),
            Leaving::Parting => Step::Handshake(HandshakeStep::LeaveStore { seat: number }),
        }
    }

    /// The one step that the seat makes next; none where no call is in flight.
    #[inline(always)]
    pub fn due(&self, heap: &Heap, number: u8) -> Option<Step>
        requires limits { IsHeap heap.now }
        requires number { number < heap.now.seats }
        requires fits { Fits heap.now self.now.seat }
        ensures { result ≡ due_step heap.now number self.now.seat }
    {
        match self.point {
            Point::Idle => None,
            Point::Making(point) => Some(self.due_making(heap, number, point)),
            Point::Local => Some(Step::PollLoad),
            Point::Access(point) => Some(self.due_access(heap, number, point)),
            Point::Polling(point) => Some(self.due_polling(number, point)),
            Point::Collecting(point) => Some(self.due_collecting(number, point)),
            Point::Leaving(point) => Some(self.due_leaving(number, point)),
        }
    }
}
