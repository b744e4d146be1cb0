ghost use Rattle.std.specs.Prelude.{◌≡◌};
ghost use Rattle.core_machine.specs.table.Operation.{making_address, making_operation, access_address, access_operation, spine_address, spine_operation, handshake_address, handshake_operation, copying_address, copying_operation, turning_address, turning_operation};

use crate::step::operation::Operation;
use crate::step::{AccessStep, CopyingStep, HandshakeStep, MakingStep, SpineStep, TurningStep};
use crate::table::address::Address;
use heap_model::limits::GROUP_FRAGMENTS;
use heap_words::{
    ALL_TAKEN, LEFT, MARKS_CLEARED, all_but, birth_bits, blacken_bit, fixed_word, free_mask,
    shade_bit, spine_word,
};

impl MakingStep {
    /// The word that it touches, and what it does with it.
    #[inline(always)]
    pub(crate) fn touch(&self) -> (Address, Operation)
        ensures address { result.0 ≡ making_address self.now }
        ensures operation { result.1 ≡ making_operation self.now }
    {
        match *self {
            MakingStep::Claim { group } => (Address::Control(group), Operation::Or(ALL_TAKEN)),
            MakingStep::GiveBack { group, bits } => {
                (Address::Control(group), Operation::And(all_but(bits)))
            }
            MakingStep::NewbornStore {
                fragment,
                part,
                word,
            } => (Address::Word { fragment, part }, Operation::Store(word)),
            MakingStep::Birth { group, bits, black }
            | MakingStep::LastBirth { group, bits, black } => {
                (
                    Address::Control(group),
                    Operation::Or(birth_bits(black, bits)),
                )
            }
        }
    }
}

impl AccessStep {
    /// The word that it touches, and what it does with it.
    #[inline(always)]
    pub(crate) fn touch(&self) -> (Address, Operation)
        ensures address { result.0 ≡ access_address self.now }
        ensures operation { result.1 ≡ access_operation self.now }
    {
        match *self {
            AccessStep::WalkLoad { fragment } => {
                (Address::Word { fragment, part: 0 }, Operation::Load)
            }
            AccessStep::NameLoad { head } => {
                let name = Address::Word {
                    fragment: head,
                    part: 1,
                };
                (name, Operation::Load)
            }
            AccessStep::GetLoad { fragment, part } | AccessStep::OldLoad { fragment, part } => {
                (Address::Word { fragment, part }, Operation::Load)
            }
            AccessStep::Shade { fragment } => {
                let control = Address::Control(fragment / GROUP_FRAGMENTS);
                (control, Operation::Or(shade_bit(fragment)))
            }
            AccessStep::Swap {
                fragment,
                part,
                word,
            } => (Address::Word { fragment, part }, Operation::Exchange(word)),
            AccessStep::CompareSwap {
                fragment,
                part,
                old,
                new,
            } => {
                let operation = Operation::CompareExchange { old, new };
                (Address::Word { fragment, part }, operation)
            }
        }
    }
}

impl SpineStep {
    /// The word that it touches, and what it does with it.
    #[inline(always)]
    pub(crate) fn touch(&self) -> (Address, Operation)
        ensures address { result.0 ≡ spine_address self.now }
        ensures operation { result.1 ≡ spine_operation self.now }
    {
        match *self {
            SpineStep::BudgetAdd { words } => (Address::Budget, Operation::Add(u64::from(words))),
            SpineStep::BudgetTakeBack { words } => {
                (Address::Budget, Operation::Subtract(u64::from(words)))
            }
            SpineStep::SpotClaim { words } => (Address::Spot, Operation::Add(u64::from(words))),
            SpineStep::SpineStore {
                half,
                offset,
                fragment,
            } => {
                let word = spine_word(fragment);
                (Address::Spine { half, offset }, Operation::Store(word))
            }
            SpineStep::AddressLoad { sentinel } => {
                let place = Address::Word {
                    fragment: sentinel,
                    part: 2,
                };
                (place, Operation::Load)
            }
            SpineStep::WordLoad { half, offset } => {
                (Address::Spine { half, offset }, Operation::Load)
            }
        }
    }
}

impl HandshakeStep {
    /// The word that it touches, and what it does with it.
    #[inline(always)]
    pub(crate) fn touch(&self) -> (Address, Operation)
        ensures address { result.0 ≡ handshake_address self.now }
        ensures operation { result.1 ≡ handshake_operation self.now }
    {
        match *self {
            HandshakeStep::AnswerStore { seat, phase } => {
                (Address::Answer(seat), Operation::Store(phase))
            }
            HandshakeStep::LeaveStore { seat } => (Address::Answer(seat), Operation::Store(LEFT)),
        }
    }
}

impl CopyingStep {
    /// The word that it touches, and what it does with it.
    #[inline(always)]
    pub(crate) fn touch(&self) -> (Address, Operation)
        ensures address { result.0 ≡ copying_address self.now }
        ensures operation { result.1 ≡ copying_operation self.now }
    {
        match *self {
            CopyingStep::FlipStore { half } => {
                let first = fixed_word(u32::from(half));
                (Address::Spot, Operation::Store(first))
            }
            CopyingStep::CopyClaim { words } => (Address::Spot, Operation::Add(u64::from(words))),
            CopyingStep::CopyLoad { half, offset } => {
                (Address::Spine { half, offset }, Operation::Load)
            }
            CopyingStep::CopyStore { half, offset, word } => {
                (Address::Spine { half, offset }, Operation::Store(word))
            }
            CopyingStep::SwingStore { sentinel, spot } => {
                let place = Address::Word {
                    fragment: sentinel,
                    part: 2,
                };
                (place, Operation::Store(spot))
            }
            CopyingStep::BudgetReturn { words } => {
                (Address::Budget, Operation::Subtract(u64::from(words)))
            }
        }
    }
}

impl TurningStep {
    /// The word that it touches, and what it does with it.
    #[inline(always)]
    pub(crate) fn touch(&self) -> (Address, Operation)
        ensures address { result.0 ≡ turning_address self.now }
        ensures operation { result.1 ≡ turning_operation self.now }
    {
        match *self {
            TurningStep::LookLoad { seat } => (Address::Answer(seat), Operation::Load),
            TurningStep::AdvanceStore { phase } | TurningStep::EndAdvance { phase, .. } => {
                (Address::Phase, Operation::Store(phase))
            }
            TurningStep::GroupLoad { group } => (Address::Control(group), Operation::Load),
            TurningStep::ScanLoad { fragment, part } => {
                (Address::Word { fragment, part }, Operation::Load)
            }
            TurningStep::MarkShade { fragment } => {
                let control = Address::Control(fragment / GROUP_FRAGMENTS);
                (control, Operation::Or(shade_bit(fragment)))
            }
            TurningStep::Blacken { fragment } => {
                let control = Address::Control(fragment / GROUP_FRAGMENTS);
                (control, Operation::Or(blacken_bit(fragment)))
            }
            TurningStep::MetaLoad { fragment } => {
                (Address::Word { fragment, part: 0 }, Operation::Load)
            }
            TurningStep::Free { group, bits } => {
                (Address::Control(group), Operation::And(free_mask(bits)))
            }
            TurningStep::Clear { group } => {
                (Address::Control(group), Operation::And(MARKS_CLEARED))
            }
        }
    }
}
