ghost use Rattle.std.specs.Prelude.{◌≡◌, [], ◌∷◌, Some, None, IsSome, MatchOption};
ghost use Rattle.seat_berth.specs.Known.{opening_owner, opening_helper};
ghost use Rattle.seat_berth.specs.Owned.{IsTokenOf, IsOwner, IsHelper, MayGive, IsBackWith, IsTakenWith, IsMissed};
ghost use Rattle.seat_berth.specs.Resting.{IsOf};
ghost use Rattle.seat_berth.specs.Views.{owner_view, helper_view, owner_by, helper_by, parked_by, refused_by, given_by};
ghost use Rattle.seat_berth.specs.declared.view.View.TheVariants.{Opening};

use crate::plays::{Comes, Gives, HomeName, Opens, Parks, Resumes, Takes};
use crate::rule::{HeapSeat, Place, Token};
use std::alloc::Global;

/// The word that says that the owner has the seat.
const AWAY: u64 = 0;

/// The word that says that the seat rests.
const RESTS: u64 = 1;

/// The word that says that a helper has it.
const HELPED: u64 = 2;

/// The first party becomes the owner, and takes the empty slot.
pub(crate) fn open(place: &Place, token: &mut Token)
    requires of { IsTokenOf place.now.table_id token.old.table_id }
    requires first { (token.old.id ≡ 0) × (token.old.me ≡ (Opening, [])) }
    ensures same { (token.new.table_id ≡ token.old.table_id) × (token.new.id ≡ token.old.id) }
    ensures owner { token.new.me ≡ (owner_view opening_owner, (0, None) ∷ []) }
{
    place.store::<Opens>(token, 0, AWAY);
}

/// A helper comes.
pub(crate) fn come(place: &Place) -> Token
    requires words { place.now.table_id.words ≡ 1 }
    ensures of { result.table_id ≡ place.now.table_id }
    ensures helper { result.me ≡ (helper_view opening_helper, []) }
{
    let (_, token) = place.load_new_seat::<Comes>(0);
    token
}

/// The owner hands its seat in.
pub(crate) fn hand_in(place: &Place, token: &mut Token, seat: Box<HeapSeat, Global>)
    requires of { IsTokenOf place.now.table_id token.old.table_id }
    requires owner { IsOwner token.old.id token.old.me }
    requires away { (owner_by token.old.me.0).parked ≡ None }
    requires home { IsOf place.now.key seat.value }
    ensures same { (token.new.table_id ≡ token.old.table_id) × (token.new.id ≡ token.old.id) }
    ensures parked { token.new.me ≡ (owner_view (parked_by (owner_by token.old.me.0) (Some seat.value)), []) }
{
    let slot = place.exchange(token, 0, Some(seat));
    let None = slot else { unreachable!() };
    place.store::<Parks>(token, 0, RESTS);
}

/// The owner has its seat back, unless a helper has it.
pub(crate) fn have_back(place: &Place, token: &mut Token) -> Option<Box<HeapSeat, Global>>
    requires of { IsTokenOf place.now.table_id token.old.table_id }
    requires owner { IsOwner token.old.id token.old.me }
    requires parked { IsSome (owner_by token.old.me.0).parked }
    ensures same { (token.new.table_id ≡ token.old.table_id) × (token.new.id ≡ token.old.id) }
    ensures back { MatchOption result (token.new.me ≡ (owner_view (refused_by (owner_by token.old.me.0) 2), [])) (λ seat. IsBackWith (owner_by token.old.me.0) token.new.me seat.value) }
{
    if place.compare_exchange::<Resumes>(token, 0, RESTS, AWAY) != RESTS {
        return None;
    }
    let slot = place.exchange(token, 0, None);
    let Some(seat) = slot else { unreachable!() };
    Some(seat)
}

/// A helper takes the seat, where it rests.
pub(crate) fn take<H: HomeName>(place: &Place, token: &mut Token) -> Option<Box<HeapSeat, Global>>
    requires of { IsTokenOf place.now.table_id token.old.table_id }
    requires helper { IsHelper token.old.me }
    requires home { place.now.key ≡ H.home }
    ensures same { (token.new.table_id ≡ token.old.table_id) × (token.new.id ≡ token.old.id) }
    ensures taken { MatchOption result (IsMissed (helper_by token.old.me.0) token.new.me) (λ seat. IsTakenWith H.home (helper_by token.old.me.0) token.new.me seat.value) }
{
    if place.compare_exchange::<Takes<H>>(token, 0, RESTS, HELPED) != RESTS {
        return None;
    }
    let slot = place.exchange(token, 0, None);
    let Some(seat) = slot else { unreachable!() };
    Some(seat)
}

/// A helper gives the seat back.
pub(crate) fn give_back(place: &Place, token: &mut Token, seat: Box<HeapSeat, Global>)
    requires of { IsTokenOf place.now.table_id token.old.table_id }
    requires may { MayGive token.old.me seat.value }
    ensures same { (token.new.table_id ≡ token.old.table_id) × (token.new.id ≡ token.old.id) }
    ensures given { token.new.me ≡ (helper_view (given_by (helper_by token.old.me.0) (Some seat.value)), []) }
{
    let slot = place.exchange(token, 0, Some(seat));
    let None = slot else { unreachable!() };
    place.store::<Gives>(token, 0, RESTS);
}
