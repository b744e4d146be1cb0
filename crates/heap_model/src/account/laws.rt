ghost use Rattle.heap_model.specs.account.Turned.{TurnedMayStand, TurnedCountNothing, TurnedHoldNobody};

/// The laws of what the collector's commands were answered: put between the entries of a play, each where it shows what is so,
/// it leaves all of them legal, and it changes neither counts nor which seat is behind.
pub fn account_laws()
    ensures turned { TurnedMayStand }
    ensures counts { TurnedCountNothing }
    ensures behind { TurnedHoldNobody }
{}
