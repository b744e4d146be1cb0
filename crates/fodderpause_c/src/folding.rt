ghost use Rattle.std.specs.Prelude.{◌≡◌, MatchResult};
ghost use Rattle.fodderpause_c.specs.Folding.{MayFold, RefusesFold, TakesIn, AreOfOneHeap, AreOfOneHeapIfThere, Folds, FoldsIn};

use crate::codes::answer_code;
use crate::handle::Handle;
use crate::party::Party;
use crate::refusal::Refusal;
use heap_model::SeatCalls;
use std::alloc::Global;

/// A collector and a seat that it didn't take in, as they were, and why.
#[derive(Drop)]
struct Unfolded {
    into: Box<Party, Global>,
    from: Box<Party, Global>,
    refusal: Refusal,
}

/// Whether the one is a collector and the other a seat that has left.
fn may_fold(into: &Party, from: &Party) -> Result<(), Refusal>
    ensures { MatchResult result (λ _. MayFold into.now from.now) (RefusesFold into.now from.now) }
{
    let Party::OfCollector(_) = into else {
        return Err(Refusal::NoParty);
    };
    let Party::OfSeat(seat) = from else {
        return Err(Refusal::NoParty);
    };
    if !seat.left() {
        return Err(Refusal::HasNotLeft);
    }
    Ok(())
}

/// The collector takes in the seat, which has left.
fn take_in(into: &mut Party, from: Party)
    requires may { MayFold into.old from }
    requires heap { AreOfOneHeap into.old from }
    ensures { TakesIn into.old into.new from }
{
    let Party::OfCollector(collector) = into else {
        unreachable!()
    };
    let Party::OfSeat(seat) = from else {
        unreachable!()
    };
    let holder = seat.into_holder();
    // That the seat's data are what its own list tells is known from here on.
    let _ = holder.party();
    collector.fold_in(holder);
}

/// The box of the collector, with the seat taken in where it may be.
fn folded(
    into: Box<Party, Global>,
    from: Box<Party, Global>,
) -> Result<Box<Party, Global>, Unfolded>
    requires { AreOfOneHeap into.value from.value }
    ensures { MatchResult result (λ now. MayFold into.value from.value × TakesIn into.value now.value from.value)
        (λ fault. RefusesFold into.value from.value fault.refusal × (fault.into.value ≡ into.value) × (fault.from.value ≡ from.value)) }
{
    if let Err(refusal) = may_fold(&*into, &*from) {
        return Err(Unfolded {
            into,
            from,
            refusal,
        });
    }
    let mut into = into;
    take_in(&mut *into, Box::into_inner(from));
    Ok(into)
}

/// Folds in the seat behind the one handle, where it may be, with the collector behind the other.
fn fold(alloc: Global, collector: &mut Handle, seat: &mut Handle) -> Result<(), Refusal>
    requires { AreOfOneHeapIfThere collector.old.pointer.party seat.old.pointer.party }
    ensures { Folds collector.old.pointer.party collector.new.pointer.party seat.old.pointer.party seat.new.pointer.party result }
{
    let Some(from) = seat.take(alloc) else {
        return Err(Refusal::NoParty);
    };
    let Some(into) = collector.take(alloc) else {
        seat.put(from);
        return Err(Refusal::NoParty);
    };
    match folded(into, from) {
        Ok(into) => {
            collector.put(into);
            Ok(())
        }
        Err(
            Unfolded {
                into,
                from,
                refusal,
            },
        ) => {
            collector.put(into);
            seat.put(from);
            Err(refusal)
        }
    }
}

/// The collector takes in a seat that has left, of the same heap. There is nothing behind the seat's handle then.
#[unsafe(no_mangle)]
pub extern "C" fn fodderpause_fold_in(
    alloc: Global,
    collector: &mut Handle,
    seat: &mut Handle,
) -> u32
    requires { AreOfOneHeapIfThere collector.old.pointer.party seat.old.pointer.party }
    ensures { FoldsIn collector.old.pointer.party collector.new.pointer.party seat.old.pointer.party seat.new.pointer.party result }
{
    answer_code(fold(alloc, collector, seat))
}
