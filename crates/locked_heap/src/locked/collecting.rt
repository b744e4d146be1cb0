ghost use Rattle.std.specs.Prelude.{◌≡◌, ◌<◌, ◌↔◌, ℕ, IsTrue, Some, None, OnOk};
ghost use Rattle.heap_model.specs.declared.calls.collect.CollectReply.TheVariants.{Cycle};
ghost use Rattle.heap_model.specs.declared.command.Command.TheVariants.{Collect};
ghost use Rattle.core_machine.specs.machine.Machine.{BeginsInner, Can, seat_at};
ghost use Rattle.core_machine.specs.seat.Looks.{MayNote};
ghost use Rattle.locked_heap.specs.Locked.{IsNext, IsCollecting, ComesOneFurther, OwesNoMore, IsQuiet, IsPatient, MayAnswer, HasSeenEnd, TellsAnswer, AnswersWait, found_by_turn, CollectsOn};
ghost use Rattle.locked_heap.specs.Progress.{progress_at};
ghost use Rattle.heap_record.specs.Recorded.{MakesInner};

use crate::handed::Handed;
use crate::locked::Locked;
use crate::progress::Progress;
use core_rule::law_every_run;
use heap_model::phase_plan::CYCLE_PHASES;
use heap_model::{CollectReply, CollectorCalls, Inner, Memory, Turn};
use heap_record::next_whole_cycle;

/// The inner call by which the seat finds out what a turn of its collect came to.
fn found_by_turn(seat: u8, turn: Turn) -> Inner
    ensures { result ≡ found_by_turn seat turn }
{
    match turn {
        Turn::Waits { seat: other, .. } => {
            if other == seat {
                Inner::Answer
            } else {
                Inner::Behind { seat: other }
            }
        }
        Turn::Stepped | Turn::Ended { .. } => Inner::Look,
    }
}

impl<N: Handed> Locked<N> {
    /// How often the seat has found another one behind.
    pub fn finds(&self, seat: u8) -> u64
        requires { seat < N.given.heap.seats }
        ensures { result ≡ (seat_at self.now.recorded.machine.state seat).looks.waits }
    {
        law_every_run();
        self.recorder.looks(seat).waits
    }

    /// Makes an inner call of the seat's collect that tells no reply, where the seat may make it.
    fn inner(&mut self, seat: u8, inner: Inner) -> Result<(), Memory>
        requires collects { IsCollecting N.given self.old.seats seat }
        requires quiet { IsQuiet inner }
        ensures makes { OnOk result (Can self.old.recorded.machine.heap self.old.recorded.machine.state (BeginsInner seat inner) → MakesInner self.old.recorded self.new.recorded seat inner) }
        ensures seats { self.new.seats ≡ self.old.seats }
        ensures owed { OwesNoMore self.old self.new }
        ensures over { self.new.over ≡ self.old.over }
    {
        if self.recorder.may_make(seat, &inner) {
            self.recorder.inner(seat, inner)?;
        }
        Ok(())
    }

    /// Answers the seat's collect, which is its next command, by what it has found.
    fn note(&mut self, seat: u8, came: CollectReply) -> Result<(), Memory>
        requires next { IsNext N.given self.old.seats seat Collect }
        requires found { MayNote (seat_at self.old.recorded.machine.state seat).looks came }
        requires may { MayAnswer N.given self.old seat came }
        ensures answers { OnOk result (TellsAnswer self.old self.new seat came) }
        ensures further { ComesOneFurther self.old self.new seat }
        ensures owed { OwesNoMore self.old self.new }
    {
        law_every_run();
        let finds = self.finds(seat);
        self.recorder.inner(seat, Inner::Note(came))?;
        let progress = self.seats[seat as usize];
        self.seats[seat as usize] = Progress {
            position: progress.position + 1,
            target: None,
            paid: finds,
            ..progress
        };
        Ok(())
    }

    /// Begins the seat's collect, which is its next command: looks at the phase, by which it knows the cycle whose end it is to see.
    fn begin_collect(&mut self, seat: u8) -> Result<(), Memory>
        requires next { IsNext N.given self.old.seats seat Collect }
        requires fresh { (progress_at self.old.seats seat).target ≡ None }
        ensures begun { OnOk result (IsCollecting N.given self.new.seats seat) }
        ensures further { ComesOneFurther self.old self.new seat }
        ensures owed { OwesNoMore self.old self.new }
    {
        law_every_run();
        let paid = self.finds(seat);
        let target = next_whole_cycle(self.recorder.phase());
        self.recorder.inner(seat, Inner::Look)?;
        let progress = self.seats[seat as usize];
        self.seats[seat as usize] = Progress {
            target: Some(target),
            paid,
            ..progress
        };
        Ok(())
    }

    /// Whether the seat has found another one behind, since its collect began, as often as its patience asks.
    fn was_patient(&self, seat: u8) -> bool
        requires { seat < N.given.heap.seats }
        ensures { IsTrue result ↔ IsPatient N.given self.now seat }
    {
        let finds = self.finds(seat);
        self.seats[seat as usize]
            .paid
            .saturating_add(u64::from(self.patience))
            <= finds
    }

    /// Whether the seat has seen that the cycle has ended.
    fn saw_end(&self, seat: u8, cycle: u64) -> bool
        requires { seat < N.given.heap.seats }
        ensures { IsTrue result ↔ HasSeenEnd self.now seat cycle }
    {
        law_every_run();
        cycle < self.recorder.looks(seat).seen / CYCLE_PHASES
    }

    /// Answers the seat's collect that it waits for the seat that it has found behind last, once it was patient.
    fn note_wait(&mut self, seat: u8) -> Result<(), Memory>
        requires { IsNext N.given self.old.seats seat Collect }
        ensures answers { OnOk result (AnswersWait N.given self.old self.new seat) }
        ensures further { ComesOneFurther self.old self.new seat }
        ensures owed { OwesNoMore self.old self.new }
    {
        law_every_run();
        let Some(found) = self.recorder.looks(seat).behind else {
            return Ok(());
        };
        if !self.was_patient(seat) {
            return Ok(());
        }
        self.note(seat, CollectReply::from(found))
    }

    /// Answers the seat's collect, once what it has found answers it: first that its cycle has ended, and only else that it waits.
    fn answer(&mut self, seat: u8, target: u64) -> Result<(), Memory>
        requires next { IsNext N.given self.old.seats seat Collect }
        requires target { (progress_at self.old.seats seat).target ≡ Some target }
        ensures ended { OnOk result (HasSeenEnd self.old seat target → TellsAnswer self.old self.new seat (Cycle target)) }
        ensures waits { OnOk result (¬ HasSeenEnd self.old seat target → AnswersWait N.given self.old self.new seat) }
        ensures further { ComesOneFurther self.old self.new seat }
        ensures owed { OwesNoMore self.old self.new }
    {
        self.known();
        if self.saw_end(seat, target) {
            return self.note(seat, CollectReply::Cycle(target));
        }
        self.note_wait(seat)
    }

    /// Goes on with the seat's collect, which is its next command: begins it, or makes one turn for it.
    pub fn collect(&mut self, seat: u8) -> Result<(), Memory>
        requires { IsNext N.given self.old.seats seat Collect }
        ensures begins { (progress_at self.old.seats seat).target ≡ None → OnOk result (IsCollecting N.given self.new.seats seat) }
        ensures goes_on { (target : ℕ) → (progress_at self.old.seats seat).target ≡ Some target → OnOk result (CollectsOn N.given self.old self.new seat target) }
        ensures further { ComesOneFurther self.old self.new seat }
        ensures owed { OwesNoMore self.old self.new }
    {
        let Some(target) = self.progress(seat).target else {
            return self.begin_collect(seat);
        };
        self.recorder.room(2)?;
        let turn = self.recorder.turn();
        self.inner(seat, found_by_turn(seat, turn))?;
        self.answer(seat, target)
    }
}
