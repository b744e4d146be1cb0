ghost use Rattle.std.specs.Prelude.{◌≡◌, ◌≢◌, ◌+◌, ◌^◌, ◌<◌, false, length, IfOk, OnOk, OnErr};
ghost use Rattle.heap_model.specs.declared.command.Command.TheVariants.{Collect};
ghost use Rattle.locked_heap.specs.Given.{IsGiven, script_of};
ghost use Rattle.locked_heap.specs.Locked.{IsRunFrom, AllHaveCome, IsParted, IsNext, SeatHasLeft, ComesOneFurther, OwesMore, OwesNoMore};
ghost use Rattle.locked_heap.specs.Progress.{progress_at};

use crate::handed::Handed;
use crate::progress::Progress;
use core_machine::Machine;
use core_rule::law_every_run;
use heap_model::{Command, Memory};
use heap_record::{Recorder, claimed};
use std::alloc::Global;
use std::marker::{Model, PhantomData};

mod collecting;
mod finishing;
mod turning;

/// The heap under the lock of a run: the machine with its history, and how far each seat has come with its script. No seat has a call in flight.
#[derive(Drop)]
pub struct Locked<N: Handed> {
    recorder: Recorder,
    seats: Vec<Progress>,
    patience: u32,
    /// How many fragments were claimed since the collector last made its slack.
    owed: u64,
    /// Whether the seats' workers have returned.
    over: bool,
    name: PhantomData<N>,
}

impl<N: Handed> Model for Locked<N> {
    ghost use Rattle.locked_heap.specs.Locked.{LockedValue, StandsLocked};

    ghost Value = { LockedValue };

    ghost view = { λ l. record { recorded = l.recorder; seats = l.seats.items; owed = l.owed; over = l.over } };

    ghost invariant = { λ l. StandsLocked N.given (record { recorded = l.recorder; seats = l.seats.items; owed = l.owed; over = l.over }) l.patience };
}

impl<N: Handed> Locked<N> {
    /// The heap as it was given: no seat has begun its script.
    pub fn new(alloc: Global, machine: Machine, patience: u32) -> Result<Locked<N>, Memory>
        requires given { IsGiven N.given }
        requires heap { machine.heap ≡ N.given.heap }
        requires opening { machine.state ≡ N.given.opening }
        requires patience { patience ≡ N.given.patience }
        ensures owed { IfOk result (λ locked. locked.owed ≡ 0) }
        ensures over { IfOk result (λ locked. locked.over ≡ false) }
    {
        let seats = machine.heap().seats as usize;
        let begin = Progress {
            position: 0,
            gone: false,
            target: None,
            paid: 0,
        };
        Ok(Locked {
            recorder: Recorder::new(alloc, machine),
            seats: vec![in alloc; begin; seats]?,
            patience,
            owed: 0,
            over: false,
            name: PhantomData,
        })
    }

    /// What is true of every one.
    pub fn known(&self)
        ensures run { IsRunFrom N.given self.now.recorded }
        ensures come { AllHaveCome N.given self.now.recorded.history self.now.recorded.machine.state self.now.seats }
        ensures parted { IsParted N.given self.now.recorded.history self.now.seats }
        ensures owed { self.now.owed < 2 ^ 64 }
    {
        let _owed = self.owed;
    }

    /// How far the seat has come.
    pub fn progress(&self, seat: u8) -> Progress
        requires { seat < N.given.heap.seats }
        ensures { result ≡ progress_at self.now.seats seat }
    {
        self.seats[seat as usize]
    }

    /// Makes the seat's next command, which is no collect.
    fn call(&mut self, seat: u8, command: &Command) -> Result<(), Memory>
        requires next { IsNext N.given self.old.seats seat command.now }
        requires once { command.now ≢ Collect }
        ensures further { ComesOneFurther self.old self.new seat }
        ensures onward { OnOk result ((progress_at self.new.seats seat).position ≡ (progress_at self.old.seats seat).position + 1) }
        ensures owes { OnOk result (OwesMore self.old self.new) }
        ensures still { OnErr result (OwesNoMore self.old self.new) }
    {
        law_every_run();
        let first = self.recorder.entries().len();
        self.recorder.call(seat, command)?;
        let (_, told) = self.recorder.entries().split_at(first);
        self.owed = self.owed.saturating_add(claimed(told));
        let progress = self.seats[seat as usize];
        self.seats[seat as usize] = Progress {
            position: progress.position + 1,
            ..progress
        };
        Ok(())
    }

    /// Lets the seat leave, all of whose commands are answered.
    fn leave(&mut self, seat: u8) -> Result<(), Memory>
        requires within { seat < N.given.heap.seats }
        requires there { (progress_at self.old.seats seat).gone ≡ false }
        requires through { (progress_at self.old.seats seat).position ≡ length (script_of N.given seat) }
        ensures further { ComesOneFurther self.old self.new seat }
        ensures left { OnOk result (SeatHasLeft self.new.seats seat) }
        ensures owed { OwesNoMore self.old self.new }
    {
        law_every_run();
        self.recorder.call(seat, &Command::Leave)?;
        let progress = self.seats[seat as usize];
        self.seats[seat as usize] = Progress {
            gone: true,
            ..progress
        };
        Ok(())
    }
}
