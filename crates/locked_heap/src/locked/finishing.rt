ghost use Rattle.std.specs.Prelude.{◌≡◌, ◌<◌, map, length, IfOk, OnOk};
ghost use Rattle.std.specs.List.{range_with_len};
ghost use Rattle.core_machine.specs.machine.Machine.{seat_at};
ghost use Rattle.locked_heap.specs.Given.{script_of};
ghost use Rattle.locked_heap.specs.Locked.{SeatHasLeft, ComesOneFurther, OwesMore, KeepsGone, AllGone};
ghost use Rattle.locked_heap.specs.Progress.{progress_at};
ghost use Rattle.locked_heap.specs.Ran.{IsRun};

use crate::handed::Handed;
use crate::locked::Locked;
use crate::progress::Progress;
use crate::ran::LockedRan;
use core_rule::{law_every_run, law_sweep_exact};
use heap_model::{Command, Memory};
use heap_record::end_whole_cycle;
use std::alloc::Global;
use std::sync::Wait;

impl<N: Handed> Locked<N> {
    /// Goes on with the seat's script, which is this one, and answers how far it has come: makes its next command, or of a collect a part; lets the seat
    /// leave once all commands are answered.
    pub fn go_on(&mut self, seat: u8, script: &[Command]) -> Result<Progress, Memory>
        requires within { seat < N.given.heap.seats }
        requires script { script.now ≡ script_of N.given seat }
        ensures progress { IfOk result (λ progress. progress ≡ progress_at self.new.seats seat) }
        ensures further { ComesOneFurther self.old self.new seat }
        ensures leaves { OnOk result ((progress_at self.old.seats seat).position ≡ length (script_of N.given seat) → SeatHasLeft self.new.seats seat) }
        ensures owes { OwesMore self.old self.new }
    {
        self.known();
        let progress = self.progress(seat);
        if progress.gone {
            return Ok(progress);
        }
        match script.get(progress.position) {
            None => self.leave(seat)?,
            Some(Command::Collect) => self.collect(seat)?,
            Some(command) => self.call(seat, command)?,
        }
        Ok(self.progress(seat))
    }

    /// Makes all that the seat's script still has, and lets the seat leave.
    fn finish_seat<R: Wait>(&mut self, rt: &R, seat: u8, script: &[Command]) -> Result<(), Memory>
        requires within { seat < N.given.heap.seats }
        requires script { script.now ≡ script_of N.given seat }
        ensures left { OnOk result (SeatHasLeft self.new.seats seat) }
        ensures gone { KeepsGone self.old.seats self.new.seats }
    {
        for _ in rt.forever() {
            if self.go_on(seat, script)?.gone {
                return Ok(());
            }
        }
        unreachable!()
    }

    /// Makes all that the scripts still have, and lets every seat leave.
    pub fn finish_all<R: Wait>(&mut self, rt: &R, scripts: &[Vec<Command>]) -> Result<(), Memory>
        requires scripts { map (λ script. script.items) scripts.now ≡ N.given.scripts }
        ensures { OnOk result (AllGone N.given self.new.seats) }
    {
        self.known();
        for seat in 0..self.recorder.heap().seats {
            self.finish_seat(rt, seat, scripts[seat as usize].as_slice())?;
        }
        Ok(())
    }

    /// How often each seat has found another one behind.
    fn finds_of_all(&self, alloc: Global) -> Result<Vec<u64>, Memory>
        ensures { IfOk result (λ finds. finds.items ≡ map (λ number. (seat_at self.now.recorded.machine.state number).looks.waits) (range_with_len 0 N.given.heap.seats)) }
    {
        self.known();
        let mut finds = Vec::new(alloc);
        for seat in 0..self.recorder.heap().seats {
            finds.push(self.finds(seat))?;
        }
        Ok(finds)
    }

    /// Makes what the scripts still have, lets each seat leave, and makes a last cycle. At its end nothing is in use.
    pub fn finish<R: Wait>(
        mut self,
        rt: &R,
        alloc: Global,
        scripts: &[Vec<Command>],
    ) -> Result<LockedRan, Memory>
        requires scripts { map (λ script. script.items) scripts.now ≡ N.given.scripts }
        ensures { IfOk result (IsRun N.given) }
    {
        law_every_run();
        law_sweep_exact();
        self.finish_all(rt, scripts)?;
        self.known();
        let waits = self.finds_of_all(alloc)?;
        let mut recorder = self.recorder;
        end_whole_cycle(rt, &mut recorder)?;
        Ok(LockedRan {
            history: recorder.into_entries(),
            end_used: 0,
            waits,
        })
    }
}
