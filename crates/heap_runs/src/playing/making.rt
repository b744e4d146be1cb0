ghost use Rattle.std.specs.Prelude.{IfOk};
ghost use Rattle.press_alloc.specs.Presses.{IsAllocation};
ghost use Rattle.heap_runs.specs.PlayHeap.{MayCall, AnswersCall};
ghost use Rattle.heap_runs.specs.Playing.{NotesCommand};
ghost use Rattle.heap_runs.specs.Pressed.{MakesCommand, PressesCommand};

use crate::play_heap::PlayHeap;
use heap_model::{Command, Entry, Memory, Reply};
use press_alloc::{Caller, press};

/// How a play makes a command that allocates: once, or by a press, which makes it again behind a collect where it is
/// refused for want of space.
#[derive(Clone, Copy)]
pub enum Allocating {
    Once,
    Pressed,
}

/// A heap that is played on, as one whose seats are pressed.
#[derive(Drop)]
struct PressedHeap<H: PlayHeap> {
    whole: H,
}

impl<H: PlayHeap> Caller for PressedHeap<H> {
    ghost heap = { λ pressed. (H.state pressed.whole).heap };

    ghost history = { λ pressed. (H.state pressed.whole).entries };

    ghost called = { λ old new number command reply. AnswersCall (H.state old.whole) (H.state new.whole) number command reply };

    fn call(&mut self, seat: u8, command: &Command) -> Result<Reply, Memory> {
        let reply = self.whole.call(seat, command)?;
        // What was told is a play: `entries` says so, and no call does.
        let _ = self.whole.entries();
        Ok(reply)
    }

    fn entries(&self) -> &[Entry] {
        self.whole.entries()
    }
}

/// Makes the seat's command, and where it is refused for want of space lets the seat collect and makes it again.
fn press_on<H: PlayHeap + Drop>(whole: H, seat: u8, command: &Command) -> Result<H, Memory>
    requires may { MayCall (H.state whole) seat command.now }
    requires allocates { IsAllocation command.now }
    ensures { IfOk result (λ now. NotesCommand PressesCommand (H.state whole) (H.state now) seat command.now) }
{
    let mut pressed = PressedHeap { whole };
    press(&mut pressed, seat, command)?;
    let PressedHeap { whole } = pressed;
    Ok(whole)
}

/// Makes the seat's command in this way: by a press where it allocates and seats are pressed, and else by one call.
pub fn make_command<H: PlayHeap + Drop>(
    mut whole: H,
    way: Allocating,
    seat: u8,
    command: &Command,
) -> Result<H, Memory>
    requires { MayCall (H.state whole) seat command.now }
    ensures { IfOk result (λ now. NotesCommand (MakesCommand way) (H.state whole) (H.state now) seat command.now) }
{
    match (way, *command) {
        (Allocating::Pressed, Command::New { .. } | Command::Array { .. }) => {
            press_on(whole, seat, command)
        }
        _ => {
            whole.call(seat, command)?;
            Ok(whole)
        }
    }
}
