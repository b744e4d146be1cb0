ghost use Rattle.std.specs.Prelude.{◌≡◌, ◌+◌, ◌<◌};
ghost use Rattle.heap_model.specs.Limits.{set_limit};
ghost use Rattle.heap_model.specs.Command.{IsCommand};
ghost use Rattle.core_machine.specs.seat.Access.{side_register_of, offer_point_of, guard_point_of, after_side};
ghost use Rattle.core_machine.specs.declared.point.Side.TheVariants as sides;
ghost use Rattle.core_machine.specs.seat.AccessMoves.{old_word_of, replace_move};
ghost use Rattle.core_machine.specs.seat.Registers.{register_head, IsSmall};
ghost use Rattle.core_machine.specs.Moves.{seat_after};
ghost use Rattle.core_machine.specs.machine.Value.{KeepsRoom};

use crate::log::Entries;
use crate::point::{Access, Point, Side};
use crate::seat::SeatParty;
use crate::seat::commands::Operands;
use crate::seat::register::Register;
use heap_model::Reply;
use heap_words::stamp_in;

/// The new value is shaded where it is an object; then comes the comparison.
fn offer_point(new: &Register) -> Access
    ensures { result ≡ offer_point_of (register_head new.now) }
{
    match new {
        Register::Object { .. } => Access::ShadingSide(Side::New),
        Register::Nil | Register::Number(_) => Access::Replacing,
    }
}

impl<L: Entries> SeatParty<L> {
    /// The register with this value of a compare and swap.
    pub(crate) fn side_register(&self, side: Side) -> Register
        requires { IsCommand self.now.seat.command }
        ensures { result ≡ side_register_of self.now.seat side }
    {
        let operands = Operands::of(&self.command);
        let register = match side {
            Side::Expected => operands.expected,
            Side::New => operands.source,
        };
        self.registers[register as usize]
    }

    /// The word that is expected in the field.
    pub(crate) fn old_word(&self) -> u64
        requires command { IsCommand self.now.seat.command }
        requires small { IsSmall (side_register_of self.now.seat sides.Expected) }
        ensures { result ≡ old_word_of self.now.seat }
    {
        let stamp = self.seen[Operands::of(&self.command).expected as usize];
        self.side_register(Side::Expected).word(stamp)
    }

    /// The expected value is shaded where it is an object; then the new one.
    pub(crate) fn guard_point(&self) -> Access
        requires { IsCommand self.now.seat.command }
        ensures { result ≡ guard_point_of self.now.seat }
    {
        match self.side_register(Side::Expected) {
            Register::Object { .. } => Access::ShadingSide(Side::Expected),
            Register::Nil | Register::Number(_) => offer_point(&self.side_register(Side::New)),
        }
    }

    /// A value was shaded.
    pub(crate) fn learn_side(&mut self, side: Side)
        requires { IsCommand self.old.seat.command }
        ensures seat { self.new.seat ≡ after_side self.old.seat side }
        ensures spare { self.new.spare ≡ self.old.spare }
        ensures forgotten { self.new.forgotten ≡ self.old.forgotten }
    {
        let point = match side {
            Side::Expected => offer_point(&self.side_register(Side::New)),
            Side::New => Access::Replacing,
        };
        self.point = Point::Access(point);
    }

    /// Learns what the comparison found in the field.
    pub(crate) fn learn_replace(&mut self, number: u8, found: u64)
        requires command { IsCommand self.old.seat.command }
        requires small { IsSmall (side_register_of self.old.seat sides.Expected) }
        requires sets { self.old.seat.sets < set_limit }
        requires spare { 0 < self.old.spare }
        ensures seat { self.new.seat ≡ seat_after (replace_move number self.old.seat) found }
        ensures spare { KeepsRoom self.old self.new }
        ensures forgotten { self.new.forgotten ≡ self.old.forgotten }
    {
        let stamp = stamp_in(found);
        if found == self.old_word() {
            self.sets += 1;
            self.reply(number, Reply::Was(stamp));
        } else {
            self.reply(number, Reply::Now(stamp));
        }
    }
}
