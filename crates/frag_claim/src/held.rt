ghost use Rattle.std.specs.Prelude.{◌≡◌, ◌≤◌, length};

use arrayvec::ArrayVec;

/// The fragments that a seat keeps between two calls, and the group that its next claim goes to first.
#[derive(Drop)]
pub struct Reserve {
    pub fragments: ArrayVec<u16, 16>,
    pub cursor: u16,
}

/// The fragments that were gathered for an object.
#[derive(Drop)]
pub struct Hand {
    pub fragments: ArrayVec<u16, 1040>,
}

/// Puts these fragments into the place of those that it has.
pub(crate) fn refill<const N: usize>(buffer: &mut ArrayVec<u16, N>, fragments: &[u16])
    requires { length fragments.now ≤ N }
    ensures { buffer.new.items ≡ fragments.now }
{
    buffer.clear();
    match buffer.try_extend_from_slice(fragments) {
        Ok(()) => (),
        Err(_) => unreachable!(),
    }
}
