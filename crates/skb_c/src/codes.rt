//! What calls answer.
ghost use Rattle.std.specs.Prelude.{◌≡◌};
ghost use Rattle.skb_c.specs.Codes.{room_code as room_code_said, share_code as share_code_said};

use frags::ShareFault;
use skb::RoomFault;

pub(crate) const OK: u32 = 0;

pub(crate) const USAGE: u32 = 2;

pub(crate) const EMPTY: u32 = 4;

pub(crate) const NOT_SOLE: u32 = 5;

pub(crate) const NO_MEMORY: u32 = 7;

pub(crate) const NO_ROOM: u32 = 9;

/// What putting bytes into a head comes to.
pub(crate) fn room_code(done: Result<(), RoomFault>) -> u32
    ensures code { result ≡ room_code_said done }
{
    match done {
        Ok(()) => OK,
        Err(RoomFault::NoRoom { have: _, need: _ }) => NO_ROOM,
        Err(RoomFault::Shared) => NOT_SOLE,
    }
}

/// Why a buffer isn't shared.
pub(crate) fn share_code(fault: ShareFault) -> u32
    ensures code { result ≡ share_code_said fault }
{
    match fault {
        ShareFault::Short { have: _, need: _ } => USAGE,
        ShareFault::Worn => NOT_SOLE,
        ShareFault::NoMemory => NO_MEMORY,
    }
}
