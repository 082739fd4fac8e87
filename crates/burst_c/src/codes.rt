//! What calls answer.
ghost use Rattle.std.specs.Prelude.{◌≡◌};
ghost use Rattle.burst_c.specs.Cutting.{cut_code_of as cut_code_said};
ghost use Rattle.burst_c.specs.Made.{code_of as code_said};

use frame_bursts::Refused;
use frame_cuts::CutRefused;

pub(crate) const OK: u32 = 0;

pub(crate) const USAGE: u32 = 2;

const FULL: u32 = 4;

pub(crate) const UNLAWFUL: u32 = 6;

pub(crate) const NO_MEMORY: u32 = 7;

const NO_ROOM: u32 = 9;

/// The number of a refusal.
pub(crate) fn code_of(refused: Refused) -> u32
    ensures code { result ≡ code_said refused }
{
    match refused {
        Refused::Usage => USAGE,
        Refused::Full => FULL,
        Refused::NoMemory => NO_MEMORY,
        Refused::NoRoom => NO_ROOM,
    }
}

/// The number of a refusal to cut.
pub(crate) fn cut_code_of(refused: CutRefused) -> u32
    ensures code { result ≡ cut_code_said refused }
{
    match refused {
        CutRefused::Usage => USAGE,
        CutRefused::Unlawful => UNLAWFUL,
        CutRefused::NoRoom => NO_ROOM,
    }
}
