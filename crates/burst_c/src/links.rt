//! What packets begin with, as C says it.
ghost use Rattle.std.specs.Prelude.{◌≡◌, true, false};
ghost use Rattle.std.specs.Bool.{Decides};
ghost use Rattle.burst_c.specs.LinkNumbers.{link_of as link_said, IsLink};

use frame_bursts::Link;

/// Whether a number is one of 1 and 101.
pub(crate) fn is_link(number: u32) -> bool
    ensures link { Decides result (IsLink number) }
{
    number == 1 || number == 101
}

/// What packets begin with, by its number: 101 is raw IP.
pub(crate) fn link_of(number: u32) -> Link
    ensures link { result ≡ link_said number }
{
    if number == 101 {
        return Link::RawIp;
    }
    Link::Ethernet
}
