//! Why a frame has no shape, by its first IP header.
ghost use Rattle.std.specs.Prelude.{◌≡◌, ◌≢◌, ◌+◌, ◌≤◌, ◌<◌, ◌^◌, length};
ghost use Rattle.frame_causes.specs.Causes.{network_at as network_said, ip4_cause as ip4_said};
ghost use Rattle.frame_causes.specs.Causes.{is_extension as extension_said};
ghost use Rattle.frame_causes.specs.Causes.{ip6_cause as ip6_said, shape_cause as shape_said};
ghost use Rattle.frame_causes.specs.declared.cause.Cause.TheVariants.{Mergeable};
ghost use Rattle.net_bytes.specs.Bytes.{byte, be16 as be16_of};

use crate::cause::Cause;
use eth_vlan::is_tag;

/// A byte of a frame, 0 behind its end.
fn byte_at(frame: &[u8], at: usize) -> u8
    ensures byte { result ≡ byte frame.now at }
{
    if at < frame.len() { frame[at] } else { 0 }
}

/// Two bytes of a frame, the high one first.
fn be16_at(frame: &[u8], at: usize) -> u16
    requires low { at < 2 ^ 32 }
    ensures number { result ≡ be16_of frame.now at }
{
    256 * u16::from(byte_at(frame, at)) + u16::from(byte_at(frame, at + 1))
}

/// Where what is behind the tags begins.
fn network_at(frame: &[u8]) -> usize
    ensures at { result ≡ network_said frame.now }
    ensures low { (14 ≤ result) }
    ensures few { result ≤ 22 }
{
    if !is_tag(be16_at(frame, 12)) {
        return 14;
    }
    if is_tag(be16_at(frame, 16)) { 22 } else { 18 }
}

fn ip4_cause(frame: &[u8], at: usize) -> Cause
    requires low { at ≤ 22 }
    ensures cause { result ≡ ip4_said frame.now at }
    ensures stops { result ≢ Mergeable }
{
    if be16_at(frame, at + 6) % 0x4000 != 0 {
        return Cause::Fragment;
    }
    if byte_at(frame, at) % 16 != 5 {
        return Cause::Options;
    }
    Cause::Layout
}

/// Whether a header of this number stands between IPv6's and what it carries, and is no fragment's.
fn is_extension(number: u8) -> bool
    ensures extension { result ≡ extension_said number }
{
    number == 0
        || (number == 43
            || (number == 51
                || (number == 60 || (number == 135 || (number == 139 || number == 140)))))
}

fn ip6_cause(frame: &[u8], at: usize) -> Cause
    requires low { at ≤ 22 }
    ensures cause { result ≡ ip6_said frame.now at }
    ensures stops { result ≢ Mergeable }
{
    let next = byte_at(frame, at + 6);
    if next == 44 {
        return Cause::Fragment;
    }
    if is_extension(next) {
        return Cause::Extension;
    }
    Cause::Layout
}

/// Why a frame without a shape has none.
pub(crate) fn shape_cause(frame: &[u8]) -> Cause
    ensures cause { result ≡ shape_said frame.now }
    ensures stops { result ≢ Mergeable }
{
    let at = network_at(frame);
    let kind = be16_at(frame, at - 2);
    if kind == 0x0800 {
        return ip4_cause(frame, at);
    }
    if kind == 0x86dd {
        return ip6_cause(frame, at);
    }
    Cause::Layout
}
