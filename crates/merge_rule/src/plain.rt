//! The rule where the headers are Ethernet without tags, IPv4 or IPv6, and TCP: these lie at fixed places.
ghost use Rattle.std.specs.Prelude.{◌≤◌, ◌+◌, length};
ghost use Rattle.std.specs.Bool.{Decides};
ghost use Rattle.frame_layout.specs.Plain.{plain_headers, plain6_headers};
ghost use Rattle.merge_rule.specs.Next.{AreAlikeFrom, AreSame, varying_in};
ghost use Rattle.merge_rule.specs.Plain.{AreHeadersNext};

use crate::alike::{are_ends_same, is_pair_same, is_quad_same, is_same};
use crate::next::{is_next_header, is_next_id};
use frame_layout::{IP, IP6, TCP, TCP6};

/// Whether two frames have the same bytes between the fields that may differ. What mostly differs where two packets are
/// of two flows, addresses and ports, is compared first.
#[inline(always)]
fn are_same(first: &[u8], next: &[u8], end: usize) -> bool
    requires first { end ≤ length first.now }
    requires next { end ≤ length next.now }
    requires there { 54 ≤ end }
    ensures alike { Decides result (AreAlikeFrom first.now next.now end 0 (varying_in plain_headers)) }
{
    // Told once, so that no place is checked on its own.
    if first.len() < 54 || next.len() < 54 {
        return false;
    }
    are_ends_same(first, next, 26, 38)
        && are_ends_same(first, next, 0, 16)
        && is_quad_same(first, next, 20)
        && is_quad_same(first, next, 42)
        && first[46] == next[46]
        && is_pair_same(first, next, 48)
        && is_same(first, next, 52, end)
}

/// What the rule asks of the headers.
pub(crate) fn are_plain_next(
    first: &[u8],
    next: &[u8],
    end: usize,
    further: u32,
    total: usize,
    count: usize,
    modes: u8,
) -> bool
    requires first { end ≤ length first.now }
    requires next { end ≤ length next.now }
    requires there { 54 ≤ end }
    ensures next { Decides result (AreHeadersNext first.now next.now end further total count modes plain_headers) }
{
    are_same(first, next, end)
        && is_next_header(first, next, further, total, TCP)
        && is_next_header(first, next, further, total, IP)
        && is_next_id(first, next, count, modes, IP)
}

/// Whether two frames with IPv6 have the same bytes from its next header on: addresses and ports.
#[inline(always)]
fn are_hosts_same6(first: &[u8], next: &[u8]) -> bool
    requires first { 58 ≤ length first.now }
    requires next { 58 ≤ length next.now }
    ensures same { Decides result (AreSame first.now next.now 20 58) }
{
    are_ends_same(first, next, 42, 58)
        && are_ends_same(first, next, 26, 42)
        && is_quad_same(first, next, 20)
        && is_quad_same(first, next, 22)
}

/// Whether they have the same bytes before IPv6's payload length.
#[inline(always)]
fn is_link_same6(first: &[u8], next: &[u8]) -> bool
    requires first { 58 ≤ length first.now }
    requires next { 58 ≤ length next.now }
    ensures same { Decides result (AreSame first.now next.now 0 18) }
{
    are_ends_same(first, next, 0, 16) && is_pair_same(first, next, 16)
}

/// The same bytes with IPv6.
#[inline(always)]
fn are_same6(first: &[u8], next: &[u8], end: usize) -> bool
    requires first { end ≤ length first.now }
    requires next { end ≤ length next.now }
    requires there { 74 ≤ end }
    ensures alike { Decides result (AreAlikeFrom first.now next.now end 0 (varying_in plain6_headers)) }
{
    if first.len() < 74 || next.len() < 74 {
        return false;
    }
    are_hosts_same6(first, next)
        && is_link_same6(first, next)
        && is_quad_same(first, next, 62)
        && first[66] == next[66]
        && is_pair_same(first, next, 68)
        && is_same(first, next, 72, end)
}

/// What the rule asks of the headers with IPv6, which has no identification.
pub(crate) fn are_plain6_next(
    first: &[u8],
    next: &[u8],
    end: usize,
    further: u32,
    total: usize,
    count: usize,
    modes: u8,
) -> bool
    requires first { end ≤ length first.now }
    requires next { end ≤ length next.now }
    requires there { 74 ≤ end }
    ensures next { Decides result (AreHeadersNext first.now next.now end further total count modes plain6_headers) }
{
    are_same6(first, next, end)
        && is_next_header(first, next, further, total, TCP6)
        && is_next_header(first, next, further, total, IP6)
        && is_next_id(first, next, count, modes, IP6)
}
