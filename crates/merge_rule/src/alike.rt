//! Whether two frames have the same headers, but for the fields that may differ.
ghost use Rattle.std.specs.Prelude.{◌≡◌, ◌+◌, ◌<◌, ◌≤◌, ◌++◌, ℕ, List, length};
ghost use Rattle.std.specs.Bool.{Decides};
ghost use Rattle.frame_layout.specs.Headers.{AreLaid, varying as varying_of};
ghost use Rattle.merge_rule.specs.Next.{AreSame, fields_at, varying_in, AreAlikeFrom, AreApart, AlikeTo};

use frame_layout::{Header, Layer};
use net_bytes::{be16, be32, be64};

/// Whether two frames have the same two bytes at a place, compared as a number.
#[inline(always)]
pub(crate) fn is_pair_same(first: &[u8], next: &[u8], at: usize) -> bool
    requires first { at + 2 ≤ length first.now }
    requires next { at + 2 ≤ length next.now }
    ensures same { Decides result (AreSame first.now next.now at (at + 2)) }
{
    be16(first, at) == be16(next, at)
}

/// The same of four bytes, as one number.
#[inline(always)]
pub(crate) fn is_quad_same(first: &[u8], next: &[u8], at: usize) -> bool
    requires first { at + 4 ≤ length first.now }
    requires next { at + 4 ≤ length next.now }
    ensures same { Decides result (AreSame first.now next.now at (at + 4)) }
{
    be32(first, at) == be32(next, at)
}

/// The same of eight bytes, as one number.
#[inline(always)]
fn is_word_same(first: &[u8], next: &[u8], at: usize) -> bool
    requires first { at + 8 ≤ length first.now }
    requires next { at + 8 ≤ length next.now }
    ensures same { Decides result (AreSame first.now next.now at (at + 8)) }
{
    be64(first, at) == be64(next, at)
}

/// The same of eight to sixteen bytes, as the numbers at both ends, which may have bytes in common.
#[inline(always)]
pub(crate) fn are_ends_same(first: &[u8], next: &[u8], from: usize, to: usize) -> bool
    requires least { from + 8 ≤ to }
    requires most { to ≤ from + 16 }
    requires first { to ≤ length first.now }
    requires next { to ≤ length next.now }
    ensures same { Decides result (AreSame first.now next.now from to) }
{
    is_word_same(first, next, from) && is_word_same(first, next, to - 8)
}

/// The same of fewer than eight bytes.
#[inline(always)]
fn are_few_same(first: &[u8], next: &[u8], from: usize, to: usize) -> bool
    requires range { from ≤ to }
    requires few { to < from + 8 }
    requires first { to ≤ length first.now }
    requires next { to ≤ length next.now }
    ensures same { Decides result (AreSame first.now next.now from to) }
{
    let len = to - from;
    if len == 0 {
        return true;
    }
    if len >= 4 {
        return is_quad_same(first, next, from) && is_quad_same(first, next, to - 4);
    }
    if len >= 2 {
        return is_pair_same(first, next, from) && is_pair_same(first, next, to - 2);
    }
    first[from] == next[from]
}

/// Whether two frames have the same bytes from one place to another. Mostly these are few, and no call is worth its
/// while.
#[inline(always)]
pub(crate) fn is_same(first: &[u8], next: &[u8], from: usize, to: usize) -> bool
    requires range { from ≤ to }
    requires first { to ≤ length first.now }
    requires next { to ≤ length next.now }
    ensures same { Decides result (AreSame first.now next.now from to) }
{
    let len = to - from;
    if len < 8 {
        return are_few_same(first, next, from, to);
    }
    if len <= 16 {
        return are_ends_same(first, next, from, to);
    }
    if len <= 32 {
        return are_ends_same(first, next, from, from + 16)
            && are_ends_same(first, next, to - 16, to);
    }
    are_many_same(first, next, from, to)
}

/// The same of any number of bytes.
fn are_many_same(first: &[u8], next: &[u8], from: usize, to: usize) -> bool
    requires range { from ≤ to }
    requires first { to ≤ length first.now }
    requires next { to ≤ length next.now }
    ensures same { Decides result (AreSame first.now next.now from to) }
{
    first[from..to] == next[from..to]
}

/// The fields of a header that may differ: where each begins in the header, and how many bytes it has.
fn varying(layer: Layer) -> &'static [(usize, usize)]
    ensures fields { result.now ≡ varying_of layer }
{
    match layer {
        Layer::Ip4 => &[(2, 2), (4, 2), (10, 2)],
        Layer::Ip6 => &[(4, 2)],
        Layer::Udp => &[(4, 2), (6, 2)],
        Layer::Tcp => &[(4, 4), (13, 1), (16, 2)],
        _ => &[],
    }
}

/// Whether two frames have the same bytes from a place on between these fields of a header at `at`; if so, the end of
/// the last field. The payload begins at `end`.
fn alike_to(
    first: &[u8],
    next: &[u8],
    from: usize,
    fields: &[(usize, usize)],
    at: usize,
    end: usize,
) -> Option<usize>
    requires apart { (rest : List (ℕ × ℕ)) × AreApart from (fields_at at fields.now ++ rest) end }
    requires first { end ≤ length first.now }
    requires next { end ≤ length next.now }
    ensures alike { AlikeTo first.now next.now end from (fields_at at fields.now) result }
{
    let mut to = from;
    for (place, len) in fields {
        if !is_same(first, next, to, at + place) {
            return None;
        }
        to = at + place + len;
    }
    Some(to)
}

/// Whether two frames have the same headers, up to the payload at `end`, but for the fields that may differ.
pub(crate) fn are_alike(first: &[u8], next: &[u8], headers: &[Header], end: usize) -> bool
    requires laid { AreLaid 0 headers.now end }
    requires first { end ≤ length first.now }
    requires next { end ≤ length next.now }
    ensures alike { Decides result (AreAlikeFrom first.now next.now end 0 (varying_in headers.now)) }
{
    let mut from = 0;
    for header in headers {
        let fields = varying(header.layer);
        let Some(to) = alike_to(first, next, from, fields, header.at as usize, end) else {
            return false;
        };
        from = to;
    }
    is_same(first, next, from, end)
}
