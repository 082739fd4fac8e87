//! Whether two frames are of one flow, told by their headers.

ghost use Rattle.std.specs.Prelude.{◌≡◌, ◌+◌, ◌<◌, ◌≤◌, ℕ, Some, List, length, slice_range};
ghost use Rattle.std.specs.Bool.{Decides};
ghost use Rattle.net_bytes.specs.Bytes.{byte};
ghost use Rattle.frame_layout.specs.Key.{key_of, IsHeadOf};
ghost use Rattle.frame_layout.specs.Plain.{plain_key};
ghost use Rattle.frame_layout.specs.Shape.{shape_of};

use crate::layout::Layout;
use crate::queue::{key, key_behind};
use crate::read::is_plain_there;
use net_bytes::{be32, be64};

/// Whether two frames have the same eight bytes at a place, compared as a number.
#[inline(always)]
fn is_word_same(first: &[u8], next: &[u8], at: usize) -> bool
    requires first { at + 8 ≤ length first.now }
    requires next { at + 8 ≤ length next.now }
    ensures same { Decides result ((k : ℕ) → at ≤ k → k < at + 8 → byte first.now k ≡ byte next.now k) }
{
    be64(first, at) == be64(next, at)
}

/// The same of four bytes.
#[inline(always)]
fn is_quad_same(first: &[u8], next: &[u8], at: usize) -> bool
    requires first { at + 4 ≤ length first.now }
    requires next { at + 4 ≤ length next.now }
    ensures same { Decides result ((k : ℕ) → at ≤ k → k < at + 4 → byte first.now k ≡ byte next.now k) }
{
    be32(first, at) == be32(next, at)
}

/// The same of twelve bytes, as a part of either frame.
#[inline(always)]
fn is_part_same(first: &[u8], next: &[u8], from: usize) -> bool
    requires first { from + 12 ≤ length first.now }
    requires next { from + 12 ≤ length next.now }
    ensures same { Decides result (slice_range first.now from (from + 12) ≡ slice_range next.now from (from + 12)) }
{
    is_word_same(first, next, from) && is_quad_same(first, next, from + 8)
}

/// Whether two frames have the same addresses and ports at the places where these lie behind Ethernet without tags,
/// IPv4 and TCP.
fn is_plain_key_same(first: &[u8], next: &[u8]) -> bool
    requires first { 54 ≤ length first.now }
    requires next { 54 ≤ length next.now }
    ensures same { Decides result (plain_key first.now ≡ plain_key next.now) }
{
    is_part_same(first, next, 26) && is_part_same(first, next, 0)
}

/// Whether a frame is of the flow of another one, `next`, whose layout is known. No key is made where both are of
/// Ethernet without tags, IPv4 and TCP. `first` and `next` are the frames' first 200 bytes, or all of them.
pub fn is_flow_of(first: &[u8], next: &[u8], layout: &Layout) -> bool
    requires shape { (f : List ℕ) × (IsHeadOf next.now f × (shape_of f ≡ Some layout.now)) }
    ensures same { (f g : List ℕ) → IsHeadOf first.now f → IsHeadOf next.now g
        → Decides result (key_of f ≡ key_of g) }
{
    if layout.is_plain() && is_plain_there(first) {
        return is_plain_key_same(first, next);
    }
    key(first) == key_behind(next, layout)
}
