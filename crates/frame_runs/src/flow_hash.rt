//! A hash of a packet's flow, read where its headers lie.
ghost use Rattle.std.specs.Prelude.{◌≡◌, ◌≤◌, Some, List, ℕ, length};
ghost use Rattle.frame_layout.specs.Key.{key_of, IsHeadOf};
ghost use Rattle.frame_layout.specs.Plain.{plain_key};
ghost use Rattle.frame_layout.specs.Shape.{shape_of};
ghost use Rattle.merge_rule.specs.Runs.{IsShaped};
ghost use Rattle.frame_runs.specs.Flows.{mixed as mixed_of, hash_of};

use crate::frame::Frame;
use frame_layout::{Key, Layout, key_behind, shape};
use merge_rule::Candidacy;
use net_bytes::be32;

/// A hash of a key's last words: the ports, and of both addresses what differs most.
fn mixed(ports: u32, nearer: u32, farther: u32, host: u32) -> u32
    ensures hash { result ≡ mixed_of ports nearer farther host }
{
    ports
        .wrapping_mul(0x9e37_79b1)
        .wrapping_add(nearer)
        .wrapping_mul(0x9e37_79b1)
        .wrapping_add(farther)
        .wrapping_mul(0x9e37_79b1)
        .wrapping_add(host)
        .wrapping_mul(0x9e37_79b1)
}

/// The hash of a key of these bytes.
fn bytes_hash(bytes: &[u8]) -> u32
    ensures hash { result ≡ hash_of (Some bytes.now) }
{
    let n = bytes.len();
    if n < 26 {
        return 0;
    }
    mixed(
        be32(bytes, n - 4),
        be32(bytes, n - 9),
        be32(bytes, n - 13),
        be32(bytes, n - 25),
    )
}

/// The hash of a key.
fn key_hash(key: &Key) -> u32
    ensures hash { result ≡ hash_of key.now }
{
    match key.bytes() {
        Some(bytes) => bytes_hash(bytes),
        None => 0,
    }
}

/// The hash of a frame's key behind Ethernet without tags, IPv4 and TCP, whose words lie at fixed places.
fn plain_hash(head: &[u8]) -> u32
    requires long { 54 ≤ length head.now }
    ensures hash { result ≡ hash_of (Some (plain_key head.now)) }
{
    let ports = be32(head, 34);
    let nearer = be32(head, 30);
    let farther = be32(head, 26);
    let host = be32(head, 1);
    mixed(ports, nearer, farther, host)
}

/// The hash of the key of a frame of this layout.
fn layout_hash(head: &[u8], layout: &Layout) -> u32
    requires shape { (f : List ℕ) × (IsHeadOf head.now f × (shape_of f ≡ Some layout.now)) }
    ensures hash { (f : List ℕ) → IsHeadOf head.now f → shape_of f ≡ Some layout.now
        → result ≡ hash_of (key_of f) }
{
    if layout.is_plain() {
        return plain_hash(head);
    }
    other_hash(head, layout)
}

/// The same of other headers, of which a key is put together. It isn't inlined, since the room for the key is set to
/// zero where it is.
#[inline(never)]
fn other_hash(head: &[u8], layout: &Layout) -> u32
    requires shape { (f : List ℕ) × (IsHeadOf head.now f × (shape_of f ≡ Some layout.now)) }
    ensures hash { (f : List ℕ) → IsHeadOf head.now f → result ≡ hash_of (key_of f) }
{
    let key = key_behind(head, layout);
    key_hash(&key)
}

/// The same where the layout isn't known.
fn head_hash(head: &[u8]) -> u32
    ensures hash { (f : List ℕ) → IsHeadOf head.now f → result ≡ hash_of (key_of f) }
{
    match shape(head) {
        Some(layout) => layout_hash(head, &layout),
        None => 0,
    }
}

/// The hash of the key of a packet's flow. The headers of a packet that may be merged aren't walked again.
pub(crate) fn flow_hash<F: Frame>(slot: &F, candidacy: &Candidacy) -> u32
    requires slot { F.is_held slot.now }
    requires shaped { IsShaped candidacy.now.layout (F.packet slot.now).frame }
    ensures hash { result ≡ hash_of (key_of (F.packet slot.now).frame) }
{
    match &candidacy.layout {
        Some(layout) => layout_hash(slot.head(), layout),
        None => head_hash(slot.head()),
    }
}

/// The same of any packet.
pub(crate) fn hash_in<F: Frame>(slot: &F) -> u32
    requires slot { F.is_held slot.now }
    ensures hash { result ≡ hash_of (key_of (F.packet slot.now).frame) }
{
    head_hash(slot.head())
}
