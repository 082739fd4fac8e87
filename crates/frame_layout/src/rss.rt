//! What receive side scaling reads of a flow's key.

ghost use Rattle.std.specs.Prelude.{◌≡◌, ℕ, ◌+◌, ◌<◌, ◌≤◌, ◌++◌, Some, length, take, drop, slice_index};
ghost use Rattle.frame_layout.specs.Rss.{has_ports as has_ports_of, is_tag_mark as is_tag_mark_of, ports_in};
ghost use Rattle.frame_layout.specs.Rss.{addresses_in, behind_ip as behind_ip_of, behind_tag as behind_tag_of};
ghost use Rattle.frame_layout.specs.Rss.{from_ip as from_ip_of, rss_of};

use crate::flow::Key;

/// The first byte, or 0.
fn first(bytes: &[u8]) -> u8
    ensures first { result ≡ slice_index bytes.now 0 }
{
    if bytes.is_empty() { 0 } else { bytes[0] }
}

/// The bytes from the place on, where there are such.
fn behind(bytes: &[u8], at: usize) -> &[u8]
    ensures rest { result.now ≡ drop at bytes.now }
{
    if at < bytes.len() {
        &bytes[at..]
    } else {
        &bytes[bytes.len()..]
    }
}

/// The first `n` bytes, or all.
fn front(bytes: &[u8], n: usize) -> &[u8]
    ensures front { result.now ≡ take n bytes.now }
    ensures few { length result.now ≤ n }
{
    if n < bytes.len() { &bytes[..n] } else { bytes }
}

fn is_tag_mark(first: u8) -> bool
    ensures mark { result ≡ is_tag_mark_of first }
{
    first == 0x81 || first == 0x88
}

fn has_ports(first: u8) -> bool
    ensures ports { result ≡ has_ports_of first }
{
    first == 6 || first == 17
}

/// The key behind a tag, where one stands at its front.
fn behind_tag(key: &[u8]) -> &[u8]
    ensures rest { result.now ≡ behind_tag_of key.now }
{
    if is_tag_mark(first(key)) {
        behind(key, 4)
    } else {
        key
    }
}

/// The key from the outermost IP header on.
fn from_ip(key: &[u8]) -> &[u8]
    ensures rest { result.now ≡ from_ip_of key.now }
{
    behind_tag(behind_tag(behind(key, 12)))
}

/// The addresses of the IP header at the front.
fn addresses(key: &[u8]) -> &[u8]
    ensures addresses { result.now ≡ addresses_in key.now }
    ensures few { length result.now ≤ 32 }
{
    match first(key) {
        4 => front(behind(key, 1), 8),
        6 => front(behind(key, 1), 32),
        _ => &[],
    }
}

/// The key behind the IP header at the front.
fn behind_ip(key: &[u8]) -> &[u8]
    ensures rest { result.now ≡ behind_ip_of key.now }
{
    match first(key) {
        4 => behind(key, 9),
        6 => behind(key, 33),
        _ => &[],
    }
}

/// The ports of the TCP or UDP header at the front, if one stands there.
fn ports(key: &[u8]) -> &[u8]
    ensures ports { result.now ≡ ports_in key.now }
    ensures few { length result.now ≤ 4 }
{
    if has_ports(first(key)) {
        front(behind(key, 1), 4)
    } else {
        &[]
    }
}

/// The bytes stand at the place.
fn put(into: &mut [u8; 36], at: usize, bytes: &[u8])
    requires inside { at + length bytes.now ≤ 36 }
    ensures put { into.new ≡ take at into.old ++ bytes.now ++ drop (at + length bytes.now) into.old }
{
    into[at..at + bytes.len()].copy_from_slice(bytes);
}

/// Writes what is hashed of a flow with a key of these bytes.
fn read_key(key: &[u8], into: &mut [u8; 36]) -> u32
    ensures length { result ≡ length (rss_of (Some key.now)) }
    ensures few { result ≤ 36 }
    ensures input { take result into.new ≡ rss_of (Some key.now) }
{
    let ip = from_ip(key);
    let addresses = addresses(ip);
    let ports = ports(behind_ip(ip));
    put(into, 0, addresses);
    put(into, addresses.len(), ports);
    (addresses.len() + ports.len()) as u32
}

/// Writes what receive side scaling hashes of the flow, and says how many bytes that is: none of the key Other, else
/// the addresses of the outermost IP header, source and destination, and both ports where a TCP or UDP header follows
/// it directly.
pub fn rss_input(key: &Key, into: &mut [u8; 36]) -> u32
    ensures length { result ≡ length (rss_of key.now) }
    ensures few { result ≤ 36 }
    ensures input { take result into.new ≡ rss_of key.now }
{
    match key.bytes() {
        Some(bytes) => read_key(bytes, into),
        None => 0,
    }
}
