//! The headers of a merged frame, written in place.
//!
//! A merged frame is the first packet's headers with the last packet's control bits, followed by all payloads, with
//! right lengths (RFC 791, section 3.1; RFC 8200, section 3; RFC 768) and right sums (RFC 1071). [`merge_headers`]
//! makes these headers from the first packet's (`merged`: by the function of the model; `frame`: by what holds of the
//! frame). It rests on [`fill`], which writes the lengths and sums of any headers before a payload (`filled`, `right`).
//! No payload byte is read: what is known of the payload is its sum, which is joined from the sums of its pieces. What
//! a segment's place in its stream decides is written before that: identifications and sequence numbers by
//! [`put_places`], control bits by [`put_flags`] (`edited`, whatever follows the headers).
//!
//! ```
//! let payload = first_payload.joined(second_payload);
//! merge_headers(&mut headers, layout.headers(), last_flags, payload);
//! ```
//!
//! Its parts: `fill` is the one rule for lengths and sums. Payload bytes are never read: the sum of what is behind a
//! header is joined from the pseudo header, the header bytes (with the inner headers' new sums) and the payload's sum,
//! odd pieces swapped.
//!
//! Tests: `header_tests`, module `filling`.
//!
//! Why so:
//!
//! - **The merged frame's length isn't an argument** of the call that writes its headers: a partial sum says how many
//!   bytes it stands for, and the headers end where the payload begins.
//! - **Ethernet, IPv4 and TCP alone have a way of their own**, at fixed places: the functions for any header, called
//!   with constants.
#![tactic(auto)]

ghost use Rattle.std.specs.Prelude.{◌≡◌, ℕ, ◌+◌, ◌<◌, ◌≤◌, ◌^◌, ◌++◌, List, length, take};
ghost use Rattle.net_bytes.specs.Bytes.{byte};
ghost use Rattle.inet_sum.specs.Stands.{StandsFor};
ghost use Rattle.frame_layout.specs.Shape.{Layout};
ghost use Rattle.frame_layout.specs.Headers.{AtHeaders, AreLaid};
ghost use Rattle.frame_layout.specs.Plain.{plain_headers};
ghost use Rattle.frame_layout.specs.declared.layout.Layer.TheVariants.{Ip4};
ghost use Rattle.frame_layout.specs.Segment.{HasFlags};
ghost use Rattle.offload_model.specs.Mergeable.{IsLengthInRange};
ghost use Rattle.offload_model.specs.Edits.{with_lengths_and_sums};
ghost use Rattle.offload_model.specs.Frames.{merged_frame, IsMergedFrame};
ghost use Rattle.header_fill.specs.Filled.{IsFilled};

mod fields;
mod place;
mod sums;

use crate::fields::{put_lengths, put_plain_lengths};
use crate::sums::{put_plain_sums, put_sums};
pub use fields::put_flags;
use frame_layout::{Header, are_plain};
use inet_sum::Partial;
pub use place::put_places;

/// Makes the first frame's header bytes those of the merged frame.
///
/// `headers` are the headers of the layout, and `head` ends where the payload begins. `flags` is the last frame's byte
/// of control bits, and `payload` the sum of all payloads, one behind the other.
pub fn merge_headers(head: &mut [u8], headers: &[Header], flags: u8, payload: Partial)
    requires laid { AreLaid 0 headers.now (length head.old) }
    requires ranges { AtHeaders (IsLengthInRange (length head.old + payload.len)) headers.now }
    requires few { length head.old + payload.len < 2 ^ 31 }
    ensures merged { let layout : Layout = record { headers = headers.now; payload_at = length head.old } in
        (first last bytes : List ℕ)
        → take (length head.old) first ≡ head.old
        → AtHeaders (HasFlags flags last) headers.now
        → StandsFor payload bytes
        → head.new ++ bytes ≡ merged_frame layout first last bytes }
    ensures frame { let layout : Layout = record { headers = headers.now; payload_at = length head.old } in
        (first last bytes : List ℕ)
        → take (length head.old) first ≡ head.old
        → AtHeaders (HasFlags flags last) headers.now
        → StandsFor payload bytes
        → ((k : ℕ) → byte first k < 256)
        → ((k : ℕ) → byte last k < 256)
        → ((k : ℕ) → byte bytes k < 256)
        → IsMergedFrame layout first last bytes (head.new ++ bytes) }
{
    put_flags(head, headers, flags);
    fill(head, headers, payload);
}

/// Fills in the lengths and sums of headers that stand before a payload. A UDP sum of 0 stays, as that header has none.
///
/// `payload` is the payload's sum, and says how long it is.
pub fn fill(head: &mut [u8], headers: &[Header], payload: Partial)
    requires laid { AreLaid 0 headers.now (length head.old) }
    requires ranges { AtHeaders (IsLengthInRange (length head.old + payload.len)) headers.now }
    requires few { length head.old + payload.len < 2 ^ 31 }
    ensures filled { (bytes : List ℕ)
        → StandsFor payload bytes
        → head.new ++ bytes ≡ with_lengths_and_sums headers.now (head.old ++ bytes) }
    ensures right { (bytes : List ℕ)
        → StandsFor payload bytes
        → IsFilled headers.now (head.old ++ bytes) (head.new ++ bytes) }
{
    if are_plain(headers) {
        fill_plain(head, payload)
    } else {
        fill_all(head, headers, payload)
    }
}

/// The same of Ethernet, IPv4 and TCP alone, at fixed places.
fn fill_plain(head: &mut [u8], payload: Partial)
    requires laid { AreLaid 0 plain_headers (length head.old) }
    requires range { IsLengthInRange (length head.old + payload.len) Ip4 14 }
    requires few { length head.old + payload.len < 2 ^ 31 }
    ensures filled { (bytes : List ℕ)
        → StandsFor payload bytes
        → head.new ++ bytes ≡ with_lengths_and_sums plain_headers (head.old ++ bytes) }
    ensures right { (bytes : List ℕ)
        → StandsFor payload bytes
        → IsFilled plain_headers (head.old ++ bytes) (head.new ++ bytes) }
{
    let total = head.len() + payload.len() as usize;
    put_plain_lengths(head, total);
    put_plain_sums(head, payload);
}

/// The same of any headers.
fn fill_all(head: &mut [u8], headers: &[Header], payload: Partial)
    requires laid { AreLaid 0 headers.now (length head.old) }
    requires ranges { AtHeaders (IsLengthInRange (length head.old + payload.len)) headers.now }
    requires few { length head.old + payload.len < 2 ^ 31 }
    ensures filled { (bytes : List ℕ)
        → StandsFor payload bytes
        → head.new ++ bytes ≡ with_lengths_and_sums headers.now (head.old ++ bytes) }
    ensures right { (bytes : List ℕ)
        → StandsFor payload bytes
        → IsFilled headers.now (head.old ++ bytes) (head.new ++ bytes) }
{
    let total = head.len() + payload.len() as usize;
    put_lengths(head, headers, total);
    put_sums(head, headers, payload);
}
