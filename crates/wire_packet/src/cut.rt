//! How a frame is cut into segments.

ghost use Rattle.std.specs.Prelude.{◌≡◌, ℕ, ◌+◌, ◌-◌, ◌/◌, ◌<◌, ◌≤◌, ◌^◌, ◌∷◌, length, [], List};
ghost use Rattle.pcap_io.specs.Capture.{packet};
ghost use Rattle.pcap_io.specs.Limits.{most_frame};
ghost use Rattle.frame_layout.specs.Segment.{last_header};
ghost use Rattle.skb.specs.Fronts.{IsFronted};
ghost use Rattle.skb.specs.SkbState.{buffer_bytes};
ghost use Rattle.gso.specs.Planning.{IsPlanOf, packets_by};
ghost use Rattle.wire_model.specs.Wire.{cut_of, is_cut, is_tcp_by};

use crate::front::front_bytes;
use frame_layout::{Header, Layer, shape};
use gso::{Plan, check_super};
use pcap_io::{AnyHead, OFF_HEAD2_LEN, OffHead2};
use skb::Skb;

// Whether the last of these headers is TCP's.
fn carries_tcp(headers: &[Header]) -> bool
    ensures tcp { result ≡ is_tcp_by (last_header headers.now) }
{
    let Some(header) = headers.last() else {
        return false;
    };
    match header.layer {
        Layer::Tcp => true,
        _ => false,
    }
}

// The offload header by which a payload is cut into the least number of segments, with no identification that stays.
fn cut_head(mss: u32, payload: u32) -> OffHead2
    requires mss { (1 ≤ mss) × (mss ≤ 65535) }
    requires short { payload ≤ most_frame }
    ensures head { result ≡ record {
      version = 2;
      kind = 1;
      modes = 0;
      lane = 0;
      n = (payload + (mss - 1)) / mss;
      m = mss;
      number = 0;
    } }
{
    OffHead2 {
        version: 2,
        kind: 1,
        modes: 0,
        lane: 0,
        n: (payload + (mss - 1)) / mss,
        m: mss,
        number: 0,
    }
}

/// How a packet is cut: a TCP frame with more than `mss` bytes of payload, which passes the test of a merged record,
/// into the least number of segments. Any other is one packet, as it is. And whether it is cut.
pub fn plan_cut(mss: u32, skb: &Skb, original: u32) -> (Plan, bool)
    requires mss { (1 ≤ mss) × (mss ≤ 65535) }
    requires front { IsFronted skb.now }
    requires short { length (buffer_bytes skb.now) ≤ most_frame }
    requires original { original < 2 ^ 31 }
    ensures plan { (number sec frac : ℕ) → cut_of mss (packet number sec frac original (buffer_bytes skb.now))
        ≡ packets_by result.0 (packet number sec frac original (buffer_bytes skb.now)) }
    ensures cut { (number sec frac : ℕ) → is_cut mss (packet number sec frac original (buffer_bytes skb.now))
        ≡ result.1 }
    ensures ready { IsPlanOf skb.now result.0 }
{
    let len = skb.len();
    let front = front_bytes(skb);
    let Some(layout) = shape(front) else {
        return (Plan::Single, false);
    };
    if !carries_tcp(layout.headers()) {
        return (Plan::Single, false);
    }
    let payload = (len - layout.payload_at()) as u32;
    if payload <= mss {
        return (Plan::Single, false);
    }
    let head = AnyHead::V2(cut_head(mss, payload));
    match check_super(&head, skb, original + OFF_HEAD2_LEN as u32) {
        Ok(plan) => (plan, true),
        Err(_) => (Plan::Single, false),
    }
}
