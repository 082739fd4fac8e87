//! What refuses a header.
ghost use Rattle.std.specs.Prelude.{◌≡◌, ◌≤◌, ◌∷◌, [], length, nat_lt};
ghost use Rattle.pcap_io.specs.Headers.{first_that_holds, head_refusals, file_refusals, captured_limit, link_number};
ghost use Rattle.pcap_io.specs.Headers.{is_bad_original, lacks_off_head};
ghost use Rattle.pcap_io.specs.declared.faults.CapKind.TheVariants.{TooLong, BadOriginal, BadOffload};

use crate::heads::spelling;
use crate::{CapKind, FRAME_LIMIT, Link, OFF_HEAD_LEN, OFF_HEAD2_LEN};
use net_bytes::Order;

const VERSION: (u16, u16) = (2, 4);

impl Link {
    pub(crate) fn number(self) -> u32
        ensures value { result ≡ link_number self }
    {
        match self {
            Link::Ethernet => 1,
            Link::Offload => 147,
        }
    }

    pub(crate) fn captured_limit(self) -> u32
        ensures value { result ≡ captured_limit self }
    {
        match self {
            Link::Ethernet => FRAME_LIMIT,
            Link::Offload => FRAME_LIMIT + OFF_HEAD2_LEN as u32,
        }
    }
}

// Why the first bytes are no file header.
pub(crate) fn refuse_file(link: Link, head: &[u8]) -> Option<CapKind>
    requires short { length head.now ≤ 24 }
    ensures refused { result ≡ first_that_holds (file_refusals link head.now) }
{
    if head.len() < 24 {
        return Some(CapKind::ShortHeader);
    }
    let Some((order, _)) = spelling(head) else {
        return Some(CapKind::BadMagic);
    };
    if (order.get16(&head[4..]), order.get16(&head[6..])) != VERSION {
        return Some(CapKind::BadVersion);
    }
    if order.get32(&head[20..]) != link.number() {
        return Some(CapKind::BadLinkType);
    }
    None
}

// Why the next bytes are no lawful record header.
pub(crate) fn refuse_head(order: Order, link: Link, number: u64, head: &[u8]) -> Option<CapKind>
    requires short { length head.now ≤ 16 }
    ensures refused { result ≡ first_that_holds (head_refusals order link number head.now) }
{
    if head.len() < 16 {
        return Some(CapKind::ShortRecordHeader);
    }
    if number >= 1 << 32 {
        return Some(CapKind::TooMany);
    }
    let captured = order.get32(&head[8..]);
    let original = order.get32(&head[12..]);
    // The link is told apart once, and not at each test.
    match link {
        Link::Ethernet => refuse_lengths(Link::Ethernet, captured, original),
        Link::Offload => refuse_lengths(Link::Offload, captured, original),
    }
}

// Why these are no lengths of a record.
#[inline(always)]
fn refuse_lengths(link: Link, captured: u32, original: u32) -> Option<CapKind>
    ensures refused { result ≡ first_that_holds ((nat_lt (captured_limit link) captured, TooLong)
        ∷ (is_bad_original link original, BadOriginal) ∷ (lacks_off_head link captured, BadOffload) ∷ []) }
{
    if captured > link.captured_limit() {
        return Some(CapKind::TooLong);
    }
    if is_bad_original(link, original) {
        return Some(CapKind::BadOriginal);
    }
    if matches!(link, Link::Offload) && captured < OFF_HEAD_LEN as u32 {
        return Some(CapKind::BadOffload);
    }
    None
}

fn is_bad_original(link: Link, original: u32) -> bool
    ensures value { result ≡ is_bad_original link original }
{
    match link {
        Link::Ethernet => original > (1 << 31) - 1,
        Link::Offload => {
            original > (1 << 31) - 1 + OFF_HEAD2_LEN as u32 || original < OFF_HEAD_LEN as u32
        },
    }
}
