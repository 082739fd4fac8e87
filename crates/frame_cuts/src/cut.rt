//! A merged frame, cut where it lies.
ghost use Rattle.std.specs.Prelude.{◌≡◌, ◌+◌, ◌-◌, ◌*◌, ◌/◌, ◌<◌, ◌≤◌, ◌^◌, ℕ};
ghost use Rattle.std.specs.Prelude.{IfOk, IfErr, IfSome, IfNone, length, take};
ghost use Rattle.frame_cuts.specs.Cuts.{bytes_of, cut_head as cut_head_of, whole, Cuts, Refuses};
ghost use Rattle.net_bytes.specs.Bytes.{byte};
ghost use Rattle.offload_model.specs.Segments.{IsLawfulSuper};
ghost use Rattle.pcap_io.specs.Limits.{most_frame};
ghost use Rattle.segment_rule.specs.Segmentations.{HasNumbersOf, IsSegmentationOf, segment_at};

use frame_layout::candidate;
use inet_sum::Partial;
use pcap_io::OffHead2;
use segment_rule::{Segmentation, segmentation_of};

/// What no frame is longer than, in bytes.
const MOST_FRAME: usize = 262_144;

/// A segment of a frame: the first `headers_length` bytes of `headers`, and behind them `length` bytes of the frame,
/// from `at` on.
#[repr(C)]
#[derive(Clone, Copy)]
pub struct CutSegment {
    pub at: u32,
    pub length: u32,
    pub headers_length: u32,
    pub headers: [u8; 200],
}

/// Why a frame isn't cut.
#[derive(Clone, Copy)]
pub enum CutRefused {
    /// Segments of no byte are asked for, or the frame is longer than 262,144 bytes.
    Usage,
    /// It is no merged frame that may be cut so.
    Unlawful,
    /// There is less room than there are segments.
    NoRoom,
}

/// What a slice holds are bytes.
fn in_bytes(bytes: &[u8]) -> &[u8]
    ensures same { result.now ≡ bytes.now }
    ensures in_bytes { (k : ℕ) → byte result.now k < 256 }
{
    bytes
}

/// The offload header by which a payload is cut into the least number of segments of at most `m` bytes.
fn cut_head(payload: u32, m: u32, modes: u8) -> OffHead2
    requires some { 1 ≤ m }
    requires short { payload ≤ most_frame }
    ensures head { result ≡ cut_head_of ((payload + (m - 1)) / m) m modes }
{
    OffHead2 {
        version: 2,
        kind: 1,
        modes,
        lane: 0,
        n: ((u64::from(payload) + u64::from(m - 1)) / u64::from(m)) as u32,
        m,
        number: 0,
    }
}

/// How a frame is cut into segments of `m` bytes, where it may be.
fn judge(frame: &[u8], m: u32, modes: u8) -> Option<Segmentation>
    requires some { 1 ≤ m }
    requires short { length frame.now ≤ most_frame }
    ensures refused { IfNone result ((n : ℕ) → IsLawfulSuper (cut_head_of n m modes) (whole frame.now) → ⊥) }
    ensures lawful { IfSome result (λ cut. IsLawfulSuper (cut_head_of cut.n m modes) (whole frame.now)) }
    ensures of { IfSome result (λ cut. IsSegmentationOf cut frame.now) }
    ensures numbers { IfSome result (λ cut. HasNumbersOf (cut_head_of cut.n m modes) cut) }
{
    let front = in_bytes(frame);
    let len = front.len() as u32;
    let seg = candidate(front, &Partial::new(), len, len)?;
    segmentation_of(&cut_head(seg.payload_len, m, modes), front, seg)
}

/// Says what segment `i` is, from 0.
fn put_segment(segment: &mut CutSegment, cut: &Segmentation, frame: &[u8], i: u32)
    requires of { IsSegmentationOf cut.now frame.now }
    requires short { length frame.now ≤ most_frame }
    requires there { i < cut.now.n }
    ensures segment { bytes_of frame.now segment.new ≡ segment_at cut.now frame.now i }
{
    let frame = in_bytes(frame);
    let at = cut.layout.payload_at();
    let from = at + (i * cut.m) as usize;
    let len = (cut.m as usize).min(frame.len() - from);
    let mut sum = Partial::new();
    sum.add(&frame[from..from + len]);
    segment.at = from as u32;
    segment.length = len as u32;
    segment.headers_length = at as u32;
    let headers = &mut segment.headers[..at];
    headers.copy_from_slice(&frame[..at]);
    cut.put_headers(headers, i, sum);
}

/// Cuts a merged frame into segments of `m` bytes of payload, the last of which has the rest: what each is, in the
/// first of `segments`, and how many there are. `modes` has a bit for each IP header, the lowest for the first, set
/// where the identification of an IPv4 header stays.
pub fn cut_frame(
    frame: &[u8],
    m: u32,
    modes: u8,
    segments: &mut [CutSegment],
) -> Result<usize, CutRefused>
    ensures cut { IfOk result (λ count. Cuts m modes frame.now (take count segments.new)) }
    ensures refused { IfErr result (Refuses m modes frame.now (length segments.old)) }
    ensures untouched { IfErr result (λ _. segments.new ≡ segments.old) }
    ensures size { length segments.new ≡ length segments.old }
{
    if frame.len() > MOST_FRAME || m == 0 {
        return Err(CutRefused::Usage);
    }
    let Some(cut) = judge(frame, m, modes) else {
        return Err(CutRefused::Unlawful);
    };
    let n = cut.n as usize;
    if segments.len() < n {
        return Err(CutRefused::NoRoom);
    }
    for i in 0..n {
        put_segment(&mut segments[i], &cut, frame, i as u32);
    }
    Ok(n)
}
