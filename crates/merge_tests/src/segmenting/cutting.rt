//! Records in buffers, and what a cutter gives of them.
ghost use Rattle.std.specs.Prelude.{◌≡◌, ◌+◌, ◌<◌, ◌≤◌, IfOk, length};
ghost use Rattle.frags.specs.PieceList.{size_of};
ghost use Rattle.skb.specs.SkbState.{buffer_size};

use crate::home::home_of;
use frags::{Outcomes, PieceBuilder, Pieces};
use gso::check_super;
use gso_cutter::{Cut, Cutter};
use pcap_io::{AnyHead, OffHead, OffHead2};
use raw_block::Sole;
use skb::Skb;
use std::alloc::{AllocError, Global};
use std::process::Abort;

/// The offload header of a merged frame, in version 2.
pub fn merged(n: u32, m: u32, modes: u8) -> AnyHead {
    AnyHead::V2(OffHead2 {
        version: 2,
        kind: 1,
        modes,
        lane: 0,
        n,
        m,
        number: 0,
    })
}

/// The same of a record of any kind, in both versions.
pub fn headers(kind: u8, n: u16, m: u16, modes: u8, lane: u8) -> [AnyHead; 2] {
    let first = AnyHead::V1(OffHead {
        version: 1,
        kind,
        n,
        m,
        modes,
        lane,
        number: 0,
    });
    let second = OffHead2 {
        version: 2,
        ..first.fields()
    };
    [first, AnyHead::V2(second)]
}

// A block with these bytes from the place 64 on.
fn block_of(alloc: Global, bytes: &[u8]) -> Result<Sole, AllocError>
    requires room { length bytes.now ≤ 1984 }
{
    let mut block = Sole::new(alloc)?;
    block.range_mut(64, 64 + bytes.len()).copy_from_slice(bytes);
    Ok(block)
}

// The bytes as pieces of `size` bytes, each in a block of its own.
fn pieces_of<A: Abort>(rt: &A, alloc: Global, bytes: &[u8], size: usize) -> Pieces
    requires sizes { (0 < size) × (size ≤ 1984) }
    ensures small { size_of result ≤ 272000 }
{
    let mut builder = PieceBuilder::with_room(alloc, bytes.len()).expect(rt, "no memory");
    let mut total = 0usize;
    for piece in bytes.chunks(size) {
        let block = block_of(alloc, piece).expect(rt, "no memory");
        assert!(rt; builder.room() > 0 && total <= 270_000);
        assert!(rt; piece.len() <= 1984);
        builder.push(block.share(), 64, 64 + piece.len());
        total += piece.len();
    }
    builder.finish()
}

/// A buffer with these bytes: the first `head` of them in its head, the others in pieces of `size` bytes.
pub fn buffer<A: Abort>(rt: &A, alloc: Global, bytes: &[u8], head: usize, size: usize) -> Skb
    requires sizes { (head ≤ 1984) × (0 < size) × (size ≤ 1984) }
{
    let of_head = bytes.len().min(head);
    let (first, behind) = bytes.split_at(of_head);
    let block = block_of(alloc, first).expect(rt, "no memory");
    let rest = pieces_of(rt, alloc, behind, size);
    Skb::new(block, 64, 64 + of_head, rest)
}

/// What a cutter gave: the frames one behind the other, how many, and the least weight of each; whether it ended, and
/// the blocks that came home.
#[derive(Drop)]
pub struct Given {
    pub bytes: Vec<u8>,
    pub weights: Vec<u64>,
    pub is_done: bool,
    pub blocks: usize,
}

// The bytes of a buffer behind others.
fn put_bytes<A: Abort>(rt: &A, bytes: &mut Vec<u8>, skb: &Skb) {
    assert!(rt; bytes.extend_from_slice(skb.head()).is_ok());
    for i in 0..skb.count() - 1 {
        assert!(rt; bytes.extend_from_slice(skb.slice(i)).is_ok());
    }
}

// Whether all were given. Where memory is refused the same frames are left.
fn is_done<A: Abort>(
    rt: &A,
    cutter: &mut Cutter,
    spare: Sole,
    given: &mut Given,
    out: &mut Outcomes,
) -> bool {
    match cutter.next(spare) {
        Ok(Cut::Segment(segment)) => {
            put_bytes(rt, &mut given.bytes, &segment);
            assert!(rt; given.weights.push(segment.least_weight()).is_ok());
            assert!(rt; segment.count() <= out.spare());
            segment.release(out);
            false
        }
        Ok(Cut::Done(_)) => true,
        Err((_, _)) => false,
    }
}

/// Checks and cuts a record, with the original length in its record header. None where it isn't lawful.
pub fn cut<A: Abort>(
    rt: &A,
    alloc: Global,
    head: &AnyHead,
    skb: Skb,
    original: u32,
) -> Option<Given> {
    let mut out = Outcomes::new(alloc);
    assert!(rt; out.reserve(300).is_ok());
    assert!(rt; original >= 12 && skb.len().min(200) <= skb.head().len());
    assert!(rt; skb.least_weight() >= 2048 && skb.count() <= out.spare());
    let Ok(plan) = check_super(head, &skb, original) else {
        skb.release(&mut out);
        let _ = home_of(out);
        return None;
    };
    let n = head.fields().n;
    assert!(rt; out.reserve(n as usize * 3 + 300).is_ok());
    let mut given = Given {
        bytes: Vec::new(alloc),
        weights: Vec::new(alloc),
        is_done: false,
        blocks: 0,
    };
    let mut cutter = Cutter::start(skb, plan);
    for _ in 0..n.saturating_add(8) {
        let spare = Sole::new(alloc).expect(rt, "no memory");
        if is_done(rt, &mut cutter, spare, &mut given, &mut out) {
            given.is_done = true;
            break;
        }
    }
    assert!(rt; cutter.count() <= out.spare());
    cutter.release(&mut out);
    given.blocks = home_of(out);
    Some(given)
}

/// The same of a record that was captured whole.
pub fn cut_whole<A: Abort>(rt: &A, alloc: Global, head: &AnyHead, skb: Skb) -> Option<Given> {
    let len = skb.len();
    assert!(rt; len <= 300_000);
    cut(rt, alloc, head, skb, len as u32 + head.size())
}

/// Headers, and a payload of `size` bytes that count.
pub fn counted<A: Abort>(rt: &A, alloc: Global, headers: &[u8], size: usize) -> Vec<u8> {
    let mut bytes = Vec::new(alloc);
    assert!(rt; bytes.extend_from_slice(headers).is_ok());
    for i in 0..size {
        assert!(rt; bytes.push((i % 251) as u8).is_ok());
    }
    bytes
}

/// A number that tells bytes apart, their order too.
pub fn digest(bytes: &[u8]) -> u32 {
    let mut digest = 0u32;
    for byte in bytes {
        digest = digest.wrapping_mul(31).wrapping_add(u32::from(*byte));
    }
    digest
}
