//! Cutting a merged frame that lies in a buffer: the test of its record, with all sums, and each segment's header
//! bytes, while its payload stays where it is. A segment's blocks go home before the next one is cut.

ghost use Rattle.std.specs.Prelude.{◌≡◌, ◌+◌, ◌≤◌, [], length, min, true, IfOk};
ghost use Rattle.frags.specs.PieceList.{size_of};
ghost use Rattle.skb.specs.SkbState.{buffer_least, buffer_size, head_size};
ghost use Rattle.block_pool.specs.PoolState.{home};
ghost use Rattle.gso_cutter.specs.Cutting.{count_of};

use crate::steps::buffers::{empty, places};
use anyhow::{Error, bail};
use block_pool::Pool;
use frags::{Outcomes, PieceBuilder, Pieces};
use gso::check_super;
use gso_cutter::{Cut, Cutter};
use pcap_io::{AnyHead, OffHead2};
use raw_block::Sole;
use skb::{HEADROOM, Skb};
use std::alloc::{AllocError, Global};
use std::time::{Duration, Instant};

// The head holds the headers and so many bytes of payload.
const OF_HEAD: usize = 1930;

/// A merged frame over IPv4 and TCP: its 54 bytes of headers, the number of its segments, and the payload of each.
/// Payload byte k is k modulo 251.
struct Record {
    headers: [u8; 54],
    n: u32,
    m: u32,
}

const RECORDS: [Record; 3] = [
    Record {
        headers: [
            0x02, 0x00, 0x00, 0x00, 0x00, 0x02, 0x02, 0x00, 0x00, 0x00, 0x00, 0x01, 0x08, 0x00,
            0x45, 0x00, 0xfe, 0xb0, 0x00, 0x64, 0x40, 0x00, 0x40, 0x06, 0x27, 0xe1, 0x0a, 0x00,
            0x00, 0x01, 0x0a, 0x00, 0x00, 0x02, 0x9c, 0x40, 0x13, 0x89, 0x00, 0x00, 0x03, 0xe8,
            0x00, 0x00, 0x00, 0x01, 0x50, 0x10, 0x01, 0x00, 0x06, 0xe7, 0x00, 0x00,
        ],
        n: 45,
        m: 1_448,
    },
    Record {
        headers: [
            0x02, 0x00, 0x00, 0x00, 0x00, 0x02, 0x02, 0x00, 0x00, 0x00, 0x00, 0x01, 0x08, 0x00,
            0x45, 0x00, 0x0b, 0xa8, 0x00, 0x64, 0x40, 0x00, 0x40, 0x06, 0x1a, 0xea, 0x0a, 0x00,
            0x00, 0x01, 0x0a, 0x00, 0x00, 0x02, 0x9c, 0x40, 0x13, 0x89, 0x00, 0x00, 0x03, 0xe8,
            0x00, 0x00, 0x00, 0x01, 0x50, 0x10, 0x01, 0x00, 0x6c, 0x52, 0x00, 0x00,
        ],
        n: 64,
        m: 46,
    },
    Record {
        headers: [
            0x02, 0x00, 0x00, 0x00, 0x00, 0x02, 0x02, 0x00, 0x00, 0x00, 0x00, 0x01, 0x08, 0x00,
            0x45, 0x00, 0xfb, 0xb8, 0x00, 0x64, 0x40, 0x00, 0x40, 0x06, 0x2a, 0xd9, 0x0a, 0x00,
            0x00, 0x01, 0x0a, 0x00, 0x00, 0x02, 0x9c, 0x40, 0x13, 0x89, 0x00, 0x00, 0x03, 0xe8,
            0x00, 0x00, 0x00, 0x01, 0x50, 0x10, 0x01, 0x00, 0xda, 0x35, 0x00, 0x00,
        ],
        n: 1_400,
        m: 46,
    },
];

// A block with these headers behind its headroom, or none, and payload from byte `from` on behind them.
fn filled(alloc: Global, headers: &[u8], from: usize, size: usize) -> Result<Sole, AllocError>
    requires fit { (from ≤ 70000) × (length headers.now + size ≤ 1984) }
{
    let mut block = Sole::new(alloc)?;
    let end = headers.len();
    let bytes = block.range_mut(HEADROOM, HEADROOM + end + size);
    bytes[..end].copy_from_slice(headers);
    for i in 0..size {
        bytes[end + i] = ((from + i) % 251) as u8;
    }
    Ok(block)
}

// Pieces of these blocks, which have so many bytes each.
fn pieces_of(alloc: Global, blocks: Vec<(Sole, usize)>) -> Result<Pieces, AllocError>
    ensures few { IfOk result (λ pieces. (size_of pieces ≤ 79360) × (length pieces ≤ 40)) }
{
    let mut builder = PieceBuilder::with_room(alloc, blocks.len())?;
    let mut count = 0usize;
    for (block, size) in blocks {
        if 0 < size && size <= 1984 && count < 40 && builder.room() > 0 {
            builder.push(block.share(), HEADROOM, HEADROOM + size);
            count += 1;
        }
    }
    Ok(builder.finish())
}

// The frame in blocks of its own.
fn buffer_of(alloc: Global, record: &Record) -> Result<Skb, Error>
    ensures few { IfOk result (λ skb. length skb.rest + 1 ≤ 41) }
{
    let size = u64::from(record.n) * u64::from(record.m);
    if size > 65_495 {
        bail!("no frame has so much payload");
    }
    let size = size as usize;
    let mut from = size.min(OF_HEAD);
    let head = filled(alloc, &record.headers, 0, from)?;
    let end = HEADROOM + 54 + from;
    let mut blocks = Vec::new(alloc);
    while from < size {
        let piece = (size - from).min(1984);
        blocks.push((filled(alloc, &[], from, piece)?, piece))?;
        from += piece;
    }
    let rest = pieces_of(alloc, blocks)?;
    Ok(Skb::new(head, HEADROOM, end, rest))
}

// A block comes home.
fn put(pool: &mut Pool, block: Sole)
    ensures made { pool.new.made ≡ pool.old.made }
{
    if pool.home() < pool.made() {
        pool.put(block);
    }
}

// What was given back goes home, and its places are free again.
fn send_home(out: &mut Outcomes, pool: &mut Pool)
    ensures places { out.old.spare ≤ out.new.spare }
    ensures soles { out.new.soles ≡ [] }
{
    while let Some(block) = out.pop_sole() {
        put(pool, block);
    }
    while let Some(receipt) = out.pop_receipt() {
        receipt.close();
    }
}

// Whether a segment was given, and its blocks have gone home.
fn give(cutter: &mut Cutter, pool: &mut Pool, out: &mut Outcomes) -> bool
    requires room { count_of cutter.old ≤ out.old.spare }
    ensures room { count_of cutter.new ≤ out.new.spare }
{
    if out.spare() < 3 || out.spare() - 3 < cutter.count() {
        return false;
    }
    let Ok(spare) = pool.take() else {
        return false;
    };
    match cutter.next(spare) {
        Ok(Cut::Segment(segment)) => {
            segment.release(out);
            send_home(out, pool);
            true
        }
        Ok(Cut::Done(spare)) => {
            put(pool, spare);
            false
        }
        Err((spare, _)) => {
            put(pool, spare);
            false
        }
    }
}

// Whether a record's buffer is what may be tested and cut.
fn is_ready(skb: &Skb) -> bool
    ensures small { result ≡ true → buffer_size skb.now ≤ 70000 }
    ensures front { result ≡ true → min (buffer_size skb.now) 200 ≤ head_size skb.now }
    ensures least { result ≡ true → 2048 ≤ buffer_least skb.now }
{
    skb.len() <= 70_000 && (skb.len().min(200) <= skb.head().len() && skb.least_weight() >= 2048)
}

// The segments of a record, once it is tested.
fn cut(head: &AnyHead, skb: Skb, pool: &mut Pool, out: &mut Outcomes) -> u64
    requires room { length skb.rest + 1 ≤ out.old.spare }
{
    let mut given = 0u64;
    if !is_ready(&skb) {
        skb.release(out);
        return given;
    }
    let original = skb.len() as u32 + head.size();
    let Ok(plan) = check_super(head, &skb, original) else {
        skb.release(out);
        return given;
    };
    let mut cutter = Cutter::start(skb, plan);
    for _ in 0..head.fields().n {
        if give(&mut cutter, pool, out) {
            given = given.wrapping_add(1);
        }
    }
    cutter.release(out);
    given
}

// The segments that were cut of clones of a record's buffer, and how long that took without the making of the clones.
fn time_clones(
    rt: &HostRuntime,
    head: &AnyHead,
    skb: &mut Skb,
    out: &mut Outcomes,
    turns: u64,
) -> Result<(Duration, u64), Error>
    ensures rest { length skb.new.rest ≡ length skb.old.rest }
{
    let mut pool = Pool::make(rt.alloc(), 4)?;
    let mut taken = Duration::ZERO;
    let mut segments = 0u64;
    for _ in 0..turns {
        if segments >= turns || out.spare() < skb.count() {
            break;
        }
        let Ok(clone) = skb.clone() else {
            bail!("the buffer is worn");
        };
        let start = Instant::now(rt);
        segments = segments.wrapping_add(cut(head, clone, &mut pool, out));
        taken = taken.saturating_add(start?.elapsed(rt)?);
        send_home(out, &mut pool);
    }
    Ok((taken, segments))
}

fn time_record(
    rt: &HostRuntime,
    record: &Record,
    skb: &mut Skb,
    turns: u64,
) -> Result<(Duration, u64), Error>
    ensures rest { length skb.new.rest ≡ length skb.old.rest }
{
    let head = AnyHead::V2(OffHead2 {
        version: 2,
        kind: 1,
        modes: 0,
        lane: 0,
        n: record.n,
        m: record.m,
        number: 0,
    });
    let mut out = places(rt.alloc(), 300)?;
    let timed = time_clones(rt, &head, skb, &mut out, turns);
    empty(&mut out);
    out.settle();
    timed
}

// The segments of one record's clones, and how long they took.
fn measure_record(rt: &HostRuntime, record: &Record, turns: u64) -> Result<(Duration, u64), Error> {
    let mut last = places(rt.alloc(), 41)?;
    let timed = match buffer_of(rt.alloc(), record) {
        Ok(mut skb) => {
            let timed = time_record(rt, record, &mut skb, turns);
            skb.release(&mut last);
            timed
        }
        Err(error) => Err(error),
    };
    empty(&mut last);
    last.settle();
    timed
}

pub fn measure(rt: &HostRuntime, turns: u64) -> Result<(), Error> {
    for record in &RECORDS {
        let (taken, segments) = measure_record(rt, record, turns)?;
        if segments < turns {
            bail!("a record wasn't cut");
        }
        let each = taken.as_nanos() / u128::from(segments.max(1));
        println!(rt;
            "{} segments of {} bytes: {} ns, {segments} in all",
            record.n,
            record.m,
            each.wrapping_mul(u128::from(turns))
        )?;
    }
    Ok(())
}
