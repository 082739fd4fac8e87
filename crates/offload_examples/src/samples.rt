//! `offload merge` over the sample captures of `data/`: a line for each, with its status, its records in and out, how
//! many of these are of merged packets, and a hash of all bytes written. Then `offload segment` over what was written:
//! its status, and how many packets came back, each the next one of its flow, byte for byte and with its original
//! length; `offload merge` over 64 queues and with 8 taps, and over 4 queues by a hash, with at most 17 packets to a
//! run. Then a record of 65,495 segments, made by another program, and at last three runs that are refused, with their
//! lines in the log.
//!
//! The gate compares the lines with `stdout`. The counts and hashes of merging come from
//! `contrib/by_definition`, a slow program that was written from the definitions alone and judges all members of
//! a run at once.
use anyhow::Error;
use frame_layout::{Key, key};
use off_io::{MemSink, MemSource, NoGate, Source, SureSource};
use offload_run::{Status, run};
use pcap_io::{CaptureReader, FileHead, Link, take_file};
use std::alloc::{AllocError, Global};
use std::fs;
use std::fs::Files;
use std::sync::Wait;
use std::thread::Threads;

// A record of the most segments that an IPv4 length field allows, each with one byte of payload.
const MOST_SEGMENTS: &str = "one_byte_segments.pcap";

// With as many blocks as its frame needs, whatever the number of segments.
const MOST_BLOCKS: &str = "segment --blocks 35";

// Over all samples some 200 rounds, whose 72 lanes run at the same time.
const MOST_LANES: &str = "merge --queues 64 --taps 8 --budget 14";

// By the key of Microsoft's suite of tests for receive side scaling.
const BY_HASH: &str = "merge --queues 4 --segs 17 --rss \
    6d5a56da255b0ec24167253d43a38fb0d0ca2bcbae7b30b477cb2da38030f20c6a42b73bbeac01fa";

const SAMPLES: [&str; 6] = [
    "tcp_ipv4_four_flows.pcap",
    "tcp_ipv6_four_flows.pcap",
    "tcp_two_tags.pcap",
    "tcp_vxlan.pcap",
    "tcp_gre.pcap",
    "udp_six_flows.pcap",
];

// How many records a capture has, and in how many of them packets were merged.
#[derive(Clone, Copy)]
struct Counts {
    records: usize,
    merged: usize,
}

// A packet of a capture: its length on the wire, and its bytes.
#[derive(Drop)]
struct Packet {
    original: u32,
    frame: Vec<u8>,
}

// What stands next in a capture.
#[derive(Drop)]
enum Next {
    Record(Packet),
    End,
    Fault,
}

// Reads the next record behind the file header and others.
fn next_record<S: Source>(
    alloc: Global,
    source: &mut S,
    file: FileHead,
    link: Link,
) -> Result<Next, AllocError> {
    let mut reader = CaptureReader::after_file(source, file, link);
    let head = match reader.next_head() {
        Ok(Some(head)) => head,
        Ok(None) => return Ok(Next::End),
        Err(_) => return Ok(Next::Fault),
    };
    let mut frame = vec![in alloc; 0u8; head.captured as usize]?;
    if reader.read_body(&mut frame).is_err() {
        return Ok(Next::Fault);
    }
    Ok(Next::Record(Packet {
        original: head.original,
        frame,
    }))
}

// The packets of a capture that ends well.
fn packets_of(
    alloc: Global,
    bytes: Vec<u8>,
    link: Link,
) -> Result<Option<Vec<Packet>>, AllocError> {
    let most = bytes.len();
    let mut source = SureSource::new(bytes);
    let Ok(file) = take_file(&mut source, link) else {
        return Ok(None);
    };
    let mut packets = Vec::new(alloc);
    for _ in 0..most {
        match next_record(alloc, &mut source, file, link)? {
            Next::Record(packet) => packets.push(packet)?,
            Next::End => return Ok(Some(packets)),
            Next::Fault => return Ok(None),
        }
    }
    Ok(None)
}

// The counts of a capture of offload records that ends well.
fn count_records(alloc: Global, bytes: Vec<u8>) -> Result<Counts, AllocError> {
    Ok(match packets_of(alloc, bytes, Link::Offload)? {
        Some(packets) => Counts {
            records: packets.len(),
            merged: packets
                .iter()
                .filter(|packet| packet.frame.get(1) == Some(&1))
                .count(),
        },
        None => Counts {
            records: 0,
            merged: 0,
        },
    })
}

// Whether two packets are of one flow.
fn is_one_flow(a: &Key, b: &Key) -> bool {
    match (a.bytes(), b.bytes()) {
        (Some(a), Some(b)) => a == b,
        (None, None) => true,
        _ => false,
    }
}

// The first place from `from` on of a packet of this flow that hasn't come back yet.
fn next_of_flow(flow: &Key, keys: &[Key], is_back: &[bool]) -> Option<usize> {
    for (i, (own, back)) in keys.iter().zip(is_back).enumerate() {
        if !*back && is_one_flow(flow, own) {
            return Some(i);
        }
    }
    None
}

fn keys_of(alloc: Global, packets: &[Packet]) -> Result<Vec<Key>, AllocError> {
    let mut keys = Vec::new(alloc);
    for packet in packets {
        keys.push(key(&packet.frame))?;
    }
    Ok(keys)
}

// How many of the packets are each the next one of its flow before, in bytes and original length.
fn count_back(alloc: Global, before: &[Packet], after: &[Packet]) -> Result<usize, AllocError> {
    let keys = keys_of(alloc, before)?;
    let mut is_back = vec![in alloc; false; before.len()]?;
    let mut count = 0usize;
    for packet in after {
        let Some(i) = next_of_flow(&key(&packet.frame), &keys, &is_back) else {
            continue;
        };
        if let (Some(back), Some(own)) = (is_back.get_mut(i), before.get(i)) {
            *back = true;
            if own.original == packet.original && own.frame == packet.frame {
                count = count.saturating_add(1);
            }
        }
    }
    Ok(count)
}

// A hash of all bytes in turn, by which the whole output is compared.
fn hash(bytes: &[u8]) -> u32 {
    let mut hash = 0u32;
    for byte in bytes {
        hash = hash.wrapping_mul(31).wrapping_add(u32::from(*byte));
    }
    hash
}

// What a command ended with, and what it wrote.
#[derive(Drop)]
struct Ended {
    status: Status,
    bytes: Vec<u8>,
    log: Vec<u8>,
}

// Runs a command, with its options, over these bytes.
fn run_over(
    rt: &(impl Threads + Wait + Sync),
    alloc: Global,
    command: &str,
    bytes: &[u8],
) -> Result<Ended, AllocError> {
    let mut words = Vec::new(alloc);
    words.push(String::from_str(alloc, "offload")?)?;
    for word in command.split(' ') {
        words.push(String::from_str(alloc, word)?)?;
    }
    let mut source = MemSource::new(bytes.to_vec(alloc)?, 65536, Vec::new(alloc));
    let mut sink = MemSink::new(alloc, 65536, Vec::new(alloc));
    let mut log = MemSink::new(alloc, 64, Vec::new(alloc));
    let mut engine = None;
    let status = run(
        rt,
        alloc,
        &words,
        &mut source,
        &mut sink,
        &mut log,
        &NoGate,
        &mut engine,
    );
    let bytes = sink.bytes().to_vec(alloc)?;
    let log = log.bytes().to_vec(alloc)?;
    Ok(Ended { status, bytes, log })
}

// A line on a run with options.
fn show_run(rt: &impl Print, name: &str, what: &str, ended: &Ended) -> Result<(), Error> {
    println!(rt;
        "{name}: {what}: status {}, bytes {}, hash {}",
        ended.status.code(),
        ended.bytes.len(),
        hash(&ended.bytes)
    )?;
    Ok(())
}

// A line on a run that is refused: its status and its line in the log.
fn show_refusal(rt: &impl Print, what: &str, ended: &Ended) -> Result<(), Error> {
    let line = str::from_utf8(&ended.log).unwrap_or("no text");
    println!(rt;
        "{what}: status {}, log: {}",
        ended.status.code(),
        line.trim_end()
    )?;
    Ok(())
}

// All bytes but the last.
fn cut_short(bytes: &[u8]) -> &[u8] {
    match bytes.split_last() {
        Some((_, front)) => front,
        None => bytes,
    }
}

/// The lines of all samples.
pub fn show<R: Print + Files + AllocGlobal + Threads + Wait + Sync>(rt: &R) -> Result<(), Error> {
    let alloc = rt.alloc();
    for name in SAMPLES {
        let bytes = fs::read(rt, name)?;
        let merged = run_over(rt, alloc, "merge", &bytes)?;
        let cut = run_over(rt, alloc, "segment", &merged.bytes)?;
        let lanes = run_over(rt, alloc, MOST_LANES, &bytes)?;
        let hashed = run_over(rt, alloc, BY_HASH, &bytes)?;
        let code = merged.status.code();
        let hash = hash(&merged.bytes);
        let none = Vec::new(alloc);
        let before = packets_of(alloc, bytes, Link::Ethernet)?.unwrap_or(none);
        let none = Vec::new(alloc);
        let after = packets_of(alloc, cut.bytes, Link::Ethernet)?.unwrap_or(none);
        let wrote = count_records(alloc, merged.bytes)?;
        println!(rt;
            "{name}: status {code}, records in {}, out {}, merged {}, hash {hash}",
            before.len(),
            wrote.records,
            wrote.merged
        )?;
        println!(rt;
            "{name}: segmented: status {}, records {}, back {}",
            cut.status.code(),
            after.len(),
            count_back(alloc, &before, &after)?
        )?;
        show_run(rt, name, "64 queues, 8 taps", &lanes)?;
        show_run(rt, name, "4 queues by a hash, runs of 17", &hashed)?;
    }
    let most = fs::read(rt, MOST_SEGMENTS)?;
    let segmented = run_over(rt, alloc, MOST_BLOCKS, &most)?;
    show_run(rt, MOST_SEGMENTS, "segmented", &segmented)?;
    // A usage error, a capture that is cut one byte before its end, and one of the wrong link type.
    let sample = fs::read(rt, SAMPLES[0])?;
    let usage = run_over(rt, alloc, "frobnicate", &sample)?;
    show_refusal(rt, "frobnicate", &usage)?;
    let short = run_over(rt, alloc, "merge", cut_short(&sample))?;
    show_refusal(rt, "one byte short", &short)?;
    let other = run_over(rt, alloc, "segment", &sample)?;
    show_refusal(rt, "no offload capture", &other)
}
