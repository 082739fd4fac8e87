//! The example of each first page, as it stands there, and what it comes to.

use crate::whole::{capture, words};
use frags::{Outcomes, Pieces};
use frame_layout::shape;
use inet_sum::Partial;
use off_io::{MemSink, MemSource};
use pcap_io::{CaptureReader, Link, take_file};
use raw_block::Sole;
use skb::Skb;
use std::test::Fail;
use wire_fill::fill_sums;
use wire_model::{Counts, Wiring};
use wire_packet::{fill_packet, plan_cut};
use wire_records::{Moved, WireRun};
use wire_run::run;
use wire_words::parse_words;
use worked_captures::MERGED;

#[test]
fn example_of_wire_words(rt: HostRuntime) -> Result<(), Fail> {
    let alloc = rt.alloc();
    let words = &words(alloc, "wire --mss 1460 --sums all")?;
    // wire --mss 1460 --sums all
    let mss = parse_words(alloc, words)?.wiring.mss; // 1460
    assert_eq!(rt; mss, 1460);
    Ok(())
}

#[test]
fn example_of_wire_run(rt: HostRuntime) -> Result<(), Fail> {
    let alloc = rt.alloc();
    let words = words(alloc, "wire --mss 4")?;
    let bytes = capture(alloc, &[(&MERGED, 60)])?;
    let mut source = MemSource::new(bytes, 4096, Vec::new(alloc));
    let mut sink = MemSink::new(alloc, 4096, Vec::new(alloc));
    let mut log = MemSink::new(alloc, 4096, Vec::new(alloc));
    let status = run(alloc, &words, &mut source, &mut sink, &mut log);
    let code = status.code(); // 0 where all went well
    assert_eq!(rt; (code, sink.bytes().len()), (0, 24 + 16 + 58 + 16 + 56));
    Ok(())
}

#[test]
fn example_of_wire_records(rt: HostRuntime) -> Result<(), Fail> {
    let alloc = rt.alloc();
    let bytes = capture(alloc, &[(&MERGED, 60)])?;
    let mut source = MemSource::new(bytes, 4096, Vec::new(alloc));
    let mut sink = MemSink::new(alloc, 4096, Vec::new(alloc));
    let Ok(file) = take_file(&mut source, Link::Ethernet) else {
        panic!(rt; "the file header is lawful");
    };
    let mut reader = CaptureReader::after_file(&mut source, file, Link::Ethernet);
    let wiring = Wiring {
        mss: 4,
        fills_all: false,
    };
    let mut counts = Counts::NONE;
    let mut run = WireRun::make(alloc, 131)?;
    let moved = run.next(&mut reader, &mut sink, wiring, &mut counts);
    assert_eq!(rt;
        (moved, counts.cut, sink.bytes().len()),
        (Ok(Moved::One), 1, 16 + 58 + 16 + 56)
    );
    Ok(())
}

#[test]
fn example_of_wire_fill(rt: HostRuntime) -> Result<(), Fail> {
    let Some(layout) = shape(&MERGED) else {
        panic!(rt; "no shape");
    };
    if layout.payload_at() != 54 {
        panic!(rt; "other headers");
    }
    let mut headers = MERGED[..54].to_vec(rt.alloc())?;
    headers[50] = 0x14;
    headers[51] = 0x23;
    let mut payload = Partial::new();
    payload.add(b"abcdef");
    let fates = fill_sums(&mut headers, layout.headers(), payload, false);
    assert_eq!(rt;
        (fates.filled, fates.wrong, headers.as_slice()),
        (1, 0, &MERGED[..54])
    );
    Ok(())
}

#[test]
fn example_of_wire_packet(rt: HostRuntime) -> Result<(), Fail> {
    let alloc = rt.alloc();
    let original = 60;
    let block = Sole::new(alloc)?;
    let mut out = Outcomes::with_room(alloc, 16)?;
    let mut skb = Skb::new(block, 64, 64, Pieces::new(alloc));
    assert!(rt; skb.put_tail(&MERGED).is_ok());
    assert!(rt; skb.len() == 60 && skb.head().len() == 60 && skb.head_is_sole());
    let fates = fill_packet(&mut skb, original, false, &mut out);
    let (plan, is_cut) = plan_cut(4, &skb, original); // true: two segments
    assert_eq!(rt; (fates.filled, is_cut), (0, true));
    let _ = plan;
    out.settle();
    skb.free();
    Ok(())
}
