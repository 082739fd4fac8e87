//! Captures in memory: how they are put together, read and merged.
ghost use Rattle.std.specs.Prelude.{◌≡◌, ◌<◌, ◌^◌, length};
ghost use Rattle.pcap_io.specs.Places.{IsReady};
ghost use Rattle.pcap_io.specs.Readers.{place_of};

use lanes::Alone;
use off_io::{Feed, MemSink, MemSource, NoGate};
use pcap_io::{CaptureReader, Link};
use rounds::{MergeEnd, Rounds};
use std::alloc::{AllocError, Global};
use std::process::Abort;

/// A record of no time: these headers, and so many bytes behind them, of which byte k is k modulo 251.
pub(crate) fn push_record(
    capture: &mut Vec<u8>,
    headers: &[u8],
    payload: u32,
) -> Result<(), AllocError>
    requires short { length headers.now < 2 ^ 10 }
{
    let [a, b, c, d] = payload.wrapping_add(headers.len() as u32).to_le_bytes();
    capture.extend_from_slice(&[0, 0, 0, 0, 0, 0, 0, 0, a, b, c, d, a, b, c, d])?;
    capture.extend_from_slice(headers)?;
    for k in 0..payload {
        capture.push((k % 251) as u8)?;
    }
    Ok(())
}

/// A source of this capture, at most `step` bytes a call; the calls with these numbers fail.
pub(crate) fn feed_of(
    rt: &impl Abort,
    alloc: Global,
    capture: &[u8],
    step: usize,
    fails: &[u64],
) -> Feed<MemSource>
    requires some { 0 < step }
{
    let bytes = capture.to_vec(alloc).expect(rt, "no memory");
    let fails = fails.to_vec(alloc).expect(rt, "no memory");
    Feed {
        inner: MemSource::new(bytes, step, fails),
    }
}

/// A reader of a capture whose file header is lawful.
pub(crate) fn reader_of<'s>(
    rt: &impl Abort,
    feed: &'s mut Feed<MemSource>,
    link: Link,
) -> CaptureReader<'s, Feed<MemSource>>
    ensures ready { IsReady (place_of result) }
    ensures link { (place_of result).link ≡ link }
{
    match CaptureReader::start(feed, link) {
        Ok(reader) => reader,
        Err(_) => panic!(rt; "the file header is lawful"),
    }
}

/// What a sink holds.
pub(crate) fn written(rt: &impl Abort, alloc: Global, sink: &MemSink) -> Vec<u8> {
    sink.bytes().to_vec(alloc).expect(rt, "no memory")
}

/// A capture of packets is merged by the thread that calls.
pub(crate) fn merge(
    rt: &impl Abort,
    rounds: &mut Rounds,
    feed: &mut Feed<MemSource>,
    sink: &mut MemSink,
) -> MergeEnd
    requires home { length rounds.old.stock ≡ rounds.old.blocks }
{
    let mut reader = reader_of(rt, feed, Link::Ethernet);
    let file = reader.file();
    rounds.merge_all(&mut Alone { gate: &NoGate }, &mut reader, &file, sink)
}
