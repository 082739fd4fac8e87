//! Whole reads and writes at several steps, the listed failures, and the system's edge.
ghost use Rattle.std.specs.Prelude.{◌<◌};

use crate::seeing::assert_same;
use off_io::{
    BufferedSink, BufferedSource, Failed, Feed, Gate, MemSink, MemSource, NoGate, Sink, Source,
    StdSink, StdSource, SureSink, SureSource, Who, WriteFault, read_full, write_all,
};
use std::alloc::Global;
use std::io::{BufReader, BufWriter};
use std::process::Abort;

static FIVE: [u8; 5] = [1, 2, 3, 4, 5];

/// The five bytes.
fn five(rt: &impl Abort, alloc: Global) -> Vec<u8> {
    FIVE.to_vec(alloc).expect(rt, "no memory")
}

/// That the calls 1 and 3 fail.
fn first_and_third(rt: &impl Abort, alloc: Global) -> Vec<u64> {
    [1, 3].to_vec(alloc).expect(rt, "no memory")
}

/// How many bytes a read of four gives, all of which are written.
fn passed_on(source: &mut Feed<MemSource>, sink: &mut MemSink) -> Option<usize> {
    let mut buffer = [0; 4];
    let count = read_full(source, &mut buffer).ok()?;
    write_all(sink, &buffer[..count]).ok()?;
    Some(count)
}

/// How much three reads give; whether the sink is flushed before a flush and behind it, and what that answers; how much
/// was refused; and whether the five bytes were written.
type Passed = (
    [Option<usize>; 3],
    (bool, Result<(), Failed>, bool),
    u64,
    bool,
);

/// What comes of reads and writes of so many bytes a call.
fn passed_by(rt: &impl Abort, alloc: Global, step: usize) -> Passed
    requires some { 0 < step }
{
    let mut source = Feed {
        inner: MemSource::new(five(rt, alloc), step, Vec::new(alloc)),
    };
    let mut sink = MemSink::new(alloc, step, Vec::new(alloc));
    let counts = [
        passed_on(&mut source, &mut sink),
        passed_on(&mut source, &mut sink),
        passed_on(&mut source, &mut sink),
    ];
    let flushed = (sink.is_flushed(), sink.flush(), sink.is_flushed());
    let is_whole = sink.bytes() == FIVE.as_slice();
    (counts, flushed, sink.refused(), is_whole)
}

#[test]
fn whole_reads_and_writes(rt: HostRuntime) {
    let alloc = rt.alloc();
    NoGate.pass(Who::Worker(0), 0);
    let passed = [
        passed_by(&rt, alloc, 1),
        passed_by(&rt, alloc, 3),
        passed_by(&rt, alloc, 64),
    ];
    let want = ([Some(4), Some(1), Some(0)], (false, Ok(()), true), 0, true);
    assert_same(&rt, &passed, &[want; 3]);
}

#[test]
fn reads_and_writes_that_never_fail(rt: HostRuntime) {
    let mut sure = SureSource::new(five(&rt, rt.alloc()));
    let mut buffer = [0; 8];
    let read = read_full(&mut sure, &mut buffer);
    let write = write_all(&mut SureSink::new(), &buffer);
    assert_same(&rt, &(read, write), &(Ok(5), Ok(())));
}

/// What six reads answer.
fn six_reads(source: &mut MemSource) -> [Result<usize, Failed>; 6] {
    let mut buffer = [0; 4];
    [
        source.read(&mut buffer),
        source.read(&mut buffer),
        source.read(&mut buffer),
        source.read(&mut buffer),
        source.read(&mut buffer),
        source.read(&mut buffer),
    ]
}

#[test]
fn listed_calls_fail(rt: HostRuntime) {
    let alloc = rt.alloc();
    let mut source = MemSource::new(five(&rt, alloc), 2, first_and_third(&rt, alloc));
    let reads = six_reads(&mut source);
    // A flush is counted as a write is.
    let mut sink = MemSink::new(alloc, 2, first_and_third(&rt, alloc));
    let writes = [sink.write(&FIVE), sink.write(&FIVE)];
    let flushes = [sink.flush(), sink.flush()];
    let failed = Err(Failed);
    assert_same(
        &rt,
        &(reads, writes, flushes, sink.bytes()),
        &(
            [Ok(2), failed, Ok(2), failed, Ok(1), Ok(0)],
            [Ok(2), failed],
            [Ok(()), Err(Failed)],
            [1, 2].as_slice(),
        ),
    );
}

/// How many bytes a read of two gives, and which.
fn pair_of<S: Source>(source: &mut S) -> (Option<usize>, [u8; 2]) {
    let mut pair = [0; 2];
    let count = read_full(source, &mut pair).ok();
    (count, pair)
}

/// Two reads of two bytes, the count and the first byte of a third, and what one at the end answers.
type Pairs = (
    [(Option<usize>, [u8; 2]); 2],
    Option<usize>,
    u8,
    Result<usize, Failed>,
);

/// Of the five bytes, behind a buffer of this size.
fn pairs_behind(rt: &impl Abort, alloc: Global, size: usize) -> Pairs {
    let inner = BufReader::with_capacity(alloc, size, FIVE.as_slice()).expect(rt, "no memory");
    let mut source = BufferedSource::new(inner);
    let pairs = [pair_of(&mut source), pair_of(&mut source)];
    let (count, pair) = pair_of(&mut source);
    let end = source.read(&mut [0; 2]);
    (pairs, count, pair[0], end)
}

// Behind buffers of which some have fewer bytes than are read, as many, and more.
#[test]
fn buffered_reads(rt: HostRuntime) {
    let alloc = rt.alloc();
    let read = [
        pairs_behind(&rt, alloc, 1),
        pairs_behind(&rt, alloc, 2),
        pairs_behind(&rt, alloc, 3),
        pairs_behind(&rt, alloc, 64),
    ];
    let want = ([(Some(2), [1, 2]), (Some(2), [3, 4])], Some(1), 5, Ok(0));
    assert_same(&rt, &read, &[want; 4]);
}

/// What two writes of two bytes and a flush answer; and whether one more write of two, for which there is room for one,
/// fails, or the flush behind it.
fn answers_of<K: Sink>(sink: &mut K) -> (bool, bool, bool, bool) {
    let first = write_all(sink, &[1, 2]).is_ok();
    let second = write_all(sink, &[3, 4]).is_ok();
    let flushed = sink.flush().is_ok();
    let refused = write_all(sink, &[5, 6]).is_err() || sink.flush().is_err();
    (first, second, flushed, refused)
}

/// These answers, and what is written, before a buffer of this size.
fn written_before(
    rt: &impl Abort,
    alloc: Global,
    size: usize,
) -> ((bool, bool, bool, bool), [u8; 5]) {
    let mut room = [0; 5];
    let answers = {
        let inner = BufWriter::with_capacity(alloc, size, room.as_mut_slice());
        answers_of(&mut BufferedSink::new(inner.expect(rt, "no memory")))
    };
    (answers, room)
}

// Before buffers of which some have fewer bytes than are written, as many, and more.
#[test]
fn buffered_writes(rt: HostRuntime) {
    let alloc = rt.alloc();
    let written = [
        written_before(&rt, alloc, 1),
        written_before(&rt, alloc, 2),
        written_before(&rt, alloc, 3),
        written_before(&rt, alloc, 64),
    ];
    assert_same(&rt, &written, &[((true, true, true, true), FIVE); 4]);
}

#[test]
fn std_readers_and_writers(rt: HostRuntime) {
    let mut source = StdSource::new(FIVE.as_slice());
    let mut buffer = [0; 4];
    let count = read_full(&mut source, &mut buffer);
    // A slice that is full takes 0 bytes of a piece, which is a fault.
    let mut room = [0; 3];
    let mut sink = StdSink::new(room.as_mut_slice());
    let writes = [write_all(&mut sink, &[7, 8]), write_all(&mut sink, &[9, 9])];
    assert_same(
        &rt,
        &(count, buffer, writes, sink.flush()),
        &(Ok(4), [1, 2, 3, 4], [Ok(()), Err(WriteFault)], Ok(())),
    );
}
