//! The example of each first page, as it stands there, and what it comes to.

use crate::lines::{CAPTURE, words};
use check_command::run_check;
use command_answers::{Status, finish, write_log};
use command_rounds::make_rounds;
use merge_command::run_merge;
use off_io::{MemSink, MemSource, NoGate};
use offload_run::run;
use offload_words::{Command, parse_words};
use segment_command::run_segment;
use std::alloc::Global;
use std::process::Abort;
use std::test::Fail;

#[test]
fn example_of_offload_run(rt: HostRuntime) {
    let alloc = rt.alloc();
    let words = words(&rt, alloc, "offload check");
    let bytes = CAPTURE.to_vec(alloc).expect(&rt, "no memory");
    let mut source = MemSource::new(bytes, 4096, Vec::new(alloc));
    let mut sink = MemSink::new(alloc, 4096, Vec::new(alloc));
    let mut log = MemSink::new(alloc, 4096, Vec::new(alloc));
    let mut engine = None;
    let status = run(
        &rt,
        alloc,
        &words,
        &mut source,
        &mut sink,
        &mut log,
        &NoGate,
        &mut engine,
    );
    let code = status.code(); // 0 where all went well
    let want = "queue 0: records 2 items 1 merged 1 returned 2\n\
        total: records 2 items 1 merged 1 returned 2\n";
    assert_eq!(rt; (code, sink.bytes()), (0, want.as_bytes()));
}

#[test]
fn example_of_command_answers(rt: HostRuntime) {
    let alloc = rt.alloc();
    let mut sink = MemSink::new(alloc, 4096, Vec::new(alloc));
    let mut log = MemSink::new(alloc, 4096, Vec::new(alloc));
    let status = finish(&mut sink, Status::ReadFault);
    write_log(&mut log, &status);
    let code = status.code(); // 5
    assert_eq!(rt; (code, log.bytes()), (5, "read fault\n".as_bytes()));
}

#[test]
fn example_of_command_rounds(rt: HostRuntime) -> Result<(), Fail> {
    let alloc = rt.alloc();
    let words = words(&rt, alloc, "offload merge --blocks 40");
    let Ok(Command::Merge(options)) = parse_words(alloc, &words) else {
        panic!(rt; "these words are a command");
    };
    let rounds = make_rounds(alloc, options, false)?;
    let home = rounds.home(); // options.blocks
    assert_eq!(rt; home, 40);
    Ok(())
}

// A source of these bytes, and a sink.
fn ends(rt: &impl Abort, alloc: Global, bytes: &[u8]) -> (MemSource, MemSink) {
    let bytes = bytes.to_vec(alloc).expect(rt, "no memory");
    let source = MemSource::new(bytes, 4096, Vec::new(alloc));
    (source, MemSink::new(alloc, 4096, Vec::new(alloc)))
}

// A capture of Ethernet frames is no offload capture.
#[test]
fn example_of_segment_command(rt: HostRuntime) {
    let alloc = rt.alloc();
    let words = words(&rt, alloc, "offload segment");
    let Ok(Command::Segment(options)) = parse_words(alloc, &words) else {
        panic!(rt; "these words are a command");
    };
    let (mut source, mut sink) = ends(&rt, alloc, &CAPTURE);
    let mut engine = None;
    let status = run_segment(alloc, options, &mut source, &mut sink, &mut engine);
    assert!(rt; matches!(status, Status::Malformed(_)) && engine.is_none());
}

#[test]
fn example_of_merge_command(rt: HostRuntime) {
    let alloc = rt.alloc();
    let words = words(&rt, alloc, "offload merge");
    let Ok(Command::Merge(options)) = parse_words(alloc, &words) else {
        panic!(rt; "these words are a command");
    };
    let (mut source, mut sink) = ends(&rt, alloc, &CAPTURE);
    let mut engine = None;
    let status = run_merge(
        &rt,
        alloc,
        options,
        &mut source,
        &mut sink,
        &NoGate,
        &mut engine,
    );
    assert!(rt; status == Status::Ok && engine.is_some());
}

#[test]
fn example_of_check_command(rt: HostRuntime) {
    let alloc = rt.alloc();
    let words = words(&rt, alloc, "offload check");
    let Ok(Command::Check(options)) = parse_words(alloc, &words) else {
        panic!(rt; "these words are a command");
    };
    let (mut source, mut sink) = ends(&rt, alloc, &CAPTURE);
    let mut engine = None;
    let status = run_check(
        &rt,
        alloc,
        options,
        &mut source,
        &mut sink,
        &NoGate,
        &mut engine,
    );
    assert!(rt; status == Status::Ok && engine.is_some());
}
