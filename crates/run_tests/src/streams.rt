//! The program over readers and writers of std in memory.

use crate::lines::{CAPTURE, SINGLES, words};
use offload_run::{Status, run_streams};
use std::alloc::Global;
use std::io::{BufReader, BufWriter, Cursor};
use std::process::Abort;
use std::sync::Wait;
use std::test::Fail;
use std::thread::Threads;

// What a writer is given that has room for 24 bytes alone.
fn front_of_a_run(rt: &(impl Threads + Wait + Abort + Sync), alloc: Global) -> (Status, [u8; 24]) {
    let words = words(rt, alloc, "offload merge --segs 1");
    let input = BufReader::with_capacity(alloc, 64, CAPTURE.as_slice());
    let output = BufWriter::with_capacity(alloc, 64, Cursor::new([0; 24]));
    let ended = run_streams(
        rt,
        alloc,
        &words,
        input.expect(rt, "no memory"),
        output.expect(rt, "no memory"),
        Vec::new(alloc),
    );
    (ended.status, ended.output.into_inner())
}

#[test]
fn std_writer_has_the_output(rt: HostRuntime) {
    let alloc = rt.alloc();
    let words = words(&rt, alloc, "offload merge --segs 1");
    let input = BufReader::with_capacity(alloc, 64, CAPTURE.as_slice());
    let output = BufWriter::with_capacity(alloc, 64, Vec::new(alloc));
    let ended = run_streams(
        &rt,
        alloc,
        &words,
        input.expect(&rt, "no memory"),
        output.expect(&rt, "no memory"),
        Vec::new(alloc),
    );
    assert_eq!(rt;
        (ended.status, ended.output.as_slice(), ended.log.as_slice()),
        (Status::Ok, SINGLES.as_slice(), [].as_slice())
    );
}

#[test]
fn full_std_writer_has_the_first_bytes(rt: HostRuntime) {
    let alloc = rt.alloc();
    let (status, front) = front_of_a_run(&rt, alloc);
    let mut wanted = [0; 24];
    wanted.copy_from_slice(&SINGLES[..24]);
    assert_eq!(rt; (status, front), (Status::WriteFault, wanted));
}

#[test]
fn words_that_are_no_command_write_nothing(rt: HostRuntime) {
    let alloc = rt.alloc();
    let words = words(&rt, alloc, "offload mend");
    let input = BufReader::with_capacity(alloc, 64, CAPTURE.as_slice());
    let output = BufWriter::with_capacity(alloc, 64, Vec::new(alloc));
    let ended = run_streams(
        &rt,
        alloc,
        &words,
        input.expect(&rt, "no memory"),
        output.expect(&rt, "no memory"),
        Vec::new(alloc),
    );
    let usage = "usage: offload merge, segment, check or make, with options\n";
    assert_eq!(rt;
        (ended.status, ended.output.len(), ended.log.as_slice()),
        (Status::Usage, 0, usage.as_bytes())
    );
}
