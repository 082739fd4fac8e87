//! The example of each first page, as it stands there, and what it comes to.

use crate::words::words;
use cap_make::{MadeSource, make_capture};
use check_totals::{Totals, write_made, write_totals};
use off_io::{MemSink, Source};
use offload_words::{Command, parse_words};
use status_log::log_malformed;
use std::test::Fail;

#[test]
fn example_of_cap_make(rt: HostRuntime) -> Result<(), Fail> {
    let alloc = rt.alloc();
    let mut sink = MemSink::new(alloc, 4096, Vec::new(alloc));
    make_capture(1, 1000, &mut sink)?;
    let mut source = MadeSource::new(1, 1000);
    let mut front = [0; 4096];
    let count = source.read(&mut front)?;
    assert!(rt; 0 < count && sink.bytes().starts_with(&front[..count]));
    Ok(())
}

#[test]
fn example_of_offload_words(rt: HostRuntime) -> Result<(), Fail> {
    let alloc = rt.alloc();
    let words = &words(alloc, "offload merge --budget 16 --filter 1,6~0~0~40")?;
    // offload merge --budget 16 --filter "1,6 0 0 40"
    let budget = match parse_words(alloc, words)? {
        Command::Merge(options) => options.budget, // 16
        _ => 0,
    };
    assert_eq!(rt; budget, 16);
    Ok(())
}

#[test]
fn example_of_status_log(rt: HostRuntime) -> Result<(), Fail> {
    let alloc = rt.alloc();
    let mut log = MemSink::new(alloc, 4096, Vec::new(alloc));
    log_malformed(&mut log, "ShortRecord", 24, 0); // malformed: ShortRecord at 24 in record 0
    let want = "malformed: ShortRecord at 24 in record 0\n";
    assert_eq!(rt; log.bytes(), want.as_bytes());
    Ok(())
}

#[test]
fn example_of_check_totals(rt: HostRuntime) -> Result<(), Fail> {
    let alloc = rt.alloc();
    let mut sink = MemSink::new(alloc, 4096, Vec::new(alloc));
    let totals = Totals::make(alloc, 1, 1)?;
    write_made(&mut sink, 0, 24)?;
    write_totals(&mut sink, &totals)?;
    let want = "made: records 0 bytes 24\n\
        queue 0: records 0 items 0 merged 0 returned 0\n\
        tap 0: windows 0 bytes 0\n\
        total: records 0 items 0 merged 0 returned 0\n";
    assert_eq!(rt; sink.bytes(), want.as_bytes());
    Ok(())
}
