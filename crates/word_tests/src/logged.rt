//! The lines, byte for byte, in logs that take them whole, byte by byte, or fail.
ghost use Rattle.std.specs.Prelude.{◌<◌};

use crate::seeing::assert_same;
use off_io::MemSink;
use status_log::{
    log_malformed, log_no_memory, log_pool_empty, log_read_fault, log_usage, log_write_fault,
};
use std::alloc::Global;

const LINES: &str = "usage: offload merge, segment, check or make, with options\n\
    malformed: ShortHeader at 0 in record 0\n\
    malformed: ShortRecordHeader at 18446744073709551615 in record 4294967296\n\
    pool empty: round 0 needs 6 of 3 blocks\n\
    pool empty: round 18446744073709551615 needs 4294967295 of 65536 blocks\n\
    read fault\n\
    write fault\n\
    no memory\n";

// Whether a log that takes so many bytes a call has these lines.
fn has_lines(alloc: Global, step: usize) -> bool
    requires some { 0 < step }
{
    let mut log = MemSink::new(alloc, step, Vec::new(alloc));
    log_usage(&mut log);
    log_malformed(&mut log, "ShortHeader", 0, 0);
    log_malformed(&mut log, "ShortRecordHeader", u64::MAX, 1 << 32);
    log_pool_empty(&mut log, 0, 6, 3);
    log_pool_empty(&mut log, u64::MAX, u32::MAX, 65536);
    log_read_fault(&mut log);
    log_write_fault(&mut log);
    log_no_memory(&mut log);
    log.bytes() == LINES.as_bytes()
}

#[test]
fn lines_of_the_log(rt: HostRuntime) {
    let alloc = rt.alloc();
    let have_lines = [
        has_lines(alloc, 1),
        has_lines(alloc, 7),
        has_lines(alloc, 4096),
    ];
    let fails = [1].to_vec(alloc).expect(&rt, "no memory");
    let mut failing = MemSink::new(alloc, 4, fails);
    log_no_memory(&mut failing);
    assert_same(
        &rt,
        &(have_lines, failing.bytes()),
        &([true; 3], b"no m".as_slice()),
    );
}
