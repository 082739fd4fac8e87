//! `offload` over standard input, output and error: `offload merge < capture.pcap > merged.pcap`.
//!
//! The whole program is `offload_run::run_streams`, whose clauses say of std's reader and writers what it does. `main`
//! has no clause of its own: what is proved of it is that it is safe, and that it ends but where `merge` waits: for its
//! thread that reads, or that thread for it. It ends with the status of a run; with 7 where the buffers can't be had,
//! which is logged as a run logs it; and with 8 where the system doesn't give the words as text. The buffers of 64 KiB
//! keep a record from costing a system call for each header.
#![tactic(auto)]

use off_io::StdSink;
use offload_run::{Status, run_streams, write_log};
use std::env;
use std::io::{BufReader, BufWriter};
use std::process::ExitCode;

const NO_WORDS: u8 = 8;

const BUFFER: usize = 65536;

// Ends before the run, where memory runs out.
fn no_memory(rt: &HostRuntime) -> ExitCode {
    write_log(&mut StdSink::new(rt.stderr()), &Status::NoMemory);
    ExitCode::from(Status::NoMemory.code())
}

fn main(rt: HostRuntime) -> ExitCode {
    let Ok(args) = env::args(&rt) else {
        return ExitCode::from(NO_WORDS);
    };
    let Ok(words) = args.collect::<Vec<_>>(rt.alloc()) else {
        return no_memory(&rt);
    };
    let Ok(input) = BufReader::with_capacity(rt.alloc(), BUFFER, rt.stdin()) else {
        return no_memory(&rt);
    };
    let Ok(output) = BufWriter::with_capacity(rt.alloc(), BUFFER, rt.stdout()) else {
        return no_memory(&rt);
    };
    let ended = run_streams(&rt, rt.alloc(), &words, input, output, rt.stderr());
    ExitCode::from(ended.status.code())
}
