//! `wire` over standard input, output and error: `wire < host.pcap > wire.pcap`.
//!
//! The whole program is `wire_run::run`, and its clauses say what it does. `main` has no clause of its own: what is
//! proved of it is that it is safe, and that it ends. It ends with the status of a run; with 7 where the buffers can't
//! be had, which is logged as a run logs it; and with 8 where the system doesn't give the words as text. The buffers of
//! 64 KiB keep a record from costing a system call for each header.
#![tactic(auto)]

use off_io::{BufferedSink, BufferedSource, Sink, StdSink};
use std::env;
use std::io::{BufReader, BufWriter};
use std::process::ExitCode;
use wire_run::{Status, run, write_status};

const NO_WORDS: u8 = 8;

const BUFFER: usize = 65536;

// Ends before the run, where memory runs out.
fn no_memory<L: Sink>(log: &mut L) -> ExitCode {
    write_status(log, &Status::NoMemory);
    ExitCode::from(Status::NoMemory.code())
}

fn main(rt: HostRuntime) -> ExitCode {
    let mut log = StdSink::new(rt.stderr());
    let Ok(args) = env::args(&rt) else {
        return ExitCode::from(NO_WORDS);
    };
    let Ok(words) = args.collect::<Vec<_>>(rt.alloc()) else {
        return no_memory(&mut log);
    };
    let Ok(input) = BufReader::with_capacity(rt.alloc(), BUFFER, rt.stdin()) else {
        return no_memory(&mut log);
    };
    let Ok(output) = BufWriter::with_capacity(rt.alloc(), BUFFER, rt.stdout()) else {
        return no_memory(&mut log);
    };
    let mut source = BufferedSource::new(input);
    let mut sink = BufferedSink::new(output);
    let status = run(rt.alloc(), &words, &mut source, &mut sink, &mut log);
    ExitCode::from(status.code())
}
