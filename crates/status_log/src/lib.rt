//! The log: one line for each way in which a run can end, but for a good one.
//!
//! A line is put together in place, without memory, and then written whole. The texts stand in `specs/Lines.antt`, each
//! with its line feed. Proved of each call: where the log tells what it holds, and its count of faults didn't rise, it
//! holds its old content followed by the line (`line`); whatever happens, a prefix of the line was appended (`prefix`),
//! and the count of faults hasn't fallen (`later`). So a log that fails is ignored.
//!
//! ```
//! log_malformed(&mut log, "ShortRecord", 24, 0); // malformed: ShortRecord at 24 in record 0
//! ```
//!
//! Tests: `word_tests`, module `logged`.
//!
//! Why so:
//!
//! - The log isn't flushed: standard error is unbuffered. A line is put together first and written by one call, so that
//!   it isn't torn.
#![tactic(auto)]

ghost use Rattle.std.specs.Prelude.{◌≡◌, ◌++◌, ◌+◌, ◌≤◌, codes, decimal, length};
ghost use Rattle.arrayvec.specs.ArrayString.{array_string_len};
ghost use Rattle.off_io.specs.Content.{AppendsPrefix};
ghost use Rattle.status_log.specs.Lines.{Logs, malformed_line, no_memory_line, pool_empty_line, read_fault_line};
ghost use Rattle.status_log.specs.Lines.{usage_line, write_fault_line};

use arrayvec::ArrayString;
use itoa::Buffer;
use off_io::{Sink, write_all};

/// The longest text is 128 bytes: a kind's name of at most 32, two numbers of at most 20 digits, and the words between.
type Line = ArrayString<128>;

/// Writes the line, and ignores a fault of the log.
fn log_line<L: Sink>(log: &mut L, line: &str)
    ensures line { Logs (L.held log.old) (L.held log.new) (L.faults log.old) (L.faults log.new) line.now }
    ensures prefix { AppendsPrefix (L.held log.old) (L.held log.new) line.now }
    ensures later { L.faults log.old ≤ L.faults log.new }
{
    let _ = write_all(log, line.as_bytes());
}

/// Appends the number in decimal, at most 20 digits.
fn push_number(line: &mut Line, number: u64)
    requires room { array_string_len line.old + 20 ≤ 128 }
    ensures bytes { line.new.bytes ≡ line.old.bytes ++ decimal number }
    ensures len { array_string_len line.new ≤ array_string_len line.old + 20 }
{
    let mut buffer = Buffer::new();
    line.push_str(buffer.format(number));
}

#[tactic(auto, unfolding(crate::specs::Lines::malformed_line))]
fn malformed_text(kind: &str, offset: u64, number: u64) -> Line
    requires short { length kind.now ≤ 32 }
    ensures line { result.bytes ≡ malformed_line kind.now offset number }
{
    let mut line = Line::new();
    line.push_str("malformed: ");
    line.push_str(kind);
    line.push_str(" at ");
    push_number(&mut line, offset);
    line.push_str(" in record ");
    push_number(&mut line, number);
    line.push_str("\n");
    line
}

/// Logs that the words of the command line are none of the command set.
pub fn log_usage<L: Sink>(log: &mut L)
    ensures line { Logs (L.held log.old) (L.held log.new) (L.faults log.old) (L.faults log.new) usage_line }
    ensures prefix { AppendsPrefix (L.held log.old) (L.held log.new) usage_line }
    ensures later { L.faults log.old ≤ L.faults log.new }
{
    log_line(
        log,
        "usage: offload merge, segment, check or make, with options\n",
    );
}

/// Logs that a capture is malformed: the name of the kind, at most 32 bytes, the fault's place in the file, and the
/// record's number.
pub fn log_malformed<L: Sink>(log: &mut L, kind: &str, offset: u64, number: u64)
    requires short { length kind.now ≤ 32 }
    ensures line { Logs (L.held log.old) (L.held log.new) (L.faults log.old) (L.faults log.new)
        (malformed_line kind.now offset number) }
    ensures prefix { AppendsPrefix (L.held log.old) (L.held log.new) (malformed_line kind.now offset number) }
    ensures later { L.faults log.old ≤ L.faults log.new }
{
    let line = malformed_text(kind, offset, number);
    log_line(log, line.as_str());
}

#[tactic(auto, unfolding(crate::specs::Lines::pool_empty_line))]
fn pool_empty_text(round: u64, need: u32, blocks: u32) -> Line
    ensures line { result.bytes ≡ pool_empty_line round need blocks }
{
    let mut line = Line::new();
    line.push_str("pool empty: round ");
    push_number(&mut line, round);
    line.push_str(" needs ");
    push_number(&mut line, u64::from(need));
    line.push_str(" of ");
    push_number(&mut line, u64::from(blocks));
    line.push_str(" blocks\n");
    line
}

/// Logs that a round needs more blocks than there are: its number, its need, and the blocks.
pub fn log_pool_empty<L: Sink>(log: &mut L, round: u64, need: u32, blocks: u32)
    ensures line { Logs (L.held log.old) (L.held log.new) (L.faults log.old) (L.faults log.new)
        (pool_empty_line round need blocks) }
    ensures prefix { AppendsPrefix (L.held log.old) (L.held log.new) (pool_empty_line round need blocks) }
    ensures later { L.faults log.old ≤ L.faults log.new }
{
    let line = pool_empty_text(round, need, blocks);
    log_line(log, line.as_str());
}

/// Logs that the source couldn't be read.
pub fn log_read_fault<L: Sink>(log: &mut L)
    ensures line { Logs (L.held log.old) (L.held log.new) (L.faults log.old) (L.faults log.new) read_fault_line }
    ensures prefix { AppendsPrefix (L.held log.old) (L.held log.new) read_fault_line }
    ensures later { L.faults log.old ≤ L.faults log.new }
{
    log_line(log, "read fault\n");
}

/// Logs that the sink couldn't be written.
pub fn log_write_fault<L: Sink>(log: &mut L)
    ensures line { Logs (L.held log.old) (L.held log.new) (L.faults log.old) (L.faults log.new) write_fault_line }
    ensures prefix { AppendsPrefix (L.held log.old) (L.held log.new) write_fault_line }
    ensures later { L.faults log.old ≤ L.faults log.new }
{
    log_line(log, "write fault\n");
}

/// Logs that memory ran out.
pub fn log_no_memory<L: Sink>(log: &mut L)
    ensures line { Logs (L.held log.old) (L.held log.new) (L.faults log.old) (L.faults log.new) no_memory_line }
    ensures prefix { AppendsPrefix (L.held log.old) (L.held log.new) no_memory_line }
    ensures later { L.faults log.old ≤ L.faults log.new }
{
    log_line(log, "no memory\n");
}
