//! The lines of wire on standard error.
ghost use Rattle.std.specs.Prelude.{◌≡◌, ◌≢◌, ◌++◌, ◌+◌, ◌≤◌, decimal, length};
ghost use Rattle.arrayvec.specs.ArrayString.{array_string_len};
ghost use Rattle.off_io.specs.Content.{AppendsPrefix};
ghost use Rattle.status_log.specs.Lines.{Logs};
ghost use Rattle.wire_run.specs.Lines.{status_line, summary_line, usage_line};

use arrayvec::ArrayString;
use command_answers::{Status, write_log};
use itoa::Buffer;
use off_io::{Sink, write_all};
use wire_model::Counts;

// The longest text is 192 bytes: four numbers of at most 20 digits, and the words between.
type Line = ArrayString<192>;

// Writes the line, and ignores a fault of the log.
fn log_line<L: Sink>(log: &mut L, line: &str)
    ensures line { Logs (L.held log.old) (L.held log.new) (L.faults log.old) (L.faults log.new) line.now }
    ensures prefix { AppendsPrefix (L.held log.old) (L.held log.new) line.now }
    ensures later { L.faults log.old ≤ L.faults log.new }
{
    let _ = write_all(log, line.as_bytes());
}

// Appends the number in decimal, at most 20 digits.
fn push_number(line: &mut Line, number: u64)
    requires room { array_string_len line.old + 20 ≤ 192 }
    ensures bytes { line.new.bytes ≡ line.old.bytes ++ decimal number }
    ensures len { array_string_len line.new ≤ array_string_len line.old + 20 }
{
    let mut buffer = Buffer::new();
    line.push_str(buffer.format(number));
}

#[tactic(auto, unfolding(crate::specs::Lines::summary_line))]
fn summary_text(counts: Counts) -> Line
    ensures line { result.bytes ≡ summary_line counts }
{
    let mut line = Line::new();
    line.push_str("cut ");
    push_number(&mut line, counts.cut);
    line.push_str(" frames, filled ");
    push_number(&mut line, counts.filled);
    line.push_str(" sums; left ");
    push_number(&mut line, counts.wrong);
    line.push_str(" wrong sums, ");
    push_number(&mut line, counts.long);
    line.push_str(" frames above 1514 bytes\n");
    line
}

/// Logs what was done.
pub(crate) fn log_summary<L: Sink>(log: &mut L, counts: Counts)
    ensures line { Logs (L.held log.old) (L.held log.new) (L.faults log.old) (L.faults log.new)
        (summary_line counts) }
    ensures prefix { AppendsPrefix (L.held log.old) (L.held log.new) (summary_line counts) }
    ensures later { L.faults log.old ≤ L.faults log.new }
{
    let line = summary_text(counts);
    log_line(log, line.as_str());
}

/// Logs the line of a status, none on `Ok`. A fault of the log is ignored.
pub fn write_status<L: Sink>(log: &mut L, status: &Status)
    ensures line { Logs (L.held log.old) (L.held log.new) (L.faults log.old) (L.faults log.new)
        (status_line status.now) }
    ensures prefix { AppendsPrefix (L.held log.old) (L.held log.new) (status_line status.now) }
    ensures quiet { status.now ≡ Status.Ok → log.new ≡ log.old }
    ensures later { L.faults log.old ≤ L.faults log.new }
{
    match *status {
        Status::Usage => log_line(
            log,
            "usage: wire [--mss N] [--sums partial|all] [--blocks N] [--summary]\n",
        ),
        _ => write_log(log, status),
    }
}
