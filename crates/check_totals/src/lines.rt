//! The lines that tell totals.
ghost use Rattle.std.specs.Prelude.{◌≡◌, ◌≤◌, ◌<◌, ◌^◌, ◌+◌, ◌++◌, ◌∷◌, decimal, length, take, drop, OnOk, OnErr};
ghost use Rattle.std.specs.List.{AllByRecursion};
ghost use Rattle.std.specs.Io.KnownBytes.{Appends};
ghost use Rattle.arrayvec.specs.ArrayString.{array_string_len};
ghost use Rattle.off_io.specs.Content.{AppendsPrefix};
ghost use Rattle.off_io.specs.Faults.{HasCause};
ghost use Rattle.check_totals.specs.Counts.{queue_sum, IsQueueWithin};
ghost use Rattle.check_totals.specs.Lines.{check_lines, lines_from, made_line, numbers_of, queue_line, tap_line};
ghost use Rattle.check_totals.specs.Lines.{total_line};

use crate::totals::{QueueTotals, TapTotals, Totals};
use arrayvec::ArrayString;
use itoa::Buffer;
use off_io::{Sink, WriteFault, write_all};

/// The longest line is a queue's, with its number and four others of at most 20 digits, and 41 bytes between them.
type Line = ArrayString<160>;

/// Appends the number in decimal, at most 20 digits.
fn push_number(line: &mut Line, number: u64)
    requires room { array_string_len line.old + 20 ≤ 160 }
    ensures bytes { line.new.bytes ≡ line.old.bytes ++ decimal number }
    ensures len { array_string_len line.new ≤ array_string_len line.old + 20 }
{
    let mut buffer = Buffer::new();
    line.push_str(buffer.format(number));
}

/// Appends the four numbers of a queue, or of all, and the line feed: at most 114 bytes.
#[tactic(auto, unfolding(crate::specs::Lines::numbers_of))]
fn push_numbers(line: &mut Line, totals: &QueueTotals)
    requires room { array_string_len line.old ≤ 40 }
    ensures bytes { line.new.bytes ≡ line.old.bytes ++ numbers_of totals.now }
{
    line.push_str("records ");
    push_number(line, totals.records);
    line.push_str(" items ");
    push_number(line, totals.items);
    line.push_str(" merged ");
    push_number(line, totals.merged);
    line.push_str(" returned ");
    push_number(line, totals.returned);
    line.push_str("\n");
}

#[tactic(auto, unfolding(crate::specs::Lines::queue_line))]
fn queue_text(queue: u64, totals: &QueueTotals) -> Line
    ensures line { result.bytes ≡ queue_line queue totals.now }
{
    let mut line = Line::new();
    line.push_str("queue ");
    push_number(&mut line, queue);
    line.push_str(": ");
    push_numbers(&mut line, totals);
    line
}

#[tactic(auto, unfolding(crate::specs::Lines::tap_line))]
fn tap_text(tap: u64, totals: &TapTotals) -> Line
    ensures line { result.bytes ≡ tap_line tap totals.now }
{
    let mut line = Line::new();
    line.push_str("tap ");
    push_number(&mut line, tap);
    line.push_str(": windows ");
    push_number(&mut line, totals.windows);
    line.push_str(" bytes ");
    push_number(&mut line, totals.bytes);
    line.push_str("\n");
    line
}

#[tactic(auto, unfolding(crate::specs::Lines::total_line))]
fn total_text(totals: &QueueTotals) -> Line
    ensures line { result.bytes ≡ total_line totals.now }
{
    let mut line = Line::new();
    line.push_str("total: ");
    push_numbers(&mut line, totals);
    line
}

#[tactic(auto, unfolding(crate::specs::Lines::made_line))]
fn made_text(count: u32, bytes: u64) -> Line
    ensures line { result.bytes ≡ made_line count bytes }
{
    let mut line = Line::new();
    line.push_str("made: records ");
    push_number(&mut line, u64::from(count));
    line.push_str(" bytes ");
    push_number(&mut line, bytes);
    line.push_str("\n");
    line
}

fn write_queue<K: Sink>(sink: &mut K, queue: u64, totals: &QueueTotals) -> Result<(), WriteFault>
    ensures ok { OnOk result (Appends (K.held sink.old) (K.held sink.new) (queue_line queue totals.now)) }
    ensures err { OnErr result (AppendsPrefix (K.held sink.old) (K.held sink.new) (queue_line queue totals.now)) }
    ensures cause { HasCause (K.faults sink.old) (K.faults sink.new) result }
{
    write_all(sink, queue_text(queue, totals).as_bytes())
}

fn write_tap<K: Sink>(sink: &mut K, tap: u64, totals: &TapTotals) -> Result<(), WriteFault>
    ensures ok { OnOk result (Appends (K.held sink.old) (K.held sink.new) (tap_line tap totals.now)) }
    ensures err { OnErr result (AppendsPrefix (K.held sink.old) (K.held sink.new) (tap_line tap totals.now)) }
    ensures cause { HasCause (K.faults sink.old) (K.faults sink.new) result }
{
    write_all(sink, tap_text(tap, totals).as_bytes())
}

fn write_total<K: Sink>(sink: &mut K, totals: &QueueTotals) -> Result<(), WriteFault>
    ensures ok { OnOk result (Appends (K.held sink.old) (K.held sink.new) (total_line totals.now)) }
    ensures err { OnErr result (AppendsPrefix (K.held sink.old) (K.held sink.new) (total_line totals.now)) }
    ensures cause { HasCause (K.faults sink.old) (K.faults sink.new) result }
{
    write_all(sink, total_text(totals).as_bytes())
}

fn write_queues<K: Sink>(sink: &mut K, queues: &[QueueTotals]) -> Result<(), WriteFault>
    ensures ok { OnOk result (Appends (K.held sink.old) (K.held sink.new) (lines_from queue_line 0 queues.now)) }
    ensures err { OnErr result
        (AppendsPrefix (K.held sink.old) (K.held sink.new) (lines_from queue_line 0 queues.now)) }
    ensures cause { HasCause (K.faults sink.old) (K.faults sink.new) result }
{
    let mut queue = 0;
    'lines: while queue < queues.len() {
        write_queue(sink, queue as u64, &queues[queue])?;
        queue += 1;
    }
    Ok(())
}

fn write_taps<K: Sink>(sink: &mut K, taps: &[TapTotals]) -> Result<(), WriteFault>
    ensures ok { OnOk result (Appends (K.held sink.old) (K.held sink.new) (lines_from tap_line 0 taps.now)) }
    ensures err { OnErr result (AppendsPrefix (K.held sink.old) (K.held sink.new) (lines_from tap_line 0 taps.now)) }
    ensures cause { HasCause (K.faults sink.old) (K.faults sink.new) result }
{
    let mut tap = 0;
    'lines: while tap < taps.len() {
        write_tap(sink, tap as u64, &taps[tap])?;
        tap += 1;
    }
    Ok(())
}

// The sums over all queues.
fn sum_of(queues: &[QueueTotals]) -> QueueTotals
    requires lanes { length queues.now ≤ 2 ^ 12 }
    requires within { AllByRecursion (IsQueueWithin (2 ^ 50)) queues.now }
    ensures sum { result ≡ queue_sum queues.now }
{
    let mut sum = QueueTotals {
        records: 0,
        items: 0,
        merged: 0,
        returned: 0,
    };
    'queues: for queue in queues {
        sum = sum.plus(queue);
    }
    sum
}

fn write_lanes<K: Sink>(
    sink: &mut K,
    queues: &[QueueTotals],
    taps: &[TapTotals],
) -> Result<(), WriteFault>
    requires lanes { length queues.now ≤ 2 ^ 12 }
    requires within { AllByRecursion (IsQueueWithin (2 ^ 50)) queues.now }
    ensures ok { OnOk result (Appends (K.held sink.old) (K.held sink.new)
        (check_lines (record { queues = queues.now; taps = taps.now }))) }
    ensures err { OnErr result (AppendsPrefix (K.held sink.old) (K.held sink.new)
        (check_lines (record { queues = queues.now; taps = taps.now }))) }
    ensures cause { HasCause (K.faults sink.old) (K.faults sink.new) result }
{
    write_queues(sink, queues)?;
    write_taps(sink, taps)?;
    write_total(sink, &sum_of(queues))
}

/// Writes the lines of all queues and taps, and the one of the sums. The sink isn't flushed.
///
/// `WriteFault` only where the sink's count of faults rose; a prefix of the lines was then written.
pub fn write_totals<K: Sink>(sink: &mut K, totals: &Totals) -> Result<(), WriteFault>
    requires lanes { length totals.now.queues ≤ 2 ^ 12 }
    requires within { AllByRecursion (IsQueueWithin (2 ^ 50)) totals.now.queues }
    ensures ok { OnOk result (Appends (K.held sink.old) (K.held sink.new) (check_lines totals.now)) }
    ensures err { OnErr result (AppendsPrefix (K.held sink.old) (K.held sink.new) (check_lines totals.now)) }
    ensures cause { HasCause (K.faults sink.old) (K.faults sink.new) result }
{
    write_lanes(sink, &totals.queues, &totals.taps)
}

/// Writes the line of a generated capture: how many records were wanted, and how many bytes it has.
///
/// `WriteFault` only where the sink's count of faults rose; a prefix of the line was then written.
pub fn write_made<K: Sink>(sink: &mut K, count: u32, bytes: u64) -> Result<(), WriteFault>
    ensures ok { OnOk result (Appends (K.held sink.old) (K.held sink.new) (made_line count bytes)) }
    ensures err { OnErr result (AppendsPrefix (K.held sink.old) (K.held sink.new) (made_line count bytes)) }
    ensures cause { HasCause (K.faults sink.old) (K.faults sink.new) result }
{
    write_all(sink, made_text(count, bytes).as_bytes())
}
