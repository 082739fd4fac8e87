//! Writes what a round came to.
ghost use Rattle.std.specs.Prelude.{OnOk, OnErr};
ghost use Rattle.std.specs.List.{AllByRecursion, flat_map};
ghost use Rattle.std.specs.Io.KnownBytes.{Appends};
ghost use Rattle.off_io.specs.Faults.{HasCause};
ghost use Rattle.off_io.specs.Content.{AppendsPrefix};
ghost use Rattle.taps.specs.Shown.{shown_text};
ghost use Rattle.rounds.specs.Lanes.{queue_bytes, text_bytes, tap_bytes, lanes_bytes, IsShortText};
ghost use Rattle.rounds.specs.Lanes.{IsSmallQueue, IsSmallTap, IsSmallWork};

use lanes::{Lanes, QueueLane, TapLane};
use off_io::{Sink, WriteFault};
use pcap_io::FileHead;
use records::{Time, write_runs, write_window};
use taps::{TapText, TapTexts};

fn write_queue<K: Sink>(sink: &mut K, file: &FileHead, lane: &QueueLane) -> Result<(), WriteFault>
    requires small { IsSmallQueue lane.now }
    ensures ok { OnOk result (Appends (K.held sink.old) (K.held sink.new) (queue_bytes file.now.order lane.now)) }
    ensures err { OnErr result (AppendsPrefix (K.held sink.old) (K.held sink.new)
        (queue_bytes file.now.order lane.now)) }
    ensures cause { HasCause (K.faults sink.old) (K.faults sink.new) result }
{
    write_runs(
        sink,
        file,
        lane.queue as u8,
        lane.packets.slots(),
        &lane.engine,
    )
}

fn write_queues<K: Sink>(
    sink: &mut K,
    file: &FileHead,
    lanes: &[QueueLane],
) -> Result<(), WriteFault>
    requires small { AllByRecursion IsSmallQueue lanes.now }
    ensures ok { OnOk result (Appends (K.held sink.old) (K.held sink.new)
        (flat_map (queue_bytes file.now.order) lanes.now)) }
    ensures err { OnErr result (AppendsPrefix (K.held sink.old) (K.held sink.new)
        (flat_map (queue_bytes file.now.order) lanes.now)) }
    ensures cause { HasCause (K.faults sink.old) (K.faults sink.new) result }
{
    for lane in lanes {
        write_queue(sink, file, lane)?;
    }
    Ok(())
}

// Writes a window as a record of this tap.
fn write_text<K: Sink>(
    sink: &mut K,
    file: &FileHead,
    tap: u8,
    text: &TapText<'_>,
) -> Result<(), WriteFault>
    requires short { IsShortText (shown_text text.now) }
    ensures ok { OnOk result (Appends (K.held sink.old) (K.held sink.new)
        (text_bytes file.now.order tap (shown_text text.now))) }
    ensures err { OnErr result (AppendsPrefix (K.held sink.old) (K.held sink.new)
        (text_bytes file.now.order tap (shown_text text.now))) }
    ensures cause { HasCause (K.faults sink.old) (K.faults sink.new) result }
{
    let time = Time {
        sec: text.sec,
        frac: text.frac,
    };
    write_window(
        sink,
        file,
        time,
        text.bytes.len() as u32,
        Some(text.head(tap)),
        text.bytes,
    )
}

fn write_texts<K: Sink>(
    sink: &mut K,
    file: &FileHead,
    tap: u8,
    texts: &TapTexts,
) -> Result<(), WriteFault>
    requires short { AllByRecursion IsShortText texts.now }
    ensures ok { OnOk result (Appends (K.held sink.old) (K.held sink.new)
        (flat_map (text_bytes file.now.order tap) texts.now)) }
    ensures err { OnErr result (AppendsPrefix (K.held sink.old) (K.held sink.new)
        (flat_map (text_bytes file.now.order tap) texts.now)) }
    ensures cause { HasCause (K.faults sink.old) (K.faults sink.new) result }
{
    for i in 0..texts.len() {
        write_text(sink, file, tap, &texts.get(i))?;
    }
    Ok(())
}

fn write_tap<K: Sink>(sink: &mut K, file: &FileHead, lane: &TapLane) -> Result<(), WriteFault>
    requires small { IsSmallTap lane.now }
    ensures ok { OnOk result (Appends (K.held sink.old) (K.held sink.new) (tap_bytes file.now.order lane.now)) }
    ensures err { OnErr result (AppendsPrefix (K.held sink.old) (K.held sink.new) (tap_bytes file.now.order lane.now)) }
    ensures cause { HasCause (K.faults sink.old) (K.faults sink.new) result }
{
    match &lane.texts {
        Some(texts) => write_texts(sink, file, lane.tap as u8, texts),
        None => Ok(()),
    }
}

fn write_taps<K: Sink>(sink: &mut K, file: &FileHead, lanes: &[TapLane]) -> Result<(), WriteFault>
    requires small { AllByRecursion IsSmallTap lanes.now }
    ensures ok { OnOk result (Appends (K.held sink.old) (K.held sink.new)
        (flat_map (tap_bytes file.now.order) lanes.now)) }
    ensures err { OnErr result (AppendsPrefix (K.held sink.old) (K.held sink.new)
        (flat_map (tap_bytes file.now.order) lanes.now)) }
    ensures cause { HasCause (K.faults sink.old) (K.faults sink.new) result }
{
    for lane in lanes {
        write_tap(sink, file, lane)?;
    }
    Ok(())
}

/// Writes what the lanes came to: queue by queue what its runs come to, and then tap by tap its windows.
pub(crate) fn write_lanes<K: Sink>(
    sink: &mut K,
    file: &FileHead,
    lanes: &Lanes,
) -> Result<(), WriteFault>
    requires small { IsSmallWork lanes.now }
    ensures ok { OnOk result (Appends (K.held sink.old) (K.held sink.new) (lanes_bytes file.now.order lanes.now)) }
    ensures err { OnErr result (AppendsPrefix (K.held sink.old) (K.held sink.new)
        (lanes_bytes file.now.order lanes.now)) }
    ensures cause { HasCause (K.faults sink.old) (K.faults sink.new) result }
{
    write_queues(sink, file, &lanes.queues)?;
    write_taps(sink, file, &lanes.taps)
}
