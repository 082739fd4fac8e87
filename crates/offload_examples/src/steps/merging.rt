//! Merging the packets of a round that lie in blocks: each is judged and received, and the round finished, without
//! reading and writing. A round has 64 packets, whose blocks go home before the next one is read.

ghost use Rattle.std.specs.Prelude.{◌≡◌, ◌+◌, length, IfOk, IfSome};
ghost use Rattle.pcap_io.specs.Places.{IsReady};
ghost use Rattle.pcap_io.specs.Readers.{place_of};
ghost use Rattle.pcap_io.specs.declared.heads.Link.TheVariants.{Ethernet};

use anyhow::{Error, bail};
use frame_layout::Choice;
use inet_sum::{Partial, checksum};
use lanes::{Alone, LanePlan};
use off_io::{Feed, MemSource, NoGate};
use pcap_io::{CaptureReader, Link};
use rounds::{RoundEnd, RoundRead, Rounds};
use std::alloc::{AllocError, Global};
use std::time::{Duration, Instant};
use worked_captures::FILE_HEADER;

const ROUND: u16 = 64;

const LONGEST: usize = 1514;

// A packet of a round has a block and two spares.
const BLOCKS: u32 = 192;

// The rounds of a capture.
const PASS: u64 = 16;

/// The packets of a capture: of how many flows in turn, with how much TCP payload, and how many bytes of each were
/// captured.
struct Row {
    name: &'static str,
    flows: u16,
    payload: u16,
    captured: u16,
}

const ROWS: [Row; 6] = [
    Row {
        name: "1,514 bytes, one flow",
        flows: 1,
        payload: 1460,
        captured: 1514,
    },
    Row {
        name: "1,514 bytes, 64 flows in turn",
        flows: 64,
        payload: 1460,
        captured: 1514,
    },
    Row {
        name: "100 bytes, one flow",
        flows: 1,
        payload: 46,
        captured: 100,
    },
    Row {
        name: "100 bytes, 64 flows in turn",
        flows: 64,
        payload: 46,
        captured: 100,
    },
    Row {
        name: "acknowledgments of 54 bytes",
        flows: 1,
        payload: 0,
        captured: 54,
    },
    Row {
        name: "1,514 bytes cut to 100",
        flows: 1,
        payload: 1460,
        captured: 100,
    },
];

// Ethernet, IPv4 and TCP of the first packet, without lengths and sums.
const HEADERS: [u8; 54] = [
    0x02, 0x00, 0x00, 0x00, 0x00, 0x02, 0x02, 0x00, 0x00, 0x00, 0x00, 0x01, 0x08, 0x00, 0x45, 0x00,
    0x00, 0x00, 0x00, 0x64, 0x40, 0x00, 0x40, 0x06, 0x00, 0x00, 0x0a, 0x00, 0x00, 0x01, 0x0a, 0x00,
    0x00, 0x02, 0x9c, 0x40, 0x13, 0x89, 0x00, 0x00, 0x03, 0xe8, 0x00, 0x00, 0x00, 0x01, 0x50, 0x10,
    0x01, 0x00, 0x00, 0x00, 0x00, 0x00,
];

// Packet `index` of a round. Payload byte k is k modulo 251.
fn frame_of(row: &Row, index: u16) -> [u8; LONGEST] {
    let flow = index % row.flows.max(1);
    let turn = index / row.flows.max(1);
    let payload = row.payload.min(1460);
    let end = 54 + payload as usize;
    let mut frame = [0u8; LONGEST];
    frame[..54].copy_from_slice(&HEADERS);
    for i in 54..end {
        frame[i] = ((i - 54) % 251) as u8;
    }
    let sequence = 1000 + turn as u32 * payload as u32;
    frame[16..18].copy_from_slice(&(40 + payload).to_be_bytes());
    frame[18..20].copy_from_slice(&turn.wrapping_add(100).to_be_bytes());
    frame[34..36].copy_from_slice(&flow.wrapping_add(40000).to_be_bytes());
    frame[38..42].copy_from_slice(&sequence.to_be_bytes());
    let sum = checksum(&frame[14..34]);
    frame[24..26].copy_from_slice(&sum.to_be_bytes());
    // The pseudo-header: both addresses, the protocol and the length.
    let mut words = Partial::new();
    words.add(&frame[26..34]);
    words.add_number(6);
    words.add_number(20 + payload as u32);
    words.add(&frame[34..end]);
    let sum = 65535 - words.fold();
    frame[50..52].copy_from_slice(&sum.to_be_bytes());
    frame
}

// A capture of so many rounds of the row's packets, each round the same.
fn capture_of(alloc: Global, row: &Row, rounds: u64) -> Result<Vec<u8>, AllocError> {
    let mut bytes = FILE_HEADER.to_vec(alloc)?;
    let size = row.captured.min(1514);
    for _ in 0..rounds {
        for index in 0..ROUND {
            let frame = frame_of(row, index);
            bytes.extend_from_slice(&[0; 8])?;
            bytes.extend_from_slice(&(size as u32).to_le_bytes())?;
            bytes.extend_from_slice(&(size as u32).to_le_bytes())?;
            bytes.extend_from_slice(&frame[..size as usize])?;
        }
    }
    Ok(bytes)
}

// The next round, worked and ended: how long the work took, where there was a full one.
fn time_round(
    rt: &HostRuntime,
    rounds: &mut Rounds,
    reader: &mut CaptureReader<'_, Feed<MemSource>>,
) -> Result<Option<Duration>, Error>
    requires ready { IsReady (place_of reader.old) }
    requires link { (place_of reader.old).link ≡ Ethernet }
    requires home { length rounds.old.stock ≡ rounds.old.blocks }
    ensures home { length rounds.new.stock ≡ rounds.new.blocks }
    ensures ready { IfOk result (λ found. IfSome found (λ _. IsReady (place_of reader.new))) }
    ensures link { IfOk result (λ found. IfSome found (λ _. (place_of reader.new).link ≡ Ethernet)) }
{
    let RoundRead { round, end } = rounds.read_round(reader);
    let start = Instant::now(rt);
    let worked = rounds.work_round(&mut Alone { gate: &NoGate }, round);
    let taken = match start {
        Ok(start) => start.elapsed(rt).map_err(Error::from),
        Err(error) => Err(Error::from(error)),
    };
    rounds.end_round(worked?);
    let taken = taken?;
    Ok(match end {
        RoundEnd::Full => Some(taken),
        _ => None,
    })
}

// The rounds of a capture, worked: how long that took in all, and how many there were.
fn time_pass(
    rt: &HostRuntime,
    rounds: &mut Rounds,
    bytes: Vec<u8>,
) -> Result<(Duration, u64), Error>
    requires home { length rounds.old.stock ≡ rounds.old.blocks }
    ensures home { length rounds.new.stock ≡ rounds.new.blocks }
{
    let mut feed = Feed {
        inner: MemSource::new(bytes, 65536, Vec::new(rt.alloc())),
    };
    let mut reader = match CaptureReader::start(&mut feed, Link::Ethernet) {
        Ok(reader) => reader,
        Err(_) => bail!("the file header isn't lawful"),
    };
    let mut taken = Duration::ZERO;
    let mut worked = 0u64;
    for _ in 0..PASS {
        match time_round(rt, rounds, &mut reader)? {
            Some(time) => {
                taken = taken.saturating_add(time);
                worked = worked.wrapping_add(1);
            }
            None => break,
        }
    }
    Ok((taken, worked))
}

// How long the work on the row's packets took, and how many there were.
fn time_row(rt: &HostRuntime, row: &Row, turns: u64) -> Result<(Duration, u64), Error> {
    let bytes = capture_of(rt.alloc(), row, PASS)?;
    let plan = LanePlan {
        queues: 1,
        taps: 0,
        snap: 64,
        choice: Choice::Fold,
        segs: 4096,
        filter: None,
    };
    let mut rounds = Rounds::make(rt.alloc(), BLOCKS, ROUND as u32, plan, false)?;
    let mut taken = Duration::ZERO;
    let mut packets = 0u64;
    for _ in 0..turns.div_ceil(PASS * ROUND as u64) {
        let (time, worked) = time_pass(rt, &mut rounds, bytes.clone()?)?;
        taken = taken.saturating_add(time);
        packets = packets.wrapping_add(worked.wrapping_mul(ROUND as u64));
    }
    Ok((taken, packets))
}

pub fn measure(rt: &HostRuntime, turns: u64) -> Result<(), Error> {
    for row in &ROWS {
        let (taken, packets) = time_row(rt, row, turns)?;
        if packets < turns {
            bail!("a round wasn't worked");
        }
        let all = taken.as_nanos().wrapping_mul(u128::from(turns)) / u128::from(packets.max(1));
        println!(rt; "{}: {all} ns, {packets} packets", row.name)?;
    }
    Ok(())
}
