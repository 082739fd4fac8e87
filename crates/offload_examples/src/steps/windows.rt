//! A tap's windows of 64 bytes, of all packets and of those that a filter shows, beside 64 bytes copied as often into
//! one vector.

ghost use Rattle.std.specs.Prelude.{◌≡◌, ◌+◌, ◌≤◌, [], IfSome};
ghost use Rattle.taps.specs.Clones.{blocks_of};

use crate::steps::buffers::{empty, places};
use anyhow::{Error, bail};
use frags::{Outcomes, Pieces};
use off_io::NoGate;
use raw_block::Sole;
use skb::Skb;
use std::alloc::{AllocError, Global};
use std::time::{Duration, Instant};
use tap_filter::Program;
use taps::{TapClone, TapResult, TapTask};

const PACKETS: usize = 64;

const WINDOW: usize = 64;

// A segment from port 40000 to port 80: Ethernet, IPv4 and TCP, whose payload is 46 zeros.
const HEADERS: [u8; 54] = [
    0x02, 0x00, 0x00, 0x00, 0x00, 0x02, 0x02, 0x00, 0x00, 0x00, 0x00, 0x01, 0x08, 0x00, 0x45, 0x00,
    0x00, 0x56, 0x00, 0x64, 0x40, 0x00, 0x40, 0x06, 0x26, 0x3c, 0x0a, 0x00, 0x00, 0x01, 0x0a, 0x00,
    0x00, 0x02, 0x9c, 0x40, 0x00, 0x50, 0x00, 0x00, 0x03, 0xe8, 0x00, 0x00, 0x00, 0x01, 0x50, 0x10,
    0x01, 0x00, 0xfa, 0x2a, 0x00, 0x00,
];

// What `tcpdump -y EN10MB -ddd 'tcp port 80' | paste -sd,` prints.
const TCP_PORT_80: &str = "20,40 0 0 12,21 0 6 34525,48 0 0 20,21 0 15 6,40 0 0 54,21 12 0 80,\
    40 0 0 56,21 10 11 80,21 0 10 2048,48 0 0 23,21 0 8 6,40 0 0 20,69 6 0 8191,177 0 0 14,\
    72 0 0 14,21 2 0 80,72 0 0 16,21 0 1 80,6 0 0 262144,6 0 0 0";

// The same of port 81, which leaves these packets out.
const TCP_PORT_81: &str = "20,40 0 0 12,21 0 6 34525,48 0 0 20,21 0 15 6,40 0 0 54,21 12 0 81,\
    40 0 0 56,21 10 11 81,21 0 10 2048,48 0 0 23,21 0 8 6,40 0 0 20,69 6 0 8191,177 0 0 14,\
    72 0 0 14,21 2 0 81,72 0 0 16,21 0 1 81,6 0 0 262144,6 0 0 0";

// A clone of a packet of 100 bytes. The packet itself is given back.
fn tap_clone(alloc: Global, out: &mut Outcomes) -> Option<TapClone>
    requires room { 1 ≤ out.old.spare }
    ensures bare { IfSome result (λ clone. clone.skb.rest ≡ []) }
    ensures places { out.old.spare ≤ out.new.spare + 1 }
{
    let mut block = Sole::new(alloc).ok()?;
    block.range_mut(64, 118).copy_from_slice(&HEADERS);
    let mut packet = Skb::new(block, 64, 164, Pieces::new(alloc));
    let clone = packet.clone();
    packet.release(out);
    let skb = clone.ok()?;
    Some(TapClone {
        skb,
        sec: 0,
        frac: 0,
        original: 100,
        number: 0,
    })
}

// A task over up to 64 packets, as many as there is memory for.
fn task_over<'a>(
    clones: Vec<TapClone>,
    alloc: Global,
    filter: Option<&'a Program>,
    outcomes: Outcomes,
) -> TapTask<'a>
    requires room { (128 ≤ outcomes.spare) × (clones.items ≡ []) }
    ensures room { blocks_of result.clones.items ≤ result.outcomes.spare }
{
    let mut task = TapTask {
        tap: 0,
        snap: WINDOW as u32,
        filter,
        clones,
        outcomes,
    };
    for turn in 0..PACKETS {
        if task.clones.len() < task.clones.capacity() {
            if let Some(clone) = tap_clone(alloc, &mut task.outcomes) {
                task.clones.push_reserved(clone);
            }
        }
    }
    task
}

// The windows that were read, and how long that took.
fn time_task(
    rt: &HostRuntime,
    task: TapTask<'_>,
) -> (Result<usize, AllocError>, Result<Duration, Error>)
    requires room { blocks_of task.clones.items ≤ task.outcomes.spare }
{
    let start = Instant::now(rt);
    let TapResult {
        texts,
        mut outcomes,
    } = task.run(&NoGate);
    let taken = match start {
        Ok(start) => start.elapsed(rt).map_err(Error::from),
        Err(error) => Err(Error::from(error)),
    };
    empty(&mut outcomes);
    outcomes.settle();
    (texts.map(|texts| texts.len()), taken)
}

fn time_round(rt: &HostRuntime, filter: Option<&Program>, shown: usize) -> Result<Duration, Error> {
    let outcomes = places(rt.alloc(), 2 * PACKETS)?;
    let (windows, taken) = match Vec::with_capacity(rt.alloc(), PACKETS) {
        Ok(clones) => time_task(rt, task_over(clones, rt.alloc(), filter, outcomes)),
        Err(error) => {
            outcomes.settle();
            return Err(Error::from(error));
        }
    };
    if windows? != shown {
        bail!("a window wasn't read, or one too many");
    }
    taken
}

// Rounds of packets, each of which has so many windows.
fn time_windows(
    rt: &HostRuntime,
    filter: Option<&Program>,
    shown: usize,
    turns: u64,
) -> Result<Duration, Error> {
    let mut taken = Duration::ZERO;
    for _ in 0..turns.div_ceil(PACKETS as u64) {
        taken = taken.saturating_add(time_round(rt, filter, shown)?);
    }
    Ok(taken)
}

// As many bytes, from blocks of the size of a packet's, into one vector.
fn time_copies(rt: &HostRuntime, turns: u64) -> Result<Duration, Error> {
    let mut blocks = Vec::with_capacity(rt.alloc(), PACKETS)?;
    for _ in 0..PACKETS {
        blocks.push(vec![in rt.alloc(); 1u8; 2048]?)?;
    }
    let mut taken = Duration::ZERO;
    for _ in 0..turns.div_ceil(PACKETS as u64) {
        let start = Instant::now(rt)?;
        let mut bytes = Vec::with_capacity(rt.alloc(), PACKETS * WINDOW)?;
        for block in &blocks {
            if let Some(window) = block.get(64..64 + WINDOW) {
                bytes.extend_from_slice(window)?;
            }
        }
        taken = taken.saturating_add(start.elapsed(rt)?);
        if bytes.len() != PACKETS * WINDOW {
            bail!("a window wasn't copied");
        }
    }
    Ok(taken)
}

// By the filter of a text.
fn time_filtered(
    rt: &HostRuntime,
    text: &str,
    shown: usize,
    turns: u64,
) -> Result<Duration, Error> {
    match Program::of_text(rt.alloc(), text) {
        Ok(filter) => time_windows(rt, Some(&filter), shown, turns),
        Err(_) => bail!("the filter isn't read"),
    }
}

pub fn measure(rt: &HostRuntime, turns: u64) -> Result<(), Error> {
    let taken = time_windows(rt, None, PACKETS, turns)?;
    println!(rt; "window of 64 bytes: {} ns", taken.as_nanos())?;
    let taken = time_filtered(rt, TCP_PORT_80, PACKETS, turns)?;
    println!(rt;
        "the same by the filter `tcp port 80`: {} ns",
        taken.as_nanos()
    )?;
    let taken = time_filtered(rt, TCP_PORT_81, 0, turns)?;
    println!(rt;
        "left out by the filter `tcp port 81`: {} ns",
        taken.as_nanos()
    )?;
    let taken = time_copies(rt, turns)?;
    println!(rt; "64 bytes copied: {} ns", taken.as_nanos())?;
    Ok(())
}
