//! Which rounds have short frames.
ghost use Rattle.std.specs.Prelude.{◌≤◌};

use crate::plans::plain;
use crate::rounds_in_turn::captures::{feed_of, reader_of};
use pcap_io::Link;
use rounds::{RoundRead, Rounds};
use std::alloc::{AllocError, Global};
use std::process::Abort;
use worked_captures::FILE_HEADER;

static ZEROS: [u8; 1024] = [0; 1024];

// A capture of so many records, each a frame of zeros of this length.
fn capture_of(alloc: Global, records: u32, len: u32) -> Result<Vec<u8>, AllocError>
    requires short { len ≤ 1024 }
{
    let [a, b, c, d] = len.to_le_bytes();
    let mut capture = FILE_HEADER.to_vec(alloc)?;
    for _ in 0..records {
        capture.extend_from_slice(&[0, 0, 0, 0, 0, 0, 0, 0, a, b, c, d, a, b, c, d])?;
        capture.extend_from_slice(&ZEROS[..len as usize])?;
    }
    Ok(capture)
}

// Whether the frames of a round of such records are short.
fn are_short(rt: &impl Abort, alloc: Global, records: u32, len: u32) -> bool
    requires short { len ≤ 1024 }
{
    let capture = capture_of(alloc, records, len).expect(rt, "no memory");
    let mut feed = feed_of(rt, alloc, &capture, 4096, &[]);
    let mut reader = reader_of(rt, &mut feed, Link::Ethernet);
    let mut rounds = Rounds::make(alloc, 96, 32, plain(1, 0, 1), false).expect(rt, "no memory");
    let RoundRead { round, end: _ } = rounds.read_round(&mut reader);
    let short = round.has_short_frames();
    rounds.drop_round(round);
    short
}

#[test]
fn short_frames_are_told_by_their_mean(rt: HostRuntime) {
    let alloc = rt.alloc();
    let short = [
        are_short(&rt, alloc, 16, 0),
        are_short(&rt, alloc, 16, 1023),
        are_short(&rt, alloc, 32, 1023),
        are_short(&rt, alloc, 16, 1024),
        are_short(&rt, alloc, 15, 60),
        are_short(&rt, alloc, 0, 0),
    ];
    assert_eq!(rt; short, [true, true, true, false, false, false]);
}
