//! Makes one record after the other.
ghost use Rattle.std.specs.Prelude.{◌≡◌, ◌<◌, ◌≤◌, length};
ghost use Rattle.net_bytes.specs.declared.order.Order.TheVariants.{Little};
ghost use Rattle.pcap_io.specs.Split.{spelled};
ghost use Rattle.cap_make.specs.Capture.{first_next, packet_at, packet_of, after, after_by, segment_by};

use crate::draws::{JUMPING, PUSHED, RecordDraws, draw_record};
use crate::frame::push_frame;
use crate::record::RecordBytes;
use crate::segment::Segment;
use net_bytes::Order;
use std::marker::Model;

const FLOWS: usize = 8;

const ACK: u8 = 0x10;

const PUSH_ACK: u8 = 0x18;

/// What is next: the state of the draws, and of each flow the sequence number and the identification.
#[derive(Drop)]
pub struct Maker {
    state: u64,
    /// That of the flow's next segment.
    sequences: [u32; FLOWS],
    /// That of the flow's next segment, where it doesn't jump.
    identifications: [u16; FLOWS],
}

impl Model for Maker {
    ghost use Rattle.cap_make.specs.Capture.{Next};

    ghost Value = { Next };

    ghost view = { λ m. record { state = m.state; sequences = m.sequences; identifications = m.identifications } };
}

impl Maker {
    /// Before the first record of this seed.
    pub fn new(seed: u64) -> Self
        ensures first { result ≡ first_next seed }
    {
        Maker {
            state: seed,
            sequences: [0, 1000, 2000, 3000, 4000, 5000, 6000, 7000],
            identifications: [0; FLOWS],
        }
    }

    #[tactic(auto, unfolding(crate::specs::Capture::segment_by))]
    fn segment(&self, drawn: &RecordDraws) -> Segment
        requires flow { drawn.now.flow < 8 }
        ensures segment { result ≡ segment_by drawn.now self.now }
    {
        let flow = drawn.flow as usize;
        let jump = if drawn.event == JUMPING { 7 } else { 0 };
        let flags = if drawn.event == PUSHED { PUSH_ACK } else { ACK };
        Segment {
            flow: drawn.flow,
            sequence: self.sequences[flow],
            identification: self.identifications[flow].wrapping_add(jump),
            flags,
        }
    }

    fn pass(&mut self, drawn: &RecordDraws, segment: &Segment)
        requires flow { drawn.now.flow < 8 }
        ensures next { self.new ≡ after_by drawn.now segment.now self.old }
    {
        let flow = drawn.flow as usize;
        let payload_len = u32::from(drawn.payload_len);
        self.state = drawn.state;
        self.sequences[flow] = segment.sequence.wrapping_add(payload_len);
        self.identifications[flow] = segment.identification.wrapping_add(1);
    }

    /// Makes the record of this number, and leaves its bytes in `buffer`.
    #[tactic(auto, unfolding(crate::specs::Capture::packet_at, crate::specs::Capture::after))]
    pub fn next_record(&mut self, number: u32, buffer: &mut RecordBytes)
        ensures bytes { buffer.new ≡ spelled Little (packet_at self.old number) }
        ensures next { self.new ≡ after self.old }
    {
        let drawn = draw_record(self.state);
        let segment = self.segment(&drawn);
        let first = u32::from(drawn.flow) + number % 256;
        buffer.start(first, drawn.payload_len as usize);
        push_frame(buffer, &segment);
        push_header(buffer, number);
        self.pass(&drawn, &segment);
    }
}

// Pushes the record's header before its frame.
fn push_header(buffer: &mut RecordBytes, number: u32)
    requires room { length buffer.old ≤ 1304 }
    ensures bytes { buffer.new ≡ spelled Little (packet_of buffer.old number) }
{
    let len = buffer.bytes().len() as u32;
    // Back to front, so that each call's clause is the concatenation so far.
    let mut header = [0u8; 16];
    Order::Little.put32(&mut header[12..], len);
    Order::Little.put32(&mut header[8..], len);
    Order::Little.put32(&mut header[4..], number % 1000 * 1000);
    Order::Little.put32(&mut header, number / 1000);
    buffer.push(&header);
}
