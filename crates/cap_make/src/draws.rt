//! What is drawn for each record, from the seed on.
ghost use Rattle.std.specs.Prelude.{◌≡◌, ◌<◌, ◌≤◌};
ghost use Rattle.cap_make.specs.Draws.{next_state as next_state_of, drawn as drawn_of, draws, payload_len_by};

/// The draws of a record: its flow, its event, the length of its payload, and the state behind them.
#[derive(Clone, Copy, Debug, PartialEq, Eq)]
pub struct RecordDraws {
    /// From 0 to 7.
    pub flow: u8,
    /// From 0 to 15. At 12 the record is short, at 13 PSH is set, at 14 it is empty, at 15 its identification jumps.
    pub event: u8,
    /// In bytes, at most 1,200.
    pub payload_len: u16,
    /// From which the next record is drawn.
    pub state: u64,
}

/// Events of a record; at all others it is full, and follows the one before.
const SHORT: u8 = 12;

/// The event of a full record with PSH set.
pub const PUSHED: u8 = 13;

const EMPTY: u8 = 14;

/// The event of a full record whose identification jumps by 7.
pub const JUMPING: u8 = 15;

const FULL: u16 = 1200;

// The next state of a linear congruential generator.
fn next_state(state: u64) -> u64
    ensures next { result ≡ next_state_of state }
{
    state
        .wrapping_mul(6364136223846793005)
        .wrapping_add(1442695040888963407)
}

// The number below `limit` that a state gives, by its high bits.
fn drawn(state: u64, limit: u64) -> u64
    requires some { 0 < limit }
    ensures number { result ≡ drawn_of state limit }
    ensures below { result < limit }
{
    (state >> 33) % limit
}

// The length of a record's payload, by its event; that of a short one is drawn.
fn payload_len(event: u8, state: u64) -> u16
    ensures len { result ≡ payload_len_by event state }
    ensures short { result ≤ 1200 }
{
    match event {
        SHORT => 1 + drawn(state, 1199) as u16,
        EMPTY => 0,
        _ => FULL,
    }
}

/// The draws of the next record.
#[tactic(auto, unfolding(crate::specs::Draws::draws))]
pub fn draw_record(seed: u64) -> RecordDraws
    ensures draws { result ≡ draws seed }
    ensures flow { result.flow < 8 }
    ensures short { result.payload_len ≤ 1200 }
{
    let first = next_state(seed);
    let second = next_state(first);
    let third = next_state(second);
    let event = drawn(second, 16) as u8;
    RecordDraws {
        flow: drawn(first, 8) as u8,
        event,
        payload_len: payload_len(event, third),
        state: if event == SHORT { third } else { second },
    }
}
