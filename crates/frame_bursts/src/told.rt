//! What a run of a burst comes to, as a caller reads it.
ghost use Rattle.std.specs.Prelude.{◌≡◌, ◌+◌, ◌<◌, ◌≤◌, ◌^◌, ◌∷◌, ◌++◌};
ghost use Rattle.std.specs.Prelude.{ℕ, List, ◌-◌, length, map, drop, take, slice_index_or};
ghost use Rattle.std.specs.List.{AllByRecursion};
ghost use Rattle.pcap_io.specs.Capture.{Packet};
ghost use Rattle.offload_model.specs.Captured.{AreCaptured};
ghost use Rattle.offload_model.specs.Merged.{merged_of};
ghost use Rattle.offload_model.specs.Rounds.{runs_within};
ghost use Rattle.offload_model.specs.declared.limits.Limits.{Limits as LimitsOf};
ghost use Rattle.frame_runs.specs.declared.run.Run.{Run as RunOf};
ghost use Rattle.frame_runs.specs.Engine.{Knows, KnowsSome, AreRuns, IsReady, runs_of};
ghost use Rattle.frame_runs.specs.MergedRun.{headers_size, payloads_behind};
ghost use Rattle.frame_bursts.specs.Burst.{ComesBack, HasRoom, Merges, Says, SaysOn, Told, frames_of};
ghost use Rattle.frame_bursts.specs.Without.{IsWithout};

use crate::link::Link;
use crate::places::places_of;
use frame_runs::{Engine, Frame, Run};
use offload_model::{Limits, runs_come_back};

/// What a run of frames comes to. Its frame, or its packet where these have no Ethernet header, is the first
/// `headers_length` bytes of `headers`, and behind them what stands behind as many bytes of each of its frames, one
/// after the other; of a frame that is alone `headers_length` is 0.
#[repr(C)]
#[derive(Clone, Copy)]
pub struct BurstRun {
    /// The index of its first frame.
    pub first: u32,
    /// How many frames it has.
    pub n: u32,
    /// Bytes of payload of each frame but the last, which has 1 to m; 0 of one frame.
    pub m: u32,
    /// Bytes of the merged frame.
    pub length: u32,
    /// Bytes of its headers, 42 to 200, or 28 to 186 without Ethernet's; 0 of one frame.
    pub headers_length: u32,
    /// The fold of the pseudo header that the TCP or UDP header's sum begins with, not complemented; 0 of one frame.
    pub pseudo: u16,
    /// 1 where frames were merged, 0 of one frame.
    pub kind: u8,
    /// A bit for each IP header, the lowest for the first: set where the identification of an IPv4 header stays.
    pub modes: u8,
    /// Where the last IP header begins, in bytes from the frame's start; 0 of one frame.
    pub ip_at: u8,
    /// Where the TCP or UDP header behind it begins; 0 of one frame.
    pub leaf_at: u8,
    /// 6 of TCP, 17 of UDP; 0 of one frame.
    pub leaf: u8,
    pub headers: [u8; 200],
}

/// Puts the headers of the merged frame into the first bytes, and answers how many these are: none of a frame that is
/// alone.
fn put_headers<F: Frame>(headers: &mut [u8; 200], run: &Run, first: &F) -> u32
    requires slot { F.is_held first.now }
    requires run { KnowsSome run.now (F.packet first.now) }
    ensures frame { (rest : List Packet) → Knows run.now (F.packet first.now) rest
        → take result headers.new ++ payloads_behind result (F.packet first.now ∷ rest)
        ≡ (merged_of (F.packet first.now ∷ rest)).packet.frame }
    ensures size { 1 ≤ run.now.more → result ≡ headers_size run.now }
{
    if run.more == 0 {
        return 0;
    }
    let at = run.headers_len();
    run.put_headers(first, &mut headers[..at]);
    at as u32
}

/// Says what a run comes to, whose first frame is `first`.
fn put_run<F: Frame>(told: &mut BurstRun, run: &Run, first: &F)
    requires slot { F.is_held first.now }
    requires run { KnowsSome run.now (F.packet first.now) }
    ensures says { (rest : List Packet) → Knows run.now (F.packet first.now) rest
        → Says told.new (F.packet first.now ∷ rest) }
    ensures first { told.new.first ≡ run.now.first }
    ensures more { told.new.n ≡ run.now.more + 1 }
    ensures size { 1 ≤ run.now.more → told.new.headers_length ≡ headers_size run.now }
{
    let head = run.head(0, first);
    told.first = run.first;
    told.n = head.n;
    told.m = head.m;
    told.kind = head.kind;
    told.modes = head.modes;
    told.length = run.frame_len(first);
    told.headers_length = put_headers(&mut told.headers, run, first);
    let places = places_of(run, first, &told.headers, told.length);
    told.ip_at = places.ip_at;
    told.leaf_at = places.leaf_at;
    told.leaf = places.leaf;
    told.pseudo = places.pseudo;
}

/// The headers behind the 14 bytes of the Ethernet header, of headers that end there.
fn behind_ethernet(headers: &[u8; 200], end: usize) -> [u8; 200]
    requires front { 14 ≤ end }
    requires inside { end ≤ 200 }
    ensures behind { take (end - 14) result ≡ drop 14 (take end headers.now) }
    ensures enough { 14 ≤ length (take end headers.now) }
{
    let mut behind = *headers;
    behind[..end - 14].copy_from_slice(&headers[14..end]);
    behind
}

/// Takes the 14 bytes of the Ethernet header off what is said of a run.
fn take_ethernet_off(told: &mut BurstRun)
    requires headers { 2 ≤ told.old.n → (14 ≤ told.old.headers_length) × (told.old.headers_length ≤ 200) }
    ensures without { IsWithout told.old told.new }
{
    told.length = told.length.saturating_sub(14);
    told.ip_at = told.ip_at.saturating_sub(14);
    told.leaf_at = told.leaf_at.saturating_sub(14);
    if told.n < 2 {
        told.headers_length = 0;
        return;
    }
    told.headers = behind_ethernet(&told.headers, told.headers_length as usize);
    told.headers_length -= 14;
}

/// Says what a run comes to, without the Ethernet header where its packets have none.
fn put_run_on<F: Frame>(link: Link, told: &mut BurstRun, run: &Run, first: &F)
    requires slot { F.is_held first.now }
    requires run { KnowsSome run.now (F.packet first.now) }
    ensures says { (rest : List Packet) → Knows run.now (F.packet first.now) rest
        → SaysOn link told.new (F.packet first.now ∷ rest) }
    ensures first { told.new.first ≡ run.now.first }
    ensures more { told.new.n ≡ run.now.more + 1 }
{
    put_run(told, run, first);
    match link {
        Link::Ethernet => {}
        Link::RawIp => take_ethernet_off(told),
    }
}

/// Says what all runs of an engine come to.
fn put_runs<F: Frame>(link: Link, engine: &Engine, frames: &[F], runs: &mut [BurstRun])
    requires are { AreRuns (map F.packet frames.now) (length frames.now) engine.now }
    requires held { AllByRecursion F.is_held frames.now }
    requires room { length engine.now.runs.items ≤ length runs.old }
    ensures size { length runs.new ≡ length runs.old }
    ensures told { (i : ℕ) (d : RunOf) (o : BurstRun) → i < length engine.now.runs.items
        → Told link (map F.packet frames.now) engine.now.next.items (slice_index_or engine.now.runs.items i d)
        (slice_index_or runs.new i o) }
{
    for i in 0..engine.runs.len() {
        let run = &engine.runs[i];
        let first = &frames[run.first as usize];
        put_run_on(link, &mut runs[i], run, first);
    }
}

/// Says what frames come to that an engine has merged: its runs, and for each frame the one behind it. How many runs
/// there are.
pub(crate) fn put_merged<F: Frame>(
    link: Link,
    engine: &Engine,
    frames: &[F],
    next: &mut [u32],
    runs: &mut [BurstRun],
) -> usize
    requires are { AreRuns (map F.packet frames.now) (length frames.now) engine.now }
    requires held { AllByRecursion F.is_held frames.now }
    requires captured { AreCaptured (map F.packet frames.now) }
    requires room { HasRoom (length frames.now) (length next.old) (length runs.old) }
    ensures merges { (limits : LimitsOf)
        → runs_of (map F.packet frames.now) engine.now ≡ runs_within limits (map F.packet frames.now)
        → Merges link limits (map F.packet frames.now) next.new (take result runs.new) }
    ensures back { (limits : LimitsOf)
        → runs_of (map F.packet frames.now) engine.now ≡ runs_within limits (map F.packet frames.now)
        → AllByRecursion (λ r. ComesBack (frames_of (map F.packet frames.now) next.new r)) (take result runs.new) }
    ensures sizes { (length next.new ≡ length next.old) × (length runs.new ≡ length runs.old) }
{
    runs_come_back();
    let n = frames.len();
    next[..n].copy_from_slice(&engine.next[..n]);
    put_runs(link, engine, frames, runs);
    engine.runs.len()
}

/// Merges frames by an engine that has no runs, and says what they come to: how many runs there are.
pub(crate) fn merge_frames<F: Frame>(
    link: Link,
    engine: &mut Engine,
    limits: Limits,
    frames: &[F],
    next: &mut [u32],
    runs: &mut [BurstRun],
) -> usize
    requires ready { IsReady engine.old (length frames.now) }
    requires held { AllByRecursion F.is_held frames.now }
    requires captured { AreCaptured (map F.packet frames.now) }
    requires few { length frames.now < 2 ^ 32 }
    requires room { HasRoom (length frames.now) (length next.old) (length runs.old) }
    ensures merges { Merges link limits (map F.packet frames.now) next.new (take result runs.new) }
    ensures back { AllByRecursion (λ r. ComesBack (frames_of (map F.packet frames.now) next.new r))
        (take result runs.new) }
    ensures sizes { (length next.new ≡ length next.old) × (length runs.new ≡ length runs.old) }
{
    engine.merge(frames, limits);
    put_merged(link, engine, frames, next, runs)
}
