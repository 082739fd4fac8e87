//! Totals of queues and of taps.
ghost use Rattle.std.specs.Prelude.{◌≡◌, ◌^◌, [], length, IfOk};
ghost use Rattle.std.specs.List.{AllByRecursion};
ghost use Rattle.offload_model.specs.Written.{Options};
ghost use Rattle.check_totals.specs.Counts.{added, each_plus, queue_plus, tap_plus, totals_of, HasSameLanes};
ghost use Rattle.check_totals.specs.Counts.{IsQueueWithin, IsTapWithin, IsWithin};

use std::alloc::{AllocError, Global};
use std::marker::Model;

/// What is counted of one queue.
#[derive(Clone, Copy, Debug, PartialEq, Eq)]
pub struct QueueTotals {
    /// The packets of the queue.
    pub records: u64,
    /// What they come to: runs of one flow, and packets that are a run alone.
    pub items: u64,
    /// The items of two packets or more.
    pub merged: u64,
    /// The segments of the items that equal the packets in their places, in bytes and in original length.
    pub returned: u64,
}

/// What is counted of one tap.
#[derive(Clone, Copy, Debug, PartialEq, Eq)]
pub struct TapTotals {
    /// The windows that aren't empty.
    pub windows: u64,
    /// Their bytes, without any header.
    pub bytes: u64,
}

/// What is counted, queue by queue and tap by tap.
#[derive(Debug, Drop)]
pub struct Totals {
    pub queues: Vec<QueueTotals>,
    pub taps: Vec<TapTotals>,
}

impl Model for Totals {
    ghost use Rattle.check_totals.specs.Counts.{Counts};

    ghost Value = { Counts };

    ghost view = { λ t. record { queues = t.queues.items; taps = t.taps.items } };
}

impl QueueTotals {
    /// Both together.
    pub fn plus(&self, other: &QueueTotals) -> QueueTotals
        requires within { IsQueueWithin (2 ^ 62) self.now × IsQueueWithin (2 ^ 62) other.now }
        ensures sum { result ≡ queue_plus self.now other.now }
    {
        QueueTotals {
            records: self.records + other.records,
            items: self.items + other.items,
            merged: self.merged + other.merged,
            returned: self.returned + other.returned,
        }
    }
}

impl TapTotals {
    /// Both together.
    pub fn plus(&self, other: &TapTotals) -> TapTotals
        requires within { IsTapWithin (2 ^ 62) self.now × IsTapWithin (2 ^ 62) other.now }
        ensures sum { result ≡ tap_plus self.now other.now }
    {
        TapTotals {
            windows: self.windows + other.windows,
            bytes: self.bytes + other.bytes,
        }
    }
}

// Adds to each element the one beside it.
fn add_queues(totals: &mut [QueueTotals], others: &[QueueTotals])
    requires alike { length totals.old ≡ length others.now }
    requires within { AllByRecursion (IsQueueWithin (2 ^ 62)) totals.old
        × AllByRecursion (IsQueueWithin (2 ^ 62)) others.now }
    ensures added { totals.new ≡ each_plus queue_plus totals.old others.now }
{
    let mut queue = 0;
    'queues: while queue < totals.len() {
        totals[queue] = totals[queue].plus(&others[queue]);
        queue += 1;
    }
}

fn add_taps(totals: &mut [TapTotals], others: &[TapTotals])
    requires alike { length totals.old ≡ length others.now }
    requires within { AllByRecursion (IsTapWithin (2 ^ 62)) totals.old
        × AllByRecursion (IsTapWithin (2 ^ 62)) others.now }
    ensures added { totals.new ≡ each_plus tap_plus totals.old others.now }
{
    let mut tap = 0;
    'taps: while tap < totals.len() {
        totals[tap] = totals[tap].plus(&others[tap]);
        tap += 1;
    }
}

impl Totals {
    /// The totals of no packet, of this many queues and taps.
    pub fn make(alloc: Global, queues: u32, taps: u32) -> Result<Totals, AllocError>
        ensures made { IfOk result (λ totals. (options : Options) → options.queues ≡ queues → options.taps ≡ taps
            → totals ≡ totals_of options []) }
    {
        let queue = QueueTotals {
            records: 0,
            items: 0,
            merged: 0,
            returned: 0,
        };
        let tap = TapTotals {
            windows: 0,
            bytes: 0,
        };
        Ok(Totals {
            queues: vec![in alloc; queue; queues as usize]?,
            taps: vec![in alloc; tap; taps as usize]?,
        })
    }

    /// Adds others, lane by lane.
    pub fn add(&mut self, other: &Totals)
        requires alike { HasSameLanes self.old other.now }
        requires within { IsWithin (2 ^ 62) (2 ^ 62) self.old × IsWithin (2 ^ 62) (2 ^ 62) other.now }
        ensures added { self.new ≡ added self.old other.now }
    {
        add_queues(&mut self.queues, &other.queues);
        add_taps(&mut self.taps, &other.taps);
    }
}
