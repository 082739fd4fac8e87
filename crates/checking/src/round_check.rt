//! A round that was worked, compared with the packets that went in.
ghost use Rattle.std.specs.Prelude.{◌≡◌, ℕ, List, IfOk};
ghost use Rattle.pcap_io.specs.Capture.{Packet};
ghost use Rattle.lanes.specs.Work.{IsPlan, options_by};
ghost use Rattle.rounds.specs.Benches.{options_at};
ghost use Rattle.rounds.specs.Lanes.{IsKeptWorkOf};
ghost use Rattle.rounds.specs.Merging.{options_of};
ghost use Rattle.checking.specs.Compared.{compared_work, MayCompareWork};
ghost use Rattle.check_totals.specs.Counts.{round_totals};

use check_totals::Totals;
use comparing::check_lanes;
use lanes::LanePlan;
use rounds::{Bench, Rounds, Worked};
use std::alloc::AllocError;

// Of those who work it wants the plan alone.
fn check_worked(plan: &LanePlan, worked: &Worked) -> Result<Totals, AllocError>
    requires plan { IsPlan plan.now }
    requires worked { MayCompareWork worked.now }
    ensures compared { IfOk result (λ totals. totals ≡ compared_work worked.now) }
    ensures totals { (budget : ℕ) (ps : List Packet) → IsKeptWorkOf (options_by plan.now budget) ps worked.now
        → IfOk result (λ totals. totals ≡ round_totals (options_by plan.now budget) ps) }
{
    let lanes = worked.lanes();
    check_lanes(*lanes.queues.allocator(), lanes, worked.clones())
}

// As `check_round`, of the side that works.
pub(crate) fn check_bench(bench: &Bench, worked: &Worked) -> Result<Totals, AllocError>
    requires worked { MayCompareWork worked.now }
    ensures compared { IfOk result (λ totals. totals ≡ compared_work worked.now) }
    ensures totals { (ps : List Packet) → IsKeptWorkOf (options_at bench.now) ps worked.now
        → IfOk result (λ totals. totals ≡ round_totals (options_at bench.now) ps) }
{
    check_worked(bench.plan(), worked)
}

/// Compares what a round came to with the clones that were kept of its packets: each segment of a run, where it lies,
/// is compared with the packet of its flow at that place, byte for byte and in original length. What is counted, queue
/// by queue and tap by tap; or the want of memory for that. It is what comparing gives whatever the lanes hold, and the
/// round's totals where they hold what it comes to.
pub fn check_round(rounds: &Rounds, worked: &Worked) -> Result<Totals, AllocError>
    requires worked { MayCompareWork worked.now }
    ensures compared { IfOk result (λ totals. totals ≡ compared_work worked.now) }
    ensures totals { (ps : List Packet) → IsKeptWorkOf (options_of rounds.now) ps worked.now
        → IfOk result (λ totals. totals ≡ round_totals (options_of rounds.now) ps) }
{
    check_worked(rounds.plan(), worked)
}
