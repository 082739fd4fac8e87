//! Counts the rounds of a capture, each once it was compared with its packets.
ghost use Rattle.std.specs.Prelude.{◌≡◌, List, length, map, true, IfOk, OnOk};
ghost use Rattle.pcap_io.specs.Capture.{Packet};
ghost use Rattle.gro.specs.Slots.{packet_of};
ghost use Rattle.checking.specs.Compared.{compared_work, MayCompareWork};
ghost use Rattle.check_totals.specs.Counts.{added, round_totals};
ghost use Rattle.rounds.specs.Benches.{options_at, Brings, GivesSpares, MayBring};
ghost use Rattle.rounds.specs.Lanes.{IsKeptWorkOf};
ghost use Rattle.rounds.specs.Weights.{weights_worked};
ghost use Rattle.checking.specs.Handling.{CountsLast, IsCounted, MayCount};

use crate::round_check::check_bench;
use block_pool::{Giver, Pool};
use check_totals::Totals;
use lanes::Works;
use pcap_io::CapFault;
use rounds::{Bench, Round, RoundEnd, RoundHandler, RoundRead, Worked};
use std::alloc::AllocError;

/// How checking ended.
#[derive(Clone, Copy, Debug, PartialEq, Eq)]
pub enum CheckEnd {
    /// The capture was read to its end, and all of it was counted.
    Done,
    /// The capture is refused; the records before were counted.
    Malformed(CapFault),
    /// A round, counted from 0, needs this many blocks, and there are fewer; the rounds before were counted.
    PoolEmpty { round: u64, need: u32 },
    /// The source failed; the whole records before were counted.
    ReadFault,
    /// There was no memory; the totals say nothing.
    NoMemory,
}

// Compares what a round came to with its packets, and ends it.
fn compare_round(bench: &mut Bench, home: &mut Pool, worked: Worked) -> Result<Totals, AllocError>
    requires may { MayBring worked.blocks bench.old home.old }
    requires worked { MayCompareWork worked }
    ensures compared { IfOk result (λ t. t ≡ compared_work worked) }
    ensures totals { (ps : List Packet) → IsKeptWorkOf (options_at bench.old) ps worked
        → IfOk result (λ t. t ≡ round_totals (options_at bench.old) ps) }
    ensures brings { Brings worked.blocks (weights_worked worked) bench.old bench.new home.old home.new }
{
    let totals = check_bench(bench, &worked);
    bench.end_round(worked, home);
    totals
}

// Works a round, compares it with its packets and ends it; what it counts is added. For want of memory its blocks are
// home all the same, but spares that went to others.
fn count_round<W: Works>(
    works: &mut W,
    bench: &mut Bench,
    home: &mut Pool,
    giver: &mut Option<Giver>,
    round: Round,
    totals: &mut Totals,
) -> Result<(), AllocError>
    requires may { MayCount round bench.old home.old giver.old totals.old }
    ensures ok { OnOk result (totals.new ≡ added totals.old
        (round_totals (options_at bench.old) (map packet_of round.packets))) }
    ensures home { IsCounted round bench.old bench.new home.old home.new giver.old giver.new totals.old totals.new }
    ensures gives_spares { W.gives ≡ true → OnOk result (GivesSpares (length round.spares) giver.old giver.new) }
{
    let worked = bench.work_round(works, round, home, giver)?;
    let counted = compare_round(bench, home, worked)?;
    totals.add(&counted);
    Ok(())
}

// The last round, behind which checking ends so.
fn last_round<W: Works>(
    works: &mut W,
    bench: &mut Bench,
    home: &mut Pool,
    giver: &mut Option<Giver>,
    round: Round,
    totals: &mut Totals,
    end: CheckEnd,
) -> CheckEnd
    requires may { MayCount round bench.old home.old giver.old totals.old }
    ensures counts { CountsLast totals.old totals.new (round_totals (options_at bench.old)
        (map packet_of round.packets)) end result }
    ensures home { IsCounted round bench.old bench.new home.old home.new giver.old giver.new totals.old totals.new }
{
    match count_round(works, bench, home, giver, round, totals) {
        Ok(()) => end,
        Err(_) => CheckEnd::NoMemory,
    }
}

/// Checks the rounds of a capture: each is worked, compared with its packets and ended, and what it counts is added to
/// totals. Behind a full round more may follow; any other ends checking, as `CheckEnd` says, and one that exceeds the
/// blocks isn't counted.
#[derive(Drop)]
pub struct Counting;

impl RoundHandler<Totals, CheckEnd> for Counting {
    ghost use Rattle.std.specs.Prelude.{◌≡◌, true, map};
    ghost use Rattle.gro.specs.Slots.{packet_of};
    ghost use Rattle.check_totals.specs.Counts.{round_totals, HasLanes};
    ghost use Rattle.checking.specs.Handling.{AreOf, CountsRound};
    ghost use Rattle.checking.specs.declared.counting.CheckEnd.TheVariants.{NoMemory};

    ghost ready = { λ options keep n totals. (keep ≡ true) × HasLanes options totals × AreOf n totals };

    ghost did = { λ counting options old new read k end. CountsRound old new
        (round_totals options (map packet_of read.round.packets)) k read.end end };

    ghost stopped = { NoMemory };

    fn handle<W: Works>(
        &self,
        works: &mut W,
        bench: &mut Bench,
        home: &mut Pool,
        giver: &mut Option<Giver>,
        read: RoundRead,
        number: u64,
        into: &mut Totals,
    ) -> Option<CheckEnd> {
        let RoundRead { round, end } = read;
        match end {
            RoundEnd::Full => match count_round(works, bench, home, giver, round, into) {
                Ok(()) => None,
                Err(_) => Some(CheckEnd::NoMemory),
            },
            RoundEnd::End => {
                let end = CheckEnd::Done;
                Some(last_round(works, bench, home, giver, round, into, end))
            }
            RoundEnd::Malformed(fault) => {
                let end = CheckEnd::Malformed(fault);
                Some(last_round(works, bench, home, giver, round, into, end))
            }
            RoundEnd::ReadFault => {
                let end = CheckEnd::ReadFault;
                Some(last_round(works, bench, home, giver, round, into, end))
            }
            RoundEnd::PoolEmpty { need } => {
                bench.drop_round(round, home);
                Some(CheckEnd::PoolEmpty {
                    round: number,
                    need,
                })
            }
            RoundEnd::NoMemory | RoundEnd::GivenUp => {
                bench.drop_round(round, home);
                Some(CheckEnd::NoMemory)
            }
        }
    }

    fn stop(&self) -> CheckEnd {
        CheckEnd::NoMemory
    }
}
