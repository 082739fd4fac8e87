//! Rounds are read while another thread works those before, and paused where blocks don't come.
ghost use Rattle.std.specs.Prelude.{◌≡◌, ◌⊎◌, ◌+◌, ◌-◌, ◌≤◌, ◌^◌, length, min, false, true, ℕ};
ghost use Rattle.block_pool.specs.PoolState.{weighed};
ghost use Rattle.pcap_io.specs.declared.heads.Link.TheVariants.{Ethernet};
ghost use Rattle.pcap_io.specs.Places.{IsReady};
ghost use Rattle.pcap_io.specs.Readers.{place_of, SameLoan};
ghost use Rattle.rounds.specs.Weights.{weights_of};
ghost use Rattle.rounds.specs.Reads.{reader_at, ReadRound};
ghost use Rattle.rounds.specs.RoundOf.{brought_by, Came};

use crate::intake::Intake;
use crate::round_stages::{Halt, RoundEnd, RoundRead};
use block_supply::{AllHome, Supply};
use off_io::Source;
use pcap_io::CaptureReader;
use std::sync::Wait;

impl Intake {
    // All blocks come home but those of a round that is paused, which is counted, however long that takes: no only
    // where whoever has them keeps them.
    fn bring_rest<R: Wait, H: Supply>(&mut self, rt: &R, blocks: u32, more: &mut H) -> bool
        requires few { blocks ≤ self.old.blocks }
        ensures came { Came (brought_by H.weights H.refusals more.old)
            (brought_by H.weights H.refusals more.new) (length self.old.stock) (length self.new.stock)
            (λ h. weighed h self.old.stock) (λ h. weighed h self.new.stock) }
        ensures same { (self.new.blocks ≡ self.old.blocks) × (self.new.taken ≡ self.old.taken)
            × (self.new.budget ≡ self.old.budget) × (self.new.empties ≡ self.old.empties) }
        ensures paused { self.new.pauses ≡ min (self.old.pauses + 1) (2 ^ 64 - 1) }
        ensures later { self.old.pauses ≤ self.new.pauses }
        ensures all { result ≡ true → length self.new.stock + blocks ≡ self.old.blocks }
        ensures ended { result ≡ false → H.ended more.new ≡ true }
    {
        self.pauses = self.pauses.saturating_add(1);
        let rest = self.blocks() - blocks;
        for _ in rt.forever() {
            if self.home() == rest {
                return true;
            }
            if more.has_ended() {
                return false;
            }
            let _came = more.bring(&mut self.pool, rest);
        }
        unreachable!()
    }

    /// Reads the next round while blocks come home, as `read_round` of the rounds says it. Where a record needs blocks
    /// that aren't home and don't come the round is paused behind the header of that record, and once all blocks but
    /// its own are home it is read to its end. It is given up for want of blocks only where whoever has them keeps them
    /// (`given_up`), and for want of memory it ends between two records alone (`whole`), so a paused one goes on first.
    pub fn read_beside<R: Wait, S: Source, H: Supply>(
        &mut self,
        rt: &R,
        reader: &mut CaptureReader<'_, S>,
        more: &mut H,
    ) -> RoundRead
        requires ready { IsReady (place_of reader.old) }
        requires link { (place_of reader.old).link ≡ Ethernet }
        ensures same_source { SameLoan reader.old reader.new }
        ensures read { ReadRound self.old.blocks self.old.budget (reader_at S.left S.faults reader.old self.old.taken)
            (reader_at S.left S.faults reader.new self.new.taken) result }
        ensures named { (h : ℕ → ℕ) → weighed h self.new.stock + weights_of result.round h + H.weights more.old h
            ≡ weighed h self.old.stock + H.weights more.new h }
        ensures same { (self.new.blocks ≡ self.old.blocks) × (self.new.budget ≡ self.old.budget)
            × (self.new.empties ≡ self.old.empties) }
        ensures paused { (self.new.pauses ≡ self.old.pauses)
            ⊎ ((self.new.pauses ≡ min (self.old.pauses + 1) (2 ^ 64 - 1))
            × (min (H.refusals more.old + 1) (2 ^ 64 - 1) ≤ H.refusals more.new)) }
        ensures later_pauses { self.old.pauses ≤ self.new.pauses }
        ensures asked { H.refusals more.old ≤ H.refusals more.new }
        ensures budget { (1 ≤ self.old.budget) × (self.old.budget ≤ 4096) }
        ensures least { self.old.taken ≤ self.new.taken }
        ensures given_up { result.end ≡ RoundEnd.GivenUp → H.ended more.new ≡ true }
        ensures whole { result.end ≡ RoundEnd.NoMemory → (place_of reader.new).body ≡ 0 }
    {
        let mut round = match self.begin() {
            Ok(round) => round,
            Err(_) => return self.read_none(),
        };
        if let Halt::Ended(end) = self.read(reader, more, &mut round) {
            let round = round.into_round();
            return RoundRead { round, end };
        }
        if !self.bring_rest(rt, round.blocks(), more) {
            let (round, end) = (round.into_round(), RoundEnd::GivenUp);
            return RoundRead { round, end };
        }
        let halt = self.read(reader, &mut AllHome::new(), &mut round);
        let (round, end) = (round.into_round(), halt.end());
        RoundRead { round, end }
    }
}
