//! A tap's work in one round.
ghost use Rattle.std.specs.Prelude.{◌≡◌, ◌<◌, ◌≤◌, ◌+◌, [], map, IfOk, option_map, true, false};
ghost use Rattle.frags.specs.Account.{Keeps, KeepsBlocks, both, of_outcomes};
ghost use Rattle.frags.specs.Growth.{Grows};
ghost use Rattle.offload_model.specs.Written.{windows_of};
ghost use Rattle.taps.specs.Clones.{shown_packet, blocks_of, of_clones};
ghost use Rattle.taps.specs.Texts.{texts_of, record_of_text};

use crate::clones::{TapClone, release_all};
use crate::texts::TapTexts;
use frags::Outcomes;
use off_io::{Gate, Who};
use std::alloc::AllocError;
use tap_filter::Program;

/// What one tap is to read of a round. It must be spent: run.
pub struct TapTask<'a> {
    /// The tap's number, from 0. It reads window `tap` of each packet.
    pub tap: u32,
    /// The bytes of a window.
    pub snap: u32,
    /// What is shown of each packet: as many bytes as its value. All where there is none.
    pub filter: Option<&'a Program>,
    /// A clone of each packet, by record number.
    pub clones: Vec<TapClone>,
    /// Takes what the clones leave, in places that were reserved before.
    pub outcomes: Outcomes,
}

/// What a tap has read, and what its clones left.
pub struct TapResult {
    /// The windows that aren't empty, or the want of memory for them.
    pub texts: Result<TapTexts, AllocError>,
    /// The task's own, with what its clones left.
    pub outcomes: Outcomes,
}

impl<'a> TapTask<'a> {
    /// Whether the outcomes have room for all that the clones leave, as `run` wants it.
    pub fn has_room(&self) -> bool
        ensures room { result ≡ true → blocks_of self.now.clones.items ≤ self.now.outcomes.spare }
        ensures short { result ≡ false → self.now.outcomes.spare < blocks_of self.now.clones.items }
    {
        has_room(self.outcomes.spare(), &self.clones)
    }

    /// Reads window `tap` of each clone: its bytes from `tap * snap` on, at most `snap`. Empty windows are left out.
    ///
    /// The gate is passed at point 0 before the work and at point 1 after it. Each clone is given back, also where
    /// memory runs out; nothing is claimed, and nothing waits.
    pub fn run<G: Gate>(self, gate: &G) -> TapResult
        requires room { blocks_of self.clones.items ≤ self.outcomes.spare }
        ensures texts { IfOk result.texts (λ texts. texts
            ≡ texts_of self.entry.snap self.entry.tap (map
            (shown_packet (option_map (λ p. p.now) self.entry.filter)) self.entry.clones.items)) }
        ensures windows { IfOk result.texts (λ texts. map (record_of_text self.entry.tap) texts
            ≡ windows_of self.entry.snap self.entry.tap
            (map (shown_packet (option_map (λ p. p.now) self.entry.filter)) self.entry.clones.items)) }
        ensures kept { Keeps (both (of_clones self.entry.clones.items) (of_outcomes self.entry.outcomes))
            (of_outcomes result.outcomes) }
        ensures blocks { KeepsBlocks (both (of_clones self.entry.clones.items) (of_outcomes self.entry.outcomes))
            (of_outcomes result.outcomes) }
        ensures grows { Grows (blocks_of self.entry.clones.items) self.entry.outcomes result.outcomes }
        ensures places { self.entry.outcomes.spare ≤ result.outcomes.spare + blocks_of self.entry.clones.items }
    {
        let TapTask {
            tap,
            snap,
            filter,
            mut clones,
            mut outcomes,
        } = self;
        let memory = TapTexts::new(*clones.allocator());
        let texts = read_clones(gate, tap, snap, filter, &mut clones, &mut outcomes, memory);
        clones.destroy_empty();
        TapResult { texts, outcomes }
    }
}

/// What [`TapTask::run`] does, of clones whose list stays, empty, and with windows in the memory of others.
pub fn read_clones<G: Gate>(
    gate: &G,
    tap: u32,
    snap: u32,
    filter: Option<&Program>,
    clones: &mut Vec<TapClone>,
    outcomes: &mut Outcomes,
    memory: TapTexts,
) -> Result<TapTexts, AllocError>
    requires room { blocks_of clones.old.items ≤ outcomes.old.spare }
    ensures texts { IfOk result (λ texts. texts ≡ texts_of snap tap
        (map (shown_packet (option_map (λ p. p.now) filter.entry)) clones.old.items)) }
    ensures windows { IfOk result (λ texts. map (record_of_text tap) texts ≡ windows_of snap tap
        (map (shown_packet (option_map (λ p. p.now) filter.entry)) clones.old.items)) }
    ensures kept { Keeps (both (of_clones clones.old.items) (of_outcomes outcomes.old)) (of_outcomes outcomes.new) }
    ensures blocks { KeepsBlocks (both (of_clones clones.old.items) (of_outcomes outcomes.old))
        (of_outcomes outcomes.new) }
    ensures grows { Grows (blocks_of clones.old.items) outcomes.old outcomes.new }
    ensures places { outcomes.old.spare ≤ outcomes.new.spare + blocks_of clones.old.items }
    ensures none { clones.new.items ≡ [] }
{
    gate.pass(Who::Tap(tap), 0);
    let texts = read_texts(memory, tap, snap, filter, clones);
    release_all(clones, outcomes);
    gate.pass(Who::Tap(tap), 1);
    texts
}

// Whether all blocks of the clones have a place.
fn has_room(places: usize, clones: &[TapClone]) -> bool
    ensures room { result ≡ true → blocks_of clones.now ≤ places }
    ensures short { result ≡ false → places < blocks_of clones.now }
{
    let mut left = places;
    for clone in clones {
        let count = clone.skb.count();
        if left < count {
            return false;
        }
        left -= count;
    }
    true
}

// The bytes of all windows together, at most: as if there were no filter, which is then run once for each packet. A sum
// that is too large stays at the largest number, for which there is no memory.
fn bytes_of_windows(tap: u32, snap: u32, clones: &[TapClone]) -> usize {
    let mut bytes = 0usize;
    for clone in clones {
        let (from, to) = clone.lend().window(tap, snap, None);
        bytes = bytes.saturating_add(to - from);
    }
    bytes
}

// Memory is taken once for all windows, where there isn't enough of it.
fn read_texts(
    memory: TapTexts,
    tap: u32,
    snap: u32,
    filter: Option<&Program>,
    clones: &[TapClone],
) -> Result<TapTexts, AllocError>
    ensures texts { IfOk result (λ texts. texts ≡ texts_of snap tap
        (map (shown_packet (option_map (λ p. p.now) filter.entry)) clones.now)) }
{
    let bytes = bytes_of_windows(tap, snap, clones);
    let mut texts = memory;
    texts.start(clones.len(), bytes)?;
    for clone in clones {
        texts.read(tap, snap, filter, &clone.lend())?;
    }
    Ok(texts)
}
