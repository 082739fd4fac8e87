//! How a capture is merged.
ghost use Rattle.std.specs.Prelude.{◌≡◌, ◌≤◌, ◌<◌, ◌↔◌, true, ℕ, [], length, slice_index, MatchOption, MatchResult};
ghost use Rattle.std.specs.Prelude.{IfOk, IfErr};
ghost use Rattle.frame_layout.specs.Choice.{IsTable, IsChoice};
ghost use Rattle.lanes.specs.Work.{IsPlan};
ghost use Rattle.offload_c.specs.Options.{AreInRange, IsHash, IsTableOrNone, IsFilter, AreLawful, table_by, choice_by};
ghost use Rattle.offload_c.specs.Options.{filter_by, plan_of, WhyRefused, WhyNoFilter};

use arrayvec::ArrayVec;
use frame_layout::{Choice, HashKey, even_table};
use lanes::{LanePlan, SharedProgram};
use std::alloc::Global;
use std::mem::size_of;
use tap_filter::{FilterFault, Program};

/// How a capture is merged: in rounds of `budget` records (1 to 4096), over `blocks` blocks of 2048 bytes (1 to 65536)
/// and `queues` queues (1 to 64), into runs of at most `segs` packets (1 to 4096), where each of `taps` taps (0 to 8)
/// reads a window of `snap` bytes (1 to 2048) of what a filter shows of every frame.
#[repr(C)]
#[derive(Clone, Copy)]
pub struct MergeOptions<'a> {
    /// The bytes of this struct, which tell a header of another version.
    pub size: usize,
    pub budget: u32,
    pub blocks: u32,
    pub queues: u32,
    pub taps: u32,
    pub snap: u32,
    pub segs: u32,
    /// The text of a filter, or none: then taps are shown all of a frame.
    pub filter: &'a [u8],
    /// The 40 bytes of a hash key, or none: then the fold of its key tells a flow's queue.
    pub rss_key: &'a [u8],
    /// The queues of hashes, 1 to 128, or none: then the queues stand in turn. None where there is no hash key.
    pub rss_table: &'a [u8],
}

/// Why options aren't taken.
#[derive(Clone, Copy)]
pub enum Refused {
    Usage,
    NoMemory,
}

// Whether a number lies in a range, both ends included.
fn is_within(number: u32, least: u32, most: u32) -> bool
    ensures within { result ≡ true ↔ ((least ≤ number) × (number ≤ most)) }
{
    least <= number && number <= most
}

// Whether each entry is the number of a queue.
fn are_queues(table: &[u8], queues: u32) -> bool
    ensures below { result ≡ true ↔ ((i : ℕ) → i < length table.now → slice_index table.now i < queues) }
{
    table.iter().all(|queue| u32::from(*queue) < queues)
}

/// The table, or where it has no entry the one in which the queues stand in turn.
pub fn table_of(table: &[u8], queues: u32) -> Option<ArrayVec<u8, 128>>
    requires some { 1 ≤ queues }
    requires few { queues ≤ 64 }
    ensures table { MatchOption result (IsTableOrNone queues table.now → ⊥)
        (λ entries. entries.items ≡ table_by queues table.now) }
    ensures lawful { MatchOption result (Unit {0}) (λ entries. IsTable queues entries.items
        × IsTableOrNone queues table.now) }
{
    if table.is_empty() {
        return Some(even_table(queues));
    }
    if table.len() > 128 || !are_queues(table, queues) {
        return None;
    }
    let mut entries = ArrayVec::new();
    let _full = entries.try_extend_from_slice(table).is_err();
    Some(entries)
}

// The hash of 40 bytes.
fn hash_key(key: &[u8]) -> HashKey
    requires long { length key.now ≡ 40 }
    ensures key { result ≡ key.now }
{
    let mut bytes = [0u8; 40];
    bytes.copy_from_slice(key);
    HashKey::of(&bytes)
}

// What taps are shown.
fn filter_of(alloc: Global, text: &[u8]) -> Result<Option<SharedProgram>, Refused>
    ensures filter { MatchResult result (λ filter. (filter ≡ filter_by text.now) × IsFilter text.now)
        (WhyNoFilter text.now) }
{
    if text.is_empty() {
        return Ok(None);
    }
    let Ok(text) = str::from_utf8(text) else {
        return Err(Refused::Usage);
    };
    match Program::of_text(alloc, text) {
        Ok(program) => match SharedProgram::new(alloc, program) {
            Ok(program) => Ok(Some(program)),
            Err(_) => Err(Refused::NoMemory),
        },
        Err(FilterFault::NoMemory) => Err(Refused::NoMemory),
        Err(_) => Err(Refused::Usage),
    }
}

impl MergeOptions<'_> {
    // Whether each number is in its range.
    fn are_in_range(&self) -> bool
        ensures range { result ≡ true ↔ AreInRange self.now }
    {
        let has_rounds = is_within(self.budget, 1, 4096) && is_within(self.blocks, 1, 65536);
        let has_lanes = is_within(self.queues, 1, 64) && self.taps <= 8;
        let has_lengths = is_within(self.snap, 1, 2048) && is_within(self.segs, 1, 4096);
        self.size == size_of::<MergeOptions<'_>>() && has_rounds && has_lanes && has_lengths
    }

    // How flows go to queues.
    fn choice(&self) -> Option<Choice>
        requires some { 1 ≤ self.now.queues }
        requires few { self.now.queues ≤ 64 }
        ensures choice { MatchOption result (IsHash self.now.queues self.now.rss_key.now self.now.rss_table.now → ⊥)
            (λ choice. choice ≡ choice_by self.now.queues self.now.rss_key.now self.now.rss_table.now) }
        ensures lawful { MatchOption result (Unit {0}) (λ choice. IsChoice self.now.queues choice
            × IsHash self.now.queues self.now.rss_key.now self.now.rss_table.now) }
    {
        if self.rss_key.is_empty() {
            return if self.rss_table.is_empty() {
                Some(Choice::Fold)
            } else {
                None
            };
        }
        if self.rss_key.len() != 40 {
            return None;
        }
        match table_of(self.rss_table, self.queues) {
            Some(table) => Some(Choice::Toeplitz {
                key: hash_key(self.rss_key),
                table,
            }),
            None => None,
        }
    }

    /// The plan that these options say.
    ///
    /// # Errors
    ///
    /// `Usage` where they aren't lawful. `NoMemory` where memory runs out while the filter is read.
    pub fn plan(&self, alloc: Global) -> Result<LanePlan, Refused>
        ensures plan { IfOk result (λ plan. plan ≡ plan_of self.now) }
        ensures lawful { IfOk result (λ plan. IsPlan plan × AreLawful self.now) }
        ensures refused { IfErr result (WhyRefused self.now) }
    {
        if !self.are_in_range() {
            return Err(Refused::Usage);
        }
        let Some(choice) = self.choice() else {
            return Err(Refused::Usage);
        };
        match filter_of(alloc, self.filter) {
            Ok(filter) => Ok(LanePlan {
                queues: self.queues,
                taps: self.taps,
                snap: self.snap,
                choice,
                segs: self.segs,
                filter,
            }),
            Err(fault) => Err(fault),
        }
    }
}
