//! Blocks that come home while records are read.
ghost use Rattle.std.specs.Prelude.{◌≡◌, ℕ, ◌+◌, ◌-◌, ◌^◌, ◌<◌, ◌≤◌, Bool, true, false, min, MatchBool};
ghost use Rattle.block_pool.specs.PoolState.{home, weighed};

use block_pool::Pool;

/// The blocks of the longest record, whose frame has 262,144 bytes, with its spares: none needs more.
pub const RECORD_BLOCKS: usize = 131;

/// Who brings blocks home while records are read.
pub trait Supply {
    /// What the blocks weigh together that it has brought home, each by its name: by weights of 1 how many they are.
    ghost weights: { Self → (ℕ → ℕ) → ℕ };

    /// How often it found none to bring. It stays at `2^64 - 1`.
    ghost refusals: { Self → ℕ };

    /// Whether whoever has them keeps them.
    ghost ended: { Self → Bool };

    /// Whether `need` blocks are home, once those have come that it has or waits for. None is taken.
    fn bring(&mut self, pool: &mut Pool, need: u32) -> bool
        ensures named { (h : ℕ → ℕ) → weighed h pool.new.blocks + weights self.old h
            ≡ weighed h pool.old.blocks + weights self.new h }
        ensures same { (pool.new.made ≡ pool.old.made) × (pool.new.taken ≡ pool.old.taken) }
        ensures enough { result ≡ true → need ≤ home pool.new }
        ensures refused { need ≤ pool.old.made → result ≡ false
            → min (refusals self.old + 1) (2 ^ 64 - 1) ≤ refusals self.new }
        ensures asked { refusals self.old ≤ refusals self.new };

    /// What it has comes home before a round is read, for which none is needed yet. None is taken.
    fn look(&mut self, pool: &mut Pool)
        ensures named { (h : ℕ → ℕ) → weighed h pool.new.blocks + weights self.old h
            ≡ weighed h pool.old.blocks + weights self.new h }
        ensures same { (pool.new.made ≡ pool.old.made) × (pool.new.taken ≡ pool.old.taken) }
        ensures looked { home pool.new ≡ home pool.old → home pool.old < pool.old.made
            → min (refusals self.old + 1) (2 ^ 64 - 1) ≤ refusals self.new }
        ensures asked { refusals self.old ≤ refusals self.new };

    /// Whether whoever has blocks keeps them, so that none comes any more.
    fn has_ended(&self) -> bool
        ensures ended { result ≡ ended self.now };
}

/// For records that are read while no block comes home: it has none, and counts how often one was wanted.
#[derive(Drop)]
pub struct AllHome {
    refused: u64,
}

impl AllHome {
    /// None was wanted yet.
    pub fn new() -> AllHome {
        AllHome { refused: 0 }
    }

    // Whether that is so; if not it is counted.
    fn says(&mut self, enough: bool) -> bool
        ensures same { result ≡ enough }
        ensures refused { result ≡ false → min (self.old.refused + 1) (2 ^ 64 - 1) ≤ self.new.refused }
        ensures asked { self.old.refused ≤ self.new.refused }
    {
        if !enough {
            self.refused = self.refused.saturating_add(1);
        }
        enough
    }
}

impl Supply for AllHome {
    ghost weights = { λ _ _. 0 };

    ghost refusals = { λ a. a.refused };

    ghost ended = { λ _. false };

    fn bring(&mut self, pool: &mut Pool, need: u32) -> bool {
        self.says(need <= pool.home())
    }

    fn look(&mut self, pool: &mut Pool) {
        let _all = self.says(pool.home() >= pool.made());
    }

    fn has_ended(&self) -> bool {
        false
    }
}

/// Whether `need` blocks are home. Where they are nobody is asked, and no is said only where they aren't.
pub fn has_blocks<H: Supply>(pool: &mut Pool, more: &mut H, need: u32) -> bool
    ensures named { (h : ℕ → ℕ) → weighed h pool.new.blocks + H.weights more.old h
        ≡ weighed h pool.old.blocks + H.weights more.new h }
    ensures same { (pool.new.made ≡ pool.old.made) × (pool.new.taken ≡ pool.old.taken) }
    ensures enough { MatchBool result (need ≤ home pool.new) (home pool.new < need) }
    ensures refused { need ≤ pool.old.made → result ≡ false
        → min (H.refusals more.old + 1) (2 ^ 64 - 1) ≤ H.refusals more.new }
    ensures asked { H.refusals more.old ≤ H.refusals more.new }
    ensures unasked { need ≤ home pool.old → (result ≡ true) × (pool.new ≡ pool.old) × (more.new ≡ more.old) }
    ensures within { home pool.new ≤ pool.new.made }
{
    if pool.home() >= need {
        return true;
    }
    let _came = more.bring(pool, need);
    pool.home() >= need
}
