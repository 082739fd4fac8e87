//! What becomes of the spares of rounds that are worked beside a reader.
ghost use Rattle.std.specs.Prelude.{◌≡◌, ◌+◌, ◌-◌, ◌≤◌, ◌^◌, min};

/// Counts of rounds that were worked while a reader could take their blocks, each up to `2^64 - 1`, where it stays.
#[derive(Clone, Copy, Debug, PartialEq, Eq)]
pub struct Spares {
    /// The spares that these rounds had.
    pub lent: u64,
    /// The blocks that went back while their round was worked.
    pub given: u64,
    /// The puts that found no place for blocks that were to go back.
    pub refused: u64,
}

impl Spares {
    pub(crate) const fn none() -> Spares
        ensures none { result ≡ record { lent = 0; given = 0; refused = 0 } }
    {
        Spares {
            lent: 0,
            given: 0,
            refused: 0,
        }
    }

    /// One more round was worked so: it had `lent` spares, and `given` of its blocks went back meanwhile.
    pub fn count(&mut self, lent: u64, given: u64)
        ensures counted { self.new ≡ record {
          lent = min (self.old.lent + lent) (2 ^ 64 - 1);
          given = min (self.old.given + given) (2 ^ 64 - 1);
          refused = self.old.refused;
        } }
        ensures later { self.old.lent ≤ self.new.lent }
    {
        self.lent = self.lent.saturating_add(lent);
        self.given = self.given.saturating_add(given);
    }

    /// So many puts more found no place.
    pub fn refuse(&mut self, puts: u64)
        ensures counted { self.new ≡ record self.old { refused = min (self.old.refused + puts) (2 ^ 64 - 1) } }
        ensures later { self.old.refused ≤ self.new.refused }
    {
        self.refused = self.refused.saturating_add(puts);
    }
}
