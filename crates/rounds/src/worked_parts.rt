//! What a round that was worked shows of itself.
ghost use Rattle.std.specs.Prelude.{◌≡◌};

use crate::round_stages::Worked;
use lanes::Lanes;
use taps::TapClone;

impl Worked {
    /// Its lanes, with what they came to.
    pub fn lanes(&self) -> &Lanes
        ensures lanes { result.now ≡ self.now.lanes }
    {
        &self.lanes
    }

    /// The clones that were kept of its packets, in their order.
    pub fn clones(&self) -> &[TapClone]
        ensures clones { result.now ≡ self.now.clones }
    {
        &self.clones
    }
}
