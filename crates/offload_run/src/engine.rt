//! What a command reads its records into.
ghost use Rattle.std.specs.Prelude.{◌≡◌};
ghost use Rattle.offload_run.specs.Engines.{merging, segmenting};

use rounds::Rounds;
use segmenting::SegmentRun;

/// The blocks of a command that read a capture, and what it tells of them: how many there are, how many are home, and
/// how many were taken. Dropping it frees them.
#[derive(Drop)]
pub enum Engine {
    /// Of `merge`, and of `check`.
    Merge(Rounds),
    /// Of `segment`.
    Segment(SegmentRun),
}

impl Engine {
    // Of the rounds that a command left, if it left some.
    pub(crate) fn merging(rounds: Option<Rounds>) -> Option<Engine>
        ensures engine { result ≡ merging rounds }
    {
        match rounds {
            Some(rounds) => Some(Engine::Merge(rounds)),
            None => None,
        }
    }

    // Of the blocks that segmenting left, if it left some.
    pub(crate) fn segmenting(run: Option<SegmentRun>) -> Option<Engine>
        ensures engine { result ≡ segmenting run }
    {
        match run {
            Some(run) => Some(Engine::Segment(run)),
            None => None,
        }
    }
}
