//! Limits of runs, as C says them.
ghost use Rattle.std.specs.Prelude.{◌≡◌};
ghost use Rattle.burst_c.specs.Bounds.{limits_for};

use offload_model::Limits;

/// At most so many packets, and a merged frame of at most so many bytes; 0 bytes are no bound.
pub(crate) fn limits_of(segs: u32, bytes: u32) -> Limits
    ensures limits { result ≡ limits_for segs bytes }
{
    if bytes == 0 {
        return Limits::up_to(segs);
    }
    Limits { segs, bytes }
}
