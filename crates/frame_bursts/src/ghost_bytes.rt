//! Bytes that only contracts have.
ghost use Rattle.std.specs.Prelude.{◌≡◌, ℕ, List};

use std::marker::Model;

/// Bytes that contracts speak of, and nothing stores: what somebody lent for a call, and a value speaks of afterwards.
#[derive(Drop)]
pub struct GhostBytes {
    pub ghost bytes: { List ℕ },
}

impl Model for GhostBytes {
    ghost use base.Fml.{ftrue};

    ghost also_owns = { λ s. ftrue };
}

impl GhostBytes {
    /// These bytes.
    pub(crate) fn of(bytes: &[u8]) -> GhostBytes
        ensures same { result.bytes ≡ bytes.now }
    {
        let _ = bytes;
        GhostBytes {}
    }
}

unsafe impl Send for GhostBytes {}
