//! Lists of bytes: parts put together, and a hash that tells a long output from another.
use std::alloc::Global;
use std::process::Abort;

/// Parts, one behind the other. Where there is no memory the test ends.
pub(crate) fn joined(rt: &impl Abort, alloc: Global, parts: &[&[u8]]) -> Vec<u8> {
    let mut bytes = Vec::new(alloc);
    for part in parts {
        bytes.extend_from_slice(part).expect(rt, "no memory");
    }
    bytes
}

/// A hash of all bytes in turn.
pub(crate) fn hash(bytes: &[u8]) -> u32 {
    let mut hash = 0u32;
    for byte in bytes {
        hash = hash.wrapping_mul(31).wrapping_add(u32::from(*byte));
    }
    hash
}
