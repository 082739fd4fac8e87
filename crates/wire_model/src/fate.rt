//! What becomes of a header's sum.

/// What becomes of a header's sum.
#[derive(Clone, Copy, Debug, PartialEq, Eq)]
pub enum Fate {
    /// It is right as it is, or a datagram goes without one.
    Right,
    /// It gets its right value.
    Filled,
    /// It stays, with a value that isn't right.
    Wrong,
}
