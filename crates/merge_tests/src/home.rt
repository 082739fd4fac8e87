//! What comes home of the buffers of a test.

use frags::Outcomes;

/// The blocks that came home.
pub fn home_of(mut out: Outcomes) -> usize {
    let mut blocks = 0usize;
    while let Some(_) = out.pop_sole() {
        blocks = blocks.wrapping_add(1);
    }
    out.settle();
    blocks
}
