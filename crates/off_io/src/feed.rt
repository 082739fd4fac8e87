//! A source in a place of its own.

use crate::{Failed, Source};

/// A source behind a name of its own, which a reader borrows whole. A call that may be refused over a lent `Feed` can
/// say what the source ends as in either case.
#[derive(Drop)]
pub struct Feed<T> {
    pub inner: T,
}

impl<T: Source> Source for Feed<T> {
    ghost left = { λ s. T.left s.inner };

    ghost faults = { λ s. T.faults s.inner };

    fn read(&mut self, into: &mut [u8]) -> Result<usize, Failed> {
        self.inner.read(into)
    }
}
