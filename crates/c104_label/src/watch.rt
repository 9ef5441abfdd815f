//! Whom the search for the best root tells how far it is.

/// What is told how many switches were tried as the root of labels up and down.
pub trait RootWatch {
    /// Takes the number of switches tried so far, 0 to `count`, of this count.
    fn roots_tried(&mut self, tried: usize, count: usize);
}

/// Nobody is told.
#[derive(Clone, Copy, Debug)]
pub struct Unwatched;

impl RootWatch for Unwatched {
    #[inline]
    fn roots_tried(&mut self, _tried: usize, _count: usize) {}
}
