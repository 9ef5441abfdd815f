//! Who is told how far a network's rounds are.

/// Who is told of each round as it is done. Nothing is promised of it, and no contract speaks of it.
pub trait Watch {
    /// Takes the number of rounds done so far, 1 to `count`, of this count.
    fn rounds_done(&mut self, done: u32, count: u32);
}

/// Nobody is told.
#[derive(Clone, Copy, Debug)]
pub struct Unwatched;

impl Watch for Unwatched {
    #[inline]
    fn rounds_done(&mut self, _done: u32, _count: u32) {}
}
