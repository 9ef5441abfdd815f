//! The origins of received packets.

/// Which packet a received packet was.
#[derive(Clone, Copy, Debug, PartialEq, Eq)]
pub struct Origin {
    /// The terminal that sent it.
    pub terminal: usize,
    /// Its number among those that the terminal sent, from 0.
    pub number: usize,
}
