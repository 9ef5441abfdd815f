//! Tokens that tell where they came from. No run is made of them: contracts alone name them.

use c104_token::Token;

/// Where a token of a packet came from.
pub struct Source {
    /// The terminal that sent the packet.
    pub terminal: usize,
    /// The packet's number among those that the terminal sent, from 0.
    pub number: usize,
    /// The token's place in the packet, from 0 over the bytes and then the terminator.
    pub place: usize,
}

/// A token, and where it came from. A token of a random header came from nowhere.
pub struct Traced {
    /// The token itself.
    pub token: Token,
    /// Where it came from, if a terminal sent it.
    pub source: Option<Source>,
}
