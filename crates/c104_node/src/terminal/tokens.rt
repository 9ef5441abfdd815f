//! What a terminal sent, and the tokens that came in.
ghost use Rattle.std.specs.{Option.option_copied, Prelude.{slice_get, ◌≡◌}};

use super::TerminalOf;
use c104_token::{Packet, TokenKind};

impl<T: TokenKind> TerminalOf<T> {
    /// The token at this index of those that came in and have yet to arrive, from 0 at the first.
    pub fn input_token(&self, index: usize) -> Option<T>
        ensures { result ≡ slice_get self.now.input.items index }
    {
        self.input.get(index)
    }

    /// The packet of this number among those that were sent, from 0.
    pub fn sent_packet(&self, number: usize) -> Option<&Packet>
        ensures { option_copied result ≡ slice_get self.now.sent number }
    {
        match self.sent.get(number) {
            Some(posted) => Some(&posted.packet),
            None => None,
        }
    }
}
