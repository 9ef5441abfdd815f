ghost use Rattle.std.specs.Prelude.{◌≡◌};
ghost use Rattle.c104_token.specs.Tokens.{end_token};

/// What a link carries, flow control aside: a byte of data, or one of the two terminators.
#[derive(Clone, Copy, Debug, PartialEq, Eq)]
pub enum Token {
    /// One byte of a packet's header or body.
    Byte(u8),
    /// The end of a packet.
    Eop,
    /// The end of a message. A switch passes it on as it came, as it does an end of packet.
    Eom,
}

/// The terminator of a packet.
#[derive(Clone, Copy, Debug, PartialEq, Eq)]
pub enum Mark {
    /// End of packet.
    Eop,
    /// End of message.
    Eom,
}

impl Mark {
    /// The token that ends a packet with this mark.
    pub fn token(self) -> Token
        ensures { result ≡ end_token self }
    {
        match self {
            Mark::Eop => Token::Eop,
            Mark::Eom => Token::Eom,
        }
    }
}
