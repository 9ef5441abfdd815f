//! The sentences about events that aren't ready.
use c104_switch::Unready;

/// The sentence that tells why an event isn't ready. Of a network three of them never come: a link that isn't there
/// is refused, and at the two ends of a wire the credit of the one is what the other has granted.
pub(crate) fn reason_sentence(unready: Unready) -> &'static str {
    match unready {
        Unready::NoLink => "there is no such link",
        Unready::NotStarted => "the switch is not started; `control` with the byte 01 starts it",
        Unready::NoToken => {
            "no token waits; `send` brings one, `cross` over a wire, and `input` or `claim` to an output"
        }
        Unready::NoCredit => {
            "a token waits without credit; `credit` grants some at the other end of the wire"
        }
        Unready::NotGranted => "no token may come in, since none is granted; `credit` grants some",
        Unready::NoRoom => "no room to grant eight more tokens",
        Unready::CreditFull => "credit for 64 tokens, the most, is already there",
        Unready::WantsOutput(_) => {
            "the header waits for an output; `claim` gets it a free one of the group of this link"
        }
        Unready::OutputFull(_) => {
            "the output that the packet goes to is full; `cross` takes a token out of it"
        }
        Unready::WantsNothing => {
            "the input wants no output: its packet has one, or `input` has to read or make a header first"
        }
        Unready::OutsideGroup(_) => "the header goes to another output, of the group of this link",
        Unready::Owned(_) => "the output belongs to a packet until its terminator passes",
        Unready::NoRoomForHeader => {
            "the output has no room for the header; `cross` takes a token out of it"
        }
    }
}
