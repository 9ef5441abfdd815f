ghost use Rattle.std.specs.Prelude.{◌≡◌};
ghost use Rattle.c104_regs.specs.Values.{reset_status};

/// What a switch tells of one link, which the link's read-only registers show.
#[derive(Clone, Copy, Debug, PartialEq, Eq)]
pub struct Status {
    /// How many packets the input dropped. A switch's count stays at 4,294,967,295.
    pub sunk: u32,
    /// How many packets the input found too short for a header. A switch's count stays at
    /// 4,294,967,295.
    pub short: u32,
    /// How many tokens the input buffer holds, 0 to 64 in a switch.
    pub input_level: u8,
    /// How many tokens the output buffer holds, 0 to 8 in a switch.
    pub output_level: u8,
    /// How many tokens the output may send, 0 to 64 in a switch.
    pub credit: u8,
    /// How many more tokens the input let the other end of its wire send, 0 to 64 in a switch.
    pub granted: u8,
    /// The input that streams to the output, 0 to 31, if one does.
    pub owner: Option<u8>,
    /// A packet is on its way through the link's input or its output, so that the mode can't
    /// change.
    pub busy: bool,
}

impl Status {
    /// The status of a link after a reset, before any credit was granted.
    pub fn reset() -> Self
        ensures { result ≡ reset_status }
    {
        Status {
            sunk: 0,
            short: 0,
            input_level: 0,
            output_level: 0,
            credit: 0,
            granted: 0,
            owner: None,
            busy: false,
        }
    }
}
