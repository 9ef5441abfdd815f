//! Why an action isn't ready.

/// Why an action isn't ready: the first of its conditions that doesn't hold. The links, inputs and
/// outputs that are named have the numbers 0 to 31.
#[derive(Clone, Copy, Debug, PartialEq, Eq)]
pub enum Unready {
    /// There is no such link. A switch has links 0 to 31.
    NoLink,
    /// The switch isn't started. The command Start starts it; then its links grant, and its inputs
    /// move tokens.
    NotStarted,
    /// No token is here. One has to come to the output by a turn or a claim, to the input over the
    /// wire, and to a terminal that is to send by a packet.
    NoToken,
    /// A token waits and there is no credit for it. The other end of the wire has to grant some.
    NoCredit,
    /// No token may come in, since none is granted here. This end of the wire has to grant some.
    NotGranted,
    /// The input buffer hasn't room for eight more tokens beside those that it holds and those that
    /// it has granted. Tokens that are granted have to come in, and then go on.
    NoRoom,
    /// The credit would be above 64. Tokens have to go out first.
    CreditFull,
    /// The input wants an output of this link's group for its header. It has to claim one.
    WantsOutput(usize),
    /// The input streams to this output, which holds eight tokens. One of them has to go out.
    OutputFull(usize),
    /// The input wants no output. Turns have to read a header first that selects a link.
    WantsNothing,
    /// The input wants an output of this link's group, and the output isn't one of it.
    OutsideGroup(usize),
    /// This input streams to the output. The terminator of its packet frees the output.
    Owned(usize),
    /// The output hasn't room for the header of the input that claims it. Tokens have to go out of
    /// the output.
    NoRoomForHeader,
}
