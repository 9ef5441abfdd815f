//! Where an input is with its packet.

/// Where an input is with its packet, and so what it does with its next token. `H` is what is known
/// of a header that is read, or that waits for an output.
///
/// What can be seen of a link, [`LinkView`](crate::LinkView), has the header's bytes, and the
/// contracts speak of the header's tokens.
#[derive(Debug, Drop)]
pub enum Phase<H> {
    /// It waits for a packet.
    Fresh,
    /// It reads a header, of which it has this: nothing yet after a discarded one.
    Head(H),
    /// It wants an output of this link's group for the header.
    Want(H, u8),
    /// It streams the packet to this output, 0 to 31, whose claim it holds.
    Stream(usize),
    /// It drops the packet.
    Sinking,
}
