//! Where a link without a token starts.

/// What a link without a token has granted and may send, the size of its input buffer, and what was
/// counted there.
#[derive(Clone, Copy, Debug)]
pub struct LinkStart {
    /// For how many tokens the input buffer has room: 8, 16, .. 64.
    pub cap: usize,
    /// How many tokens the other end of the wire may send: at most the size of the input buffer.
    pub granted: usize,
    /// How many tokens may go out: at most 64.
    pub credit: usize,
    /// How many packets were dropped at the input.
    pub sunk: u32,
    /// How many packets ended at the input before their header was whole.
    pub short: u32,
}
