//! Ends of wires.

/// One end of a wire: a node, and a link of it.
#[derive(Clone, Copy, Debug, PartialEq, Eq)]
pub struct End {
    pub node: usize,
    pub link: usize,
}
