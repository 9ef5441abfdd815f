//! The parts of a round that are about ports.

/// A part of a round that has an event for each port.
#[derive(Clone, Copy)]
pub enum PortPart {
    /// Each port grants eight more tokens.
    Credit,
    /// A token crosses from each port.
    Cross,
    /// Each input takes a turn. A terminal has none.
    Turn,
}
