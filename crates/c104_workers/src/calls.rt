//! What a seat leaves.

use c104_event::Call;
use c104_token::Items;

/// What a seat leaves: its number, its calls in the order in which they were done, and whether one of them was done on nodes
/// that were lent.
#[derive(Drop)]
pub struct SeatCalls {
    pub number: u8,
    pub calls: Items<Call>,
    pub lent: bool,
}
