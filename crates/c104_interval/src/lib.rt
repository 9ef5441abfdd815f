//! Interval labelling: how a packet routing switch picks a packet's output from its header.
//!
//! Each input link has a table. The limits of its rows cut the headers into intervals, and the
//! interval that a header falls into says what becomes of the packet.
//!
//! - [`Table`] is a base and [`ROWS`] rows, with any numbers in them: a caller that wants them
//!   within ranges keeps that itself.
//! - [`Row`] is where its interval ends and what a header in it selects. A row knows its beginning
//!   only from the row before it, or from the table's base.
//! - [`Select`] is an output link, or one of the two ways in which a packet leaves by none.
#![tactic(auto)]

mod intervals;

pub use intervals::{ROWS, Row, Select, Table};

// Contracts name this count: its value is a part of what they say, so a change of it alone is refused.
const _: () = prove!(ROWS == 36);
