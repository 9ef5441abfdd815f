//! What is kept of a run, and the rows of its tables.
//!
//! A [`RunRecord`] is told what happens on a network: packets that are sent, tokens that cross a wire or arrive, rounds that begin
//! and end. It has the [`Counts`] of packets, links and rounds, a [`Timeline`] of the stretches of rounds in which packets
//! crossed each wire and held it, and what was [`Seen`] of the network: which packet holds which link, and what inputs wait for.
//! The time is the number of rounds that have begun, so what happens outside of rounds counts to the round before.
//!
//! Each number of a table is exact: what the steps make of all that happened is in the definitions. How a table is spelled
//! ([`table_text`]) has no clause.
#![tactic(auto)]

mod bars;
mod changes;
mod closing;
mod count_texts;
mod counts;
mod csv;
mod endings;
mod finding;
mod hold_texts;
mod holders;
mod lanes;
mod links;
mod lists;
mod numbers;
mod packets;
mod periods;
mod ports;
mod recording;
mod rounds;
mod seen;
mod senders;
mod sights;
mod standing;
mod state_texts;
mod states;
mod steps;
mod tables;
mod texts;
mod timelines;
mod waits;

pub use bars::{Bar, bars_at};
pub use count_texts::Outcome;
pub use counts::Counts;
pub use endings::Ending;
pub use links::{Crossing, Holder, LinkRow};
pub use lists::{ListedLink, ListedPacket, listed_links, listed_packets, listed_rounds};
pub use packets::{Arrival, PacketRow, Sender};
pub use periods::Period;
pub use ports::shown_ports;
pub use recording::RunRecord;
pub use rounds::{Levels, RoundRow};
pub use seen::Seen;
pub use standing::stands_still;
pub use states::{Hold, Way, Wish};
pub use tables::{Table, Wanted};
pub use texts::table_text;
pub use timelines::Timeline;
