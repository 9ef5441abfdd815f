//! What people are told of a run, beside its answers and their own mistakes.
//!
//! `reason_message` says why what a line asked isn't ready, `standstill_message` who
//! waits for whom where nothing can move, and `leftover_messages` at the end of a run what didn't arrive. The sentences
//! of what isn't ready are a table.
//!
//! A person who types a script may ask among its lines: `is_question` recognizes such a line, `question_in` one that stands in
//! the comment of a line, and `question_message` tells what lines there are, or how a part of the network stands.
//! `is_under_way` reads of such an answer whether a packet is.
//!
//! Nothing depends on a message: it is left out where memory is short. What messages say isn't proved.
#![tactic(auto)]

mod buffers;
mod held;
mod leftovers;
mod packet_places;
mod questions;
mod reason_sentences;
mod reasons;
mod registers;
mod shown_nodes;
mod shown_ports;
mod standstill;
mod waiting;

pub use leftovers::{leftover_messages, tell_leftovers};
pub use packet_places::is_under_way;
pub use questions::{is_question, question_in, question_message};
pub use reasons::reason_message;
pub use standstill::standstill_message;
