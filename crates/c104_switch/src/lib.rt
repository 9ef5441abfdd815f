//! One IMS C104: 32 links and the crossbar that joins any input to any output.
//!
//! - [`SwitchOf`] is a switch over any kind of token, and [`Switch`] one of plain tokens. It keeps,
//!   as its invariant: settings, an input and an output for each link; buffers within their
//!   capacities and credits within 64; and no output that two inputs stream to.
//! - Its inputs keep the crossbar: just the outputs that they hold claims of count as taken. An
//!   input holds the claim of an output exactly while it streams to it, and while it reads a header
//!   it has room for one more token of it.
//! - [`Action`] is what is asked of a switch, and [`Reply`] what it answers. No action takes
//!   memory, and one that isn't ready, or a command that is refused, changes nothing. [`Unready`] is
//!   why one isn't ready.
//! - [`LinkView`] is what can be seen of a link: its levels, and the [`Phase`] that its input is
//!   in, with the [`HeaderBytes`], at most two, of a header that is read or that waits.
//! - [`LinkSet`] is a set of links. Beside its inputs and outputs a switch keeps which of them may be
//!   ready, so that the next of these is found without asking the others.
//! - [`SwitchStart`] is where a switch without a token starts, as plain data with a [`LinkStart`] for each
//!   link. A switch over any kind of token is made from it.
#![tactic(auto)]

mod actions;
mod group;
mod header;
mod input;
mod input_sets;
mod inputs;
mod link_set;
mod link_start;
mod outputs;
mod phase;
mod ready;
mod step;
mod switch_start;
mod switches;
mod unready;

pub use actions::{Action, ActionOf, LinkView, Reply, ReplyOf};
pub use c104_regs::LINKS;
pub use header::HeaderBytes;
pub use link_set::LinkSet;
pub use link_start::LinkStart;
pub use phase::Phase;
pub use switch_start::SwitchStart;
pub use switches::{Switch, SwitchOf};
pub use unready::Unready;

// The crates below each have a number of links and of the device of their own. Here they meet, and
// agree; that the numbers of refusals do is a clause of each command's answer.
const _: () = prove!(c104_crossbar::LINKS == LINKS);

const _: () = prove!(c104_control::DEVICE_ID == c104_regs::DEVICE_ID);

// Contracts name this limit: its value is a part of what they say, so a change of it alone is refused.
const _: () = prove!(header::HEADER_LIMIT == 2);
