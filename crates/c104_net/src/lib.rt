//! Networks of switches and terminals, and what is proved of their packets.
//!
//! Networks and runs are those of `c104_run`, and their nodes those of `c104_node`; this crate re-exports what users
//! of a network need of both. Its own are the theorems, which know the check of labels.
//!
//! `sort_leads` and `event_of` find the events of a run again from the entries that lead in them, each a `Lead`.
//! `Origins` tells which packet each received packet was: of a `TracedNet`, whose tokens tell it as they arrive, and of a
//! `Run`, which is done once more by one. `MeteredNet` tells a meter of the tokens that
//! cross the wires of one.
#![tactic(auto)]

mod leading;
mod metered_net;
mod replays;
mod run_origins;
mod traced_origins;

pub use c104_event::{Event, EventFault, Port};
pub use c104_node::{
    Act, ActOf, ArrivedOf, Entry, Node, NodeStart, Origin, SentPacket, Stamp, TaggedToken,
    TerminalStart, TerminalView, all_started,
};
pub use c104_run::{
    Meter, Net, NetParts, PlaceFault, Reason, RecordedNet, RecordedPlace, Run, TracedNet, Turns,
    Unmetered, Unwatched, Watch, Words, round_part,
};
pub use leading::{Lead, event_of, sort_leads};
pub use metered_net::MeteredNet;
pub use run_origins::{Origins, replayed};
pub use traced_origins::WaitingTokens;
