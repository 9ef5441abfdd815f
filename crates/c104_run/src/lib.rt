//! Networks of nodes that wires join, run event by event, and what a run leaves.
//!
//! A `Net` is the switches and the terminals of a plan. It keeps that each stands at its place, the switches first,
//! and that at the two ends of each wire the credit of the one is what the other has granted. An event is done as a
//! whole, at both ends of its wire, or it is answered with NotReady or refused, and then nothing has changed. Each
//! node keeps where it started and an `Entry` of each act that it did since, and the type keeps that the entries of
//! all are those of one run.
//!
//! A network can't be dropped, since its switches hold claims: `finish` ends it, and gives a `Run`, which keeps the
//! plan, the starts, the entries, and what had arrived at each of the terminals. A `TracedNet` does and answers
//! what a `Net` does, and counts entries in place of keeping them. Both are a `RecordedNet`, each of its own kind
//! of place.
//!
//! Its parts (`NetParts`) keep what it kept: the plan, the nodes, and how many events were done.
//!
//! A `PlaceFault` is why a network was not made, and a `Reason` why an event isn't ready, and where. `view_link`
//! and `view_terminal` show how a link of a switch and how a terminal stands. `rounds` does the events of all parts
//! in turn, again and again; a `Watch` is told how far they are. A `Meter` is told of each token that crosses a wire or
//! arrives. `round_part` gives what a round has for one node.
//! `Run::of_nodes` is the run that nodes tell which were taken out of a network.
#![tactic(auto)]

mod asked;
mod asks;
mod doing;
mod engine;
mod faults;
mod live_places;
mod meter;
mod net;
mod net_parts;
mod node_parts;
mod node_runs;
mod reason;
mod recorded_net;
mod recorded_place;
mod recording;
mod run;
mod run_parts;
mod traced_net;
mod turns;
mod watch;
mod wires;
mod words;

pub use asked::{Asked, acts_of};
pub use asks::{Ask, act_event, ask_of, crossing_event};
pub use engine::Engine;
pub use faults::PlaceFault;
pub use meter::{Meter, Unmetered};
pub use net::Net;
pub use net_parts::NetParts;
pub use node_parts::round_part;
pub use reason::Reason;
pub use recorded_net::RecordedNet;
pub use recorded_place::RecordedPlace;
pub use run::Run;
pub use traced_net::TracedNet;
pub use turns::Turns;
pub use watch::{Unwatched, Watch};
pub use wires::Wires;
pub use words::Words;
