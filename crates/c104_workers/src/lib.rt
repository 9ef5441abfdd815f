//! The nodes of a network behind locks of their own, and seats through which events are done on them.
//!
//! A [`Fabric`] is made of a network. It has its nodes behind locks, so that several threads may do events
//! on them, each through a [`Seat`] of its own. A seat keeps a [`Call`] of each event that was done through it: the
//! event, its ticket and its reply. Tickets are drawn from one word, each once, while the nodes are locked; so they are
//! the order of all events.
//!
//! [`Fabric::apply_held`] does an event on nodes that are lent to it, and [`Fabric::apply`] takes their locks for it, the
//! lower first. [`run_workers`] does rounds by several threads, each of which asks a [`Gate`] on its way, and hands
//! [`Words`] to inputs. What a worker does through any port is told exactly ([`do_turns`]), and [`NetPort`] is the port of
//! a network that is nobody else's. [`FabricPort`] takes control commands through a seat, and [`Fabric::load`] and
//! [`Fabric::verify`] load an image so and compare it. [`Fabric::close`] ends a fabric and gives what it leaves,
//! [`Gathered`]: the nodes, and the calls of each seat. [`Gathered::audit`] judges whether these are what one run
//! leaves, in which the seats' calls stand and nothing else, and gives this run; [`audit_lists`] judges any [`Lists`] in the
//! same way.
//!
//! A fabric and what it leaves can't be dropped, since switches hold claims.
#![tactic(auto)]

mod auditing;
mod calls;
mod closing;
mod fabric;
mod gates;
mod held;
mod lent_calls;
mod loading;
mod making;
mod naming;
mod net_port;
mod ports;
mod runs;
mod seats;
mod workers;

pub use c104_audit::{AuditFault, Call, Lists, NodeShape, audit_lists};
pub use c104_turns::{
    FabricFault, NodePort, Part, PartPort, RunFault, Stage, Words, Worker, do_turns,
};
pub use calls::SeatCalls;
pub use closing::Gathered;
pub use fabric::Fabric;
pub use gates::{Gate, OpenGate};
pub use making::Ready;
pub use naming::Naming;
pub use net_port::NetPort;
pub use ports::FabricPort;
pub use seats::{CALL_LIMIT, Seat};
pub use workers::run_workers;
