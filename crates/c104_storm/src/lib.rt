//! Storms: packets are sent into a network, and worker threads bring them where they go.
//!
//! A storm begins as a run does, on the network of a plan with its labels. The `send` lines of a script are answered as
//! they are read (`answer_sends`); then the network is shared, and workers do turns until all is quiet (`work`). When the threads
//! have ended, there is the network again, and what they did is one run of it (`SharedNet::close`, c104_lean): so the packets that
//! arrived are told, sorted (`add_sorted`). `storm_plan` does all of it, and `storm_command` on the network of a description, as a
//! command of the program.
#![tactic(auto)]

mod allowance;
mod commands;
mod end_texts;
mod endings;
mod packets;
mod sends;
mod storms;
mod telling;
mod working;

pub use allowance::Allowance;
pub use c104_lean::Words;
pub use commands::storm_command;
pub use storms::{MAX_WORKERS, storm_plan};
