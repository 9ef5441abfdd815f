//! Tests of what is below scripts: of plans, labels and switches, of networks and tools, of worker threads and their audit, in
//! modules by what they test.
//!
//! `named_packets` cites the theorem about packets as a caller does, `found_packets` what it says of a network that is
//! quiet at the end, `portals` the same where there are random headers, `deadlock` the theorem about deadlock, and `ways_out`
//! what that says of a network with a cycle;
//! `packets_by_threads` and `deadlock_by_threads` cite both of what worker threads did. What the audit answers is a
//! contract of `audit_lists`; the modules of altered lists show that it sees each kind of change to the lists of real
//! runs, and tells the first fault, `stopped` and `debuggers` that workers and a debugger leave one run wherever they
//! stop.
//!
//! A crate with tests is proved twice, so the tests stand in crates of their own and the others have none. What
//! a contract says needs no test. These show what no contract can: that a call which takes memory succeeds where
//! there is some, and that the definitions agree with examples that were worked out elsewhere. What the program
//! can show is a case in `tests/cases`.
#![tactic(auto)]

#[cfg(test)]
mod alterations;
#[cfg(test)]
mod altered_calls;
#[cfg(test)]
mod altered_lists;
#[cfg(test)]
mod altered_nodes;
#[cfg(test)]
mod altered_traces;
#[cfg(test)]
mod audit_lists;
#[cfg(test)]
mod calls;
#[cfg(test)]
mod check;
#[cfg(test)]
mod control;
#[cfg(test)]
mod crossbar;
#[cfg(test)]
mod crossings;
#[cfg(test)]
mod cycles;
#[cfg(test)]
mod deadlock;
#[cfg(test)]
mod deadlock_by_threads;
#[cfg(test)]
mod debuggers;
#[cfg(test)]
mod describe;
#[cfg(test)]
mod fabric_faults;
#[cfg(test)]
mod fabrics;
#[cfg(test)]
mod faults;
#[cfg(test)]
mod found_packets;
#[cfg(test)]
mod handed_words;
#[cfg(test)]
mod hops;
#[cfg(test)]
mod image;
#[cfg(test)]
mod interval;
#[cfg(test)]
mod label;
#[cfg(test)]
mod link;
#[cfg(test)]
mod made_lists;
#[cfg(test)]
mod named_packets;
#[cfg(test)]
mod net;
#[cfg(test)]
mod networks;
#[cfg(test)]
mod node_parts;
#[cfg(test)]
mod node_runs;
#[cfg(test)]
mod origins;
#[cfg(test)]
mod packets_by_threads;
#[cfg(test)]
mod plan_calls;
#[cfg(test)]
mod plan_faults;
#[cfg(test)]
mod portals;
#[cfg(test)]
mod reasons;
#[cfg(test)]
mod regs;
#[cfg(test)]
mod row_plans;
#[cfg(test)]
mod stopped;
#[cfg(test)]
mod switch;
#[cfg(test)]
mod tickets;
#[cfg(test)]
mod token;
#[cfg(test)]
mod tools;
#[cfg(test)]
mod traces;
#[cfg(test)]
mod turns_of_a_net;
#[cfg(test)]
mod ways_out;
#[cfg(test)]
mod workers;
