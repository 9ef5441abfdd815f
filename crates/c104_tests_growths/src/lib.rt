//! Tests of calls that take memory: each with its first growth refused, then with its second, and so on until it succeeds.
//!
//! A refused call answers that it is out of memory, and what it was lent is as it was before: where it can't be compared as
//! it stands, what is left of a run is done with it, and comes out as ever. Of calls that are made of events or of lines
//! those that were done stand. Each call tells how many growths it has; those that take no memory are made with every
//! growth refused. What `rt ci` runs refuses nothing; `tests/refused_growths` runs the same program with growths refused.
//! REFUSALS.md, which `make pages` writes, says of each public call in which of these modules it is made.
#![tactic(auto)]

#[cfg(test)]
mod audits;
#[cfg(test)]
mod calls;
#[cfg(test)]
mod commands;
#[cfg(test)]
mod copies;
#[cfg(test)]
mod fabrics;
#[cfg(test)]
mod ground;
#[cfg(test)]
mod growths;
#[cfg(test)]
mod held;
#[cfg(test)]
mod idle_nets;
#[cfg(test)]
mod label_texts;
#[cfg(test)]
mod labels;
#[cfg(test)]
mod messages;
#[cfg(test)]
mod nets;
#[cfg(test)]
mod nodes;
#[cfg(test)]
mod outcomes;
#[cfg(test)]
mod packets;
#[cfg(test)]
mod plan_lists;
#[cfg(test)]
mod plans;
#[cfg(test)]
mod scripts;
#[cfg(test)]
mod states;
#[cfg(test)]
mod storms;
#[cfg(test)]
mod streams;
#[cfg(test)]
mod switches;
#[cfg(test)]
mod terminals;
#[cfg(test)]
mod texts;
#[cfg(test)]
mod timelines;
#[cfg(test)]
mod tools;
#[cfg(test)]
mod traced;
#[cfg(test)]
mod without_memory;
#[cfg(test)]
mod written;
