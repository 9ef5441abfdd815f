//! Tests of scripts and of the commands of the program, in modules by what they test.
//!
//! A crate with tests is proved twice, so the tests stand in crates of their own and the others have none. What
//! a contract says needs no test. These show what no contract can: that a call which takes memory succeeds where
//! there is some, and that the definitions agree with examples that were worked out elsewhere. What the program
//! can show is a case in `tests/cases`.
#![tactic(auto)]

#[cfg(test)]
mod advice;
#[cfg(test)]
mod calls;
#[cfg(test)]
mod commands;
#[cfg(test)]
mod failures;
#[cfg(test)]
mod held;
#[cfg(test)]
mod output;
#[cfg(test)]
mod printed;
#[cfg(test)]
mod script;
