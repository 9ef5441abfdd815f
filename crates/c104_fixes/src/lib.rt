//! Fixes: other lines of a description for labels that are refused, or whose channels depend on one another in a cycle.
//!
//! How a fix is found has no clause: `find_fix_of` and `find_waiting` tell only what was tried and found to hold. With a fix of
//! `find_fix_of` the labels are accepted, or refused for another fault; with that of a cycle there is none any more. Where the
//! text of the description is known, `RowLines` finds the lines that a fix takes out.
#![tactic(auto)]

mod fixes;
mod header_classes;
mod header_ranges;
mod joint_fixes;
mod network;
mod repair_walks;
mod repairs;
mod row_changes;
mod row_lines;
mod sameness;
mod trials;
mod waiting;

pub use fixes::{Fix, TriedFix, find_fix_of};
pub use row_changes::{RowChange, RowFix};
pub use row_lines::RowLines;
pub use waiting::{Waiting, find_waiting};
