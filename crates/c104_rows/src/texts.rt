//! The texts of tables.

use crate::count_texts::{Outcome, links_text, packets_text, rounds_text, run_text};
use crate::hold_texts::holds_text;
use crate::recording::RunRecord;
use crate::state_texts::{ways_text, wishes_text};
use crate::tables::Table;
use c104_plan::Plan;
use c104_token::NoMemory;
use std::alloc::Global;

/// The text of a table of a run that is at its end, which was kept for it. The only error is out of memory.
pub fn table_text(
    alloc: Global,
    plan: &Plan,
    table: Table,
    record: &RunRecord,
    outcome: Outcome,
) -> Result<String, NoMemory> {
    let each = record.counts.wanted().each;
    match table {
        Table::Packets => packets_text(alloc, plan, &record.counts),
        Table::Links => links_text(alloc, plan, &record.counts),
        Table::Rounds => rounds_text(alloc, &record.counts),
        Table::Run => run_text(alloc, &record.counts, outcome),
        Table::Holds => holds_text(alloc, plan, &record.timeline),
        Table::Ways => ways_text(alloc, plan, &record.seen, each),
        Table::Wishes => wishes_text(alloc, plan, &record.seen, each),
    }
}
