//! The rows of a switch's table.
//!
//! A switch's rows are its labels in order: those before its subtree's, its own, those of the subtrees below it, those
//! past its subtree's. Rows of empty intervals are among them until they are added, so the root is no case of its own:
//! its link to a parent that it hasn't is 0, and no label lies behind it.
ghost use Rattle.std.specs.Prelude.{◌≡◌, ◌≤◌, length, IfOk};
ghost use Rattle.c104_interval.specs.declared.intervals.TheConstants.{ROWS as MOST_ROWS};
ghost use Rattle.c104_label.specs.LabelRows.{label_row, label_table, last_limit, with_row};

use c104_interval::{Row, Select, Table};
use std::alloc::AllocError;

/// Where the last row ends, and 0 where there is none.
fn last_limit(rows: &[Row]) -> u32
    ensures { result ≡ last_limit 0 rows.now }
{
    let mut limit = 0;
    for row in rows {
        limit = row.limit;
    }
    limit
}

/// Adds the row of the labels below a limit, which leave by a link, unless there are none.
pub(crate) fn add_row(rows: &mut Vec<Row>, limit: u32, link: u8) -> Result<(), AllocError>
    ensures { IfOk result (λ _. rows.new.items ≡ with_row rows.old.items (label_row limit link)) }
{
    if limit != last_limit(rows.as_slice()) {
        rows.push(Row {
            limit,
            select: Select::Link(link),
        })?;
    }
    Ok(())
}

/// The table that begins with these rows.
pub(crate) fn table_of(rows: &[Row]) -> Table
    requires { length rows.now ≤ MOST_ROWS }
    ensures { result ≡ label_table rows.now }
{
    let mut table = Table::reset();
    for place in 0..rows.len() {
        table.rows[place] = rows[place];
    }
    table
}
