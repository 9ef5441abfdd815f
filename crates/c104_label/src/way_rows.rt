//! The tables of ports whose labels go by given links, or by any one of several.
//!
//! Nothing is proved of which rows they have but that these are within the ranges of registers.
ghost use Rattle.std.specs.{List.list_all, Prelude.{IfOk, IfSome, ◌≡◌}};
ghost use Rattle.{c104_label.specs.UpDownLabels.is_link_row, c104_regs.specs.Ranges.IsTableInRange};

use crate::rows::table_of;
use c104_interval::{ROWS, Row, Select, Table};
use c104_regs::LINKS;
use std::alloc::{AllocError, Global};

/// Labels that may leave by the same links: those from the limit of the segment before on.
#[derive(Clone, Copy)]
pub(crate) struct Segment {
    /// The first label past them.
    pub(crate) limit: u32,
    /// The links, as bits. None where they never come.
    pub(crate) links: u32,
    /// Which of the links they take, counted round and round, where each segment takes one of its own.
    pub(crate) choice: usize,
}

/// A table for segments, from label 0 on: each takes a link of its own choice, or, where that needs more rows than a
/// table has, the fewest rows. None where these are too many too.
pub(crate) fn segment_table(
    alloc: Global,
    segments: &[Segment],
    choice: usize,
) -> Result<Option<Table>, AllocError>
    ensures { IfOk result (λ table. IfSome table IsTableInRange) }
{
    let rows = spread_rows(alloc, segments, choice)?;
    let table = checked_table(rows.as_slice());
    if table.is_some() {
        return Ok(table);
    }
    let rows = fewest_rows(alloc, segments, choice)?;
    Ok(checked_table(rows.as_slice()))
}

/// The table of these rows. None where they are more than a table has, or one of them isn't within the ranges of
/// registers.
#[tactic(auto, using(crate::proofs::UpDownTables::checked_in_range))]
fn checked_table(rows: &[Row]) -> Option<Table>
    ensures { IfSome result IsTableInRange }
{
    if rows.len() > ROWS || !are_link_rows(rows) {
        return None;
    }
    Some(table_of(rows))
}

/// Whether all rows select links, with limits that registers can hold.
fn are_link_rows(rows: &[Row]) -> bool
    ensures { result ≡ list_all is_link_row rows.now }
{
    rows.iter().all(|row| is_link_row(*row))
}

/// Whether a row selects a link of a switch, with a limit that registers can hold.
fn is_link_row(row: Row) -> bool
    ensures { result ≡ is_link_row row }
{
    match row.select {
        Select::Link(link) => (link as usize) < LINKS && row.limit <= 65536,
        Select::Discard => false,
        Select::Sink => false,
    }
}

/// Rows by which each segment takes a link of its own choice.
fn spread_rows(alloc: Global, segments: &[Segment], choice: usize) -> Result<Vec<Row>, AllocError> {
    let mut rows = Vec::new(alloc);
    for segment in segments {
        add_segment(&mut rows, *segment, choice)?;
    }
    Ok(rows)
}

/// Adds labels that take a link of their own choice: to the last row, if that takes the same or if they never come, and
/// else as a row.
fn add_segment(rows: &mut Vec<Row>, segment: Segment, choice: usize) -> Result<(), AllocError> {
    let chosen = chosen_link(segment.links, choice.saturating_add(segment.choice));
    match (chosen, rows.last_mut()) {
        (None, None) => Ok(()),
        (None, Some(last)) => {
            last.limit = segment.limit;
            Ok(())
        }
        (Some(link), Some(last)) if last.select == Select::Link(link) => {
            last.limit = segment.limit;
            Ok(())
        }
        (Some(link), _) => add_row(rows, segment.limit, link),
    }
}

/// Adds a row.
fn add_row(rows: &mut Vec<Row>, limit: u32, link: u8) -> Result<(), AllocError> {
    rows.push(Row {
        limit,
        select: Select::Link(link),
    })?;
    Ok(())
}

/// The fewest rows: each has segments as long as they have a link in common.
fn fewest_rows(alloc: Global, segments: &[Segment], choice: usize) -> Result<Vec<Row>, AllocError> {
    let mut rows = Vec::new(alloc);
    let mut limit = 0;
    let mut common = 0;
    for segment in segments {
        let links = segment.links;
        if links != 0 && common & links == 0 {
            add_common(&mut rows, limit, common, choice)?;
            common = links;
        } else if links != 0 {
            common &= links;
        }
        limit = segment.limit;
    }
    add_common(&mut rows, limit, common, choice)?;
    Ok(rows)
}

/// Adds the row of labels that have these links in common, if they have any.
fn add_common(
    rows: &mut Vec<Row>,
    limit: u32,
    common: u32,
    choice: usize,
) -> Result<(), AllocError> {
    match chosen_link(common, choice.saturating_add(rows.len())) {
        Some(link) => add_row(rows, limit, link),
        None => Ok(()),
    }
}

/// One of these links, counted round and round. None where there are none.
fn chosen_link(links: u32, choice: usize) -> Option<u8> {
    let count = links.count_ones() as usize;
    if count == 0 {
        return None;
    }
    let mut left = choice % count;
    for link in 0..LINKS as u8 {
        if links & (1u32 << link) != 0 {
            if left == 0 {
                return Some(link);
            }
            left -= 1;
        }
    }
    None
}
