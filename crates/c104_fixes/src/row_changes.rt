//! What becomes of an input's rows where headers are to select something else there. Nothing is proved of it but that it
//! is safe and ends.

use c104_check::SwitchPort;
use c104_interval::{ROWS, Row, Select};
use c104_plan::{Plan, Port};
use std::alloc::{AllocError, Global};

/// Rows of an input in the place of one, or behind all.
#[derive(Drop)]
pub struct RowChange {
    /// The number and the row that gives way to others. None where they are put behind all.
    pub replaced: Option<(usize, Row)>,
    /// These others.
    pub by: Vec<Row>,
}

/// Other rows of an input, or of inputs of a switch that have the same.
#[derive(Drop)]
pub struct RowFix {
    /// The input, or the first of them.
    pub at: SwitchPort,
    /// All of its rows, as they are to be.
    pub rows: Vec<Row>,
    /// The links of all that have them.
    pub links: Vec<usize>,
    /// Whether they are all inputs of the switch that have no rows of their own.
    pub is_shared: bool,
    /// Which rows change.
    pub changes: Vec<RowChange>,
}

/// Headers next to one another, all of which the same row of an input is the first to cover.
#[derive(Clone, Copy)]
pub(crate) struct Covered {
    /// The number of the row; where none covers them, how many rows there are.
    pub(crate) row: usize,
    /// The first of the headers.
    pub(crate) first: u32,
    /// The first number past them.
    pub(crate) end: u32,
    /// What they are to select, if it matters.
    pub(crate) select: Option<Select>,
}

/// The rows of an input, as a plan has them.
#[derive(Drop)]
pub(crate) struct InputRows {
    alloc: Global,
    at: SwitchPort,
    /// In order.
    pub(crate) rows: Vec<Row>,
    /// Where the interval of the first begins.
    base: u32,
}

impl InputRows {
    /// Those of an input.
    pub(crate) fn read(alloc: Global, plan: &Plan, at: SwitchPort) -> Result<Self, AllocError> {
        let port = Port::Switch(at.switch, at.link);
        let mut rows = Vec::new(alloc);
        for row in plan.rows() {
            if row.port.is_same(port) {
                rows.push(Row {
                    limit: row.limit,
                    select: row.select,
                })?;
            }
        }
        let base = base_of(plan, port);
        Ok(InputRows {
            alloc,
            at,
            rows,
            base,
        })
    }

    /// The number of the first row that covers a header, and where its interval begins; where none does, how many rows there
    /// are, and where the interval of a further one would begin.
    pub(crate) fn covering(&self, header: u32) -> (usize, u32) {
        let mut low = self.base;
        for (number, row) in self.rows.iter().enumerate() {
            if low <= header && header < row.limit {
                return (number, low);
            }
            low = row.limit;
        }
        (self.rows.len(), low)
    }

    /// Rows by which headers select what they are to at all inputs with these links, and all others what they select now. None
    /// where these have no room for them.
    pub(crate) fn fix(
        &self,
        links: Vec<usize>,
        headers: &[Covered],
    ) -> Result<Option<RowFix>, AllocError> {
        let changes = self.changes(headers)?;
        let rows = self.changed(changes.as_slice())?;
        if rows.len() > ROWS {
            return Ok(None);
        }
        Ok(Some(RowFix {
            at: self.at,
            rows,
            is_shared: links.len() > 1,
            links,
            changes,
        }))
    }

    /// Which rows change for headers to select what they are to.
    fn changes(&self, headers: &[Covered]) -> Result<Vec<RowChange>, AllocError> {
        let mut changes = Vec::new(self.alloc);
        for number in 0..self.rows.len().saturating_add(1) {
            if let Some(change) = self.change(number, headers)? {
                add_joined(&mut changes, change)?;
            }
        }
        Ok(changes)
    }

    /// What the row of a number gives way to, or behind all what is put there. None where the headers that it covers stay as
    /// they are.
    fn change(&self, number: usize, headers: &[Covered]) -> Result<Option<RowChange>, AllocError> {
        let row = self.rows.get(number).copied();
        let usual = match row {
            Some(row) => row.select,
            None => Select::Sink,
        };
        let mut changed_end = None;
        for own in headers {
            if own.row == number && matches!(own.select, Some(select) if select != usual) {
                changed_end = Some(own.end);
            }
        }
        let Some(changed_end) = changed_end else {
            return Ok(None);
        };
        let limit = match row {
            Some(row) => row.limit,
            None => changed_end,
        };
        let mut by = rows_for(self.alloc, number, headers, usual, limit)?;
        // Behind all rows headers are sunk in any case.
        if row.is_none() && matches!(by.as_slice().last(), Some(last) if last.select == usual) {
            by.pop();
        }
        let replaced = row.map(|row| (number, row));
        Ok(Some(RowChange { replaced, by }))
    }

    /// All of them, with these changes.
    fn changed(&self, changes: &[RowChange]) -> Result<Vec<Row>, AllocError> {
        let mut rows = Vec::new(self.alloc);
        for (number, row) in self.rows.iter().enumerate() {
            let change = changes.iter().find(
                |change| matches!(change.replaced, Some((own, _)) if own == number),
            );
            match change {
                Some(change) => rows.extend_from_slice(change.by.as_slice())?,
                None => rows.push(*row)?,
            }
        }
        if let Some(change) = changes.last()
            && change.replaced.is_none()
        {
            rows.extend_from_slice(change.by.as_slice())?;
        }
        Ok(rows)
    }
}

/// Rows for the headers that one row covers, where the last ends below a limit: in one those that select the same. Where any
/// select will do, it is that of the headers next to them, and the usual one at once.
fn rows_for(
    alloc: Global,
    number: usize,
    headers: &[Covered],
    usual: Select,
    limit: u32,
) -> Result<Vec<Row>, AllocError> {
    let mut rows = Vec::new(alloc);
    let mut last = None;
    let mut gap = None;
    for own in headers {
        if own.row != number {
            continue;
        }
        let Some(select) = own.select else {
            gap = gap.or(Some(own.first));
            continue;
        };
        if let Some(last) = last
            && last != select
        {
            let limit = match gap {
                Some(gap) if select == usual => gap,
                _ => own.first,
            };
            rows.push(Row {
                limit,
                select: last,
            })?;
        }
        last = Some(select);
        gap = None;
    }
    if let Some(select) = last {
        rows.push(Row { limit, select })?;
    }
    Ok(rows)
}

/// A change joins others. Where the last of them is of the row before, and ends with the select with which this begins, the row
/// before goes.
fn add_joined(changes: &mut Vec<RowChange>, change: RowChange) -> Result<(), AllocError> {
    if let Some(last) = changes.as_mut_slice().last_mut()
        && let (Some((number, row)), Some((next, next_row))) = (last.replaced, change.replaced)
        && let Some(end) = last.by.as_slice().last().copied()
        && let Some(begin) = change.by.as_slice().first().copied()
        && number.saturating_add(1) == next
        && row.limit <= next_row.limit
        && end.select == begin.select
    {
        last.by.pop();
    }
    changes.push(change)?;
    Ok(())
}

/// Headers that are to select something else at an input.
#[derive(Clone, Copy)]
pub(crate) struct Change {
    pub(crate) at: SwitchPort,
    /// The first of them.
    pub(crate) first: u32,
    /// The first number past them.
    pub(crate) end: u32,
    pub(crate) select: Select,
}

/// Other rows of an input by which headers select there what they are to, and all others what they select now; where a
/// row covers the first of them, only those that it covers do. None where the input has no room for the rows.
pub(crate) fn row_fix(
    alloc: Global,
    plan: &Plan,
    change: Change,
) -> Result<Option<RowFix>, AllocError> {
    let old = InputRows::read(alloc, plan, change.at)?;
    let headers = headers_of(alloc, &old, change)?;
    let links = vec![in alloc; change.at.link; 1]?;
    old.fix(links, headers.as_slice())
}

/// The headers of a change, and those below and above them that the same row covers.
fn headers_of(alloc: Global, old: &InputRows, change: Change) -> Result<Vec<Covered>, AllocError> {
    let (row, low) = old.covering(change.first);
    let (usual, limit) = match old.rows.get(row) {
        Some(row) => (row.select, row.limit),
        None => (Select::Sink, change.end),
    };
    let own = Covered {
        row,
        first: change.first,
        end: change.end,
        select: Some(change.select),
    };
    let usual = Some(usual);
    let mut headers = Vec::new(alloc);
    if low != change.first {
        headers.push(Covered {
            first: low,
            select: usual,
            ..own
        })?;
    }
    headers.push(own)?;
    if change.end < limit {
        headers.push(Covered {
            first: change.end,
            select: usual,
            ..own
        })?;
    }
    Ok(headers)
}

/// The row of an input that is the first to cover a header.
pub(crate) fn row_over(
    alloc: Global,
    plan: &Plan,
    at: SwitchPort,
    header: u32,
) -> Result<Option<Row>, AllocError> {
    let old = InputRows::read(alloc, plan, at)?;
    Ok(old.rows.get(old.covering(header).0).copied())
}

/// Where the first interval of an input's table begins.
fn base_of(plan: &Plan, port: Port) -> u32 {
    for base in plan.bases() {
        if base.port.is_same(port) {
            return base.base;
        }
    }
    0
}
