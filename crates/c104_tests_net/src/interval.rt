use c104_interval::{Row, Select, Table};
use std::alloc::Global;

// These functions promise nothing, since the prover would compute with literal rows.

/// A table with these first rows. The others are as after a reset.
fn table(base: u32, rows: &[(u32, u8)]) -> Table {
    let mut table = Table::reset();
    table.base = base;
    for (slot, (limit, link)) in table.rows.iter_mut().zip(rows) {
        *slot = Row {
            limit: *limit,
            select: Select::Link(*link),
        };
    }
    table
}

/// Whether each of these headers selects so.
fn selects(table: &Table, expected: &[(u32, Select)]) -> bool {
    for (header, select) in expected {
        if table.select(*header) != *select {
            return false;
        }
    }
    true
}

/// Whether the headers of one byte are parted here.
fn is_parted(table: &Table, alloc: Global, expected: &[u32]) -> bool {
    match table.segments(alloc, 256) {
        Ok(segments) => segments.as_slice() == expected,
        Err(_) => false,
    }
}

/// An interval has its first header and not its limit.
#[test]
fn edges(rt: HostRuntime) {
    let adjoining = table(1, &[(2, 0), (5, 1)]);
    let expected = [
        (0, Select::Sink),
        (1, Select::Link(0)),
        (2, Select::Link(1)),
        (4, Select::Link(1)),
        (5, Select::Sink),
        (255, Select::Sink),
    ];
    assert!(rt; selects(&adjoining, &expected));
    assert!(rt; is_parted(&adjoining, rt.alloc(), &[0, 1, 2, 5]));
}

/// The first row that covers a header wins.
#[test]
fn first_rows(rt: HostRuntime) {
    let crossing = table(0, &[(10, 3), (4, 5), (12, 6)]);
    let expected = [
        (5, Select::Link(3)),
        (10, Select::Link(6)),
        (11, Select::Link(6)),
    ];
    assert!(rt; selects(&crossing, &expected));
}
