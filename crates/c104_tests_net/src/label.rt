use crate::calls::drop_plan;
use crate::plan_calls::{Maker, image, plan_of};
use c104_interval::{Row, Select, Table};
use c104_label::{LabelFault, cube_tables, is_cube, is_mesh, mesh_tables};
use c104_plan::Plan;
use std::alloc::Global;

/// A root with two children. Terminals stand out of the order of their links.
const TREE: &[u8] = b"switch A\nswitch B\nswitch C\nwire A.1 B.0\nwire A.2 C.5\n\
    terminal a A.3 labels 2\nterminal b B.4\nterminal c B.2 labels 3\nterminal d C.0\nlabel tree A\n";

/// Three switches in a ring.
const UP_DOWN: &[u8] = b"switch A\nswitch B\nswitch C\nwire A.1 B.0\nwire B.1 C.0\nwire C.1 A.0\n\
    terminal a A.2\nterminal b B.2\nterminal c C.2\nlabel up-down A\n";

const MESH: &[u8] = b"mesh 3 2 1\n";

const CUBE: &[u8] = b"cube 3 1\n";

const BY_HAND: &[u8] = b"switch A\nswitch B\nterminal a A.0\n";

// These functions promise nothing, since the prover would compute with literals: a description's text,
// and what is expected of its labels.

/// Whether a labeller finds that a description has another shape.
fn refuses(alloc: Global, text: &[u8], maker: Maker) -> bool {
    let Some(plan) = plan_of(alloc, text) else {
        return false;
    };
    let result = is_refused(alloc, &plan, maker);
    drop_plan(plan);
    result
}

fn is_refused(alloc: Global, plan: &Plan, maker: Maker) -> bool {
    match image(alloc, plan, maker) {
        Ok(_) => false,
        Err(fault) => fault == LabelFault::WrongShape,
    }
}

/// The same of several descriptions.
fn refuses_shapes(alloc: Global, texts: &[&[u8]], maker: Maker) -> bool {
    for text in texts {
        if !refuses(alloc, text, maker) {
            return false;
        }
    }
    true
}

/// Whether a mesh, or a cube, of these sizes has this table at a switch.
fn mesh_has(
    alloc: Global,
    sizes: (usize, usize, usize),
    switch: usize,
    rows: &[(u32, u8)],
) -> bool {
    let (width, height, terminals) = sizes;
    if !is_mesh(width, height, terminals) {
        return false;
    }
    let Ok(tables) = mesh_tables(alloc, width, height, terminals) else {
        return false;
    };
    is_table_of(&tables, switch, rows)
}

fn cube_has(alloc: Global, sizes: (usize, usize), switch: usize, rows: &[(u32, u8)]) -> bool {
    let (dimensions, terminals) = sizes;
    if !is_cube(dimensions, terminals) {
        return false;
    }
    let Ok(tables) = cube_tables(alloc, dimensions, terminals) else {
        return false;
    };
    is_table_of(&tables, switch, rows)
}

/// Whether the table of a switch has these rows.
fn is_table_of(tables: &[Table], switch: usize, rows: &[(u32, u8)]) -> bool {
    match tables.get(switch) {
        Some(table) => is_table(table, rows),
        None => false,
    }
}

/// Whether a table has rows with these limits and links, and else what it has after a reset.
fn is_table(table: &Table, rows: &[(u32, u8)]) -> bool {
    for (place, row) in table.rows.iter().enumerate() {
        let expected = match rows.get(place) {
            Some((limit, link)) => Row {
                limit: *limit,
                select: Select::Link(*link),
            },
            None => Row {
                limit: 0,
                select: Select::Sink,
            },
        };
        if *row != expected {
            return false;
        }
    }
    table.base == 0
}

/// The fifth of six switches of a mesh has a row above, and two beside it. Of switch 101 of a cube the highest bit that
/// differs is bit 2 for the first four labels.
#[test]
fn tables(rt: HostRuntime) {
    let rows = [(3, 0), (4, 1), (5, 4), (6, 2)];
    assert!(rt; mesh_has(rt.alloc(), (3, 2, 1), 4, rows.as_slice()));
    let rows = [(4, 2), (5, 0), (6, 3), (8, 1)];
    assert!(rt; cube_has(rt.alloc(), (3, 1), 5, rows.as_slice()));
}

/// Each labeller refuses the shapes of the others, and a network that is labelled by hand.
#[test]
fn wrong_shape(rt: HostRuntime) {
    let others = [UP_DOWN, MESH, CUBE, BY_HAND];
    assert!(rt; refuses_shapes(rt.alloc(), others.as_slice(), Maker::Tree));
    let others = [TREE, MESH, CUBE, BY_HAND];
    assert!(rt; refuses_shapes(rt.alloc(), others.as_slice(), Maker::UpDown));
    let others = [TREE, UP_DOWN, CUBE, BY_HAND];
    assert!(rt; refuses_shapes(rt.alloc(), others.as_slice(), Maker::Mesh));
    let others = [TREE, UP_DOWN, MESH, BY_HAND];
    assert!(rt; refuses_shapes(rt.alloc(), others.as_slice(), Maker::Cube));
}
