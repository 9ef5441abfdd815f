//! The labels of a cube.
ghost use Rattle.std.specs.{List.range_with_len, Prelude.{IfOk, IsTrue, length, map, ◌*◌, ◌+◌, ◌<◌, ◌^◌, ◌↔◌, ◌≡◌, ◌≤◌}};
ghost use Rattle.c104_label.specs.CubeLabels.{AreCubeTables, IsCube, cube_rows, cube_table};
ghost use Rattle.c104_plan.specs.{LabelledImages.labelled_image, PlanImage.{Fits, range_of}};

use crate::images::image_with;
use crate::rows::{add_row, table_of};
use c104_interval::{Row, Table};
use c104_plan::{Image, Plan};
use c104_token::NoMemory;
use std::alloc::{AllocError, Global};

/// Whether these are a cube's sizes: 0 to 6 dimensions, 1 to 26 terminals at each switch, and at most 256
/// terminals in all.
pub fn is_cube(dimensions: usize, terminals: usize) -> bool
    ensures { IsTrue result ↔ IsCube dimensions terminals }
{
    if dimensions > 6 || terminals == 0 || terminals > 26 {
        return false;
    }
    switch_count(dimensions) * terminals <= 256
}

/// How many switches a cube has.
#[tactic(auto, using(c104_plan::proofs::LayoutNumbers::power_is, c104_plan::proofs::LayoutNumbers::power_small))]
fn switch_count(dimensions: usize) -> usize
    requires { dimensions ≤ 6 }
    ensures count { result ≡ 2 ^ dimensions }
    ensures few { result ≤ 64 }
{
    1 << dimensions
}

/// The tables of a cube's switches, by number: a cube of `dimensions` dimensions, whose switches have
/// `terminals` terminals each.
///
/// Labels go by the highest bit at which the number of the switch that they are for differs. The rows of
/// a table are in ascending order, and none is of no label. The only error is out of memory.
#[tactic(auto, using(crate::proofs::CubeTables::are_cube_tables))]
pub fn cube_tables(
    alloc: Global,
    dimensions: usize,
    terminals: usize,
) -> Result<Vec<Table>, NoMemory>
    requires { IsCube dimensions terminals }
    ensures tables { IfOk result (λ tables. tables.items
        ≡ map (cube_table dimensions terminals) (range_with_len 0 (2 ^ dimensions))) }
    ensures labels { AreCubeTables dimensions terminals }
{
    let mut tables = Vec::new(alloc);
    for switch in 0..switch_count(dimensions) {
        tables.push(cube_table(alloc, dimensions, terminals, switch)?)?;
    }
    Ok(tables)
}

/// The image of a plan whose switches are those of a cube of `dimensions` dimensions, with `terminals` terminals
/// each: at each port that has a wire the table of its switch, and all else as the plan's own lines say. The
/// only error is out of memory.
#[tactic(auto, using(crate::proofs::CubeTables::are_cube_tables))]
pub(crate) fn cube_image(
    alloc: Global,
    plan: &Plan,
    dimensions: usize,
    terminals: usize,
) -> Result<Image, NoMemory>
    requires sizes { IsCube dimensions terminals }
    requires switches { length plan.now.switches ≡ 2 ^ dimensions }
    ensures image { IfOk result (λ image. image ≡ labelled_image plan.now
        (map range_of plan.now.terminals)
        (map (cube_table dimensions terminals) (range_with_len 0 (2 ^ dimensions)))) }
    ensures fits { IfOk result (λ image. Fits image plan.now) }
    ensures labels { AreCubeTables dimensions terminals }
{
    let tables = cube_tables(alloc, dimensions, terminals)?;
    image_with(alloc, plan, tables.as_slice())
}

/// The table of a switch of a cube.
#[tactic(auto, using(crate::proofs::CubeTables::cube_rows_few))]
fn cube_table(
    alloc: Global,
    dimensions: usize,
    terminals: usize,
    switch: usize,
) -> Result<Table, AllocError>
    requires low { dimensions ≤ 6 }
    requires links { dimensions + terminals ≤ 32 }
    requires some { 0 < terminals }
    requires inside { switch < 2 ^ dimensions }
    requires few { 2 ^ dimensions * terminals ≤ 256 }
    ensures { IfOk result (λ table. table ≡ cube_table dimensions terminals switch) }
{
    let rows = cube_rows(alloc, dimensions, terminals, switch)?;
    Ok(table_of(rows.as_slice()))
}

/// The rows of a switch of a cube: of the bits from the highest down the labels of switches below, its
/// own, and of the bits from the lowest up the labels of switches above.
fn cube_rows(
    alloc: Global,
    dimensions: usize,
    terminals: usize,
    switch: usize,
) -> Result<Vec<Row>, AllocError>
    requires low { dimensions ≤ 6 }
    requires links { dimensions + terminals ≤ 32 }
    requires some { 0 < terminals }
    requires inside { switch < 2 ^ dimensions }
    requires few { 2 ^ dimensions * terminals ≤ 256 }
    ensures { IfOk result (λ rows. rows.items ≡ cube_rows dimensions terminals switch) }
{
    let mut rows = Vec::new(alloc);
    for passed in 0..dimensions {
        let bit = dimensions - 1 - passed;
        let size = 1usize << bit;
        add_row(
            &mut rows,
            (switch / size * size * terminals) as u32,
            bit as u8,
        )?;
    }
    for terminal in 0..terminals {
        let label = switch * terminals + terminal;
        add_row(&mut rows, (label + 1) as u32, (dimensions + terminal) as u8)?;
    }
    for bit in 0..dimensions {
        let size = 2usize << bit;
        let above = (switch / size + 1) * size;
        add_row(&mut rows, (above * terminals) as u32, bit as u8)?;
    }
    Ok(rows)
}
