//! The labels of a mesh.
ghost use Rattle.std.specs.{List.range_with_len, Prelude.{IfOk, IsTrue, length, map, nat_le, nat_lt, ◌&&◌, ◌*◌, ◌+◌, ◌/◌, ◌<◌, ◌↔◌, ◌≡◌}};
ghost use Rattle.std.specs.Prelude.{◌≤◌};
ghost use Rattle.c104_label.specs.MeshLabels.{AreMeshTables, IsMesh, mesh_rows, mesh_table};
ghost use Rattle.c104_plan.specs.{LabelledImages.labelled_image, PlanImage.{Fits, range_of}};

use crate::images::image_with;
use crate::rows::{add_row, table_of};
use c104_interval::{Row, Table};
use c104_plan::{Image, Plan};
use c104_token::NoMemory;
use std::alloc::{AllocError, Global};

/// Whether these are a mesh's sizes: 1 to 64 columns, 1 to 64 rows, 1 to 28 terminals at each switch, and at
/// most 64 switches and 256 terminals in all.
pub fn is_mesh(width: usize, height: usize, terminals: usize) -> bool
    ensures { IsTrue result ↔ IsMesh width height terminals }
{
    if !is_within(width, 64) || !is_within(height, 64) || !is_within(terminals, 28) {
        return false;
    }
    width * height <= 64 && width * height * terminals <= 256
}

/// Whether a number is 1 to this one.
fn is_within(number: usize, last: usize) -> bool
    ensures { result ≡ (nat_lt 0 number && nat_le number last) }
{
    0 < number && number <= last
}

/// The tables of a mesh's switches, by number: a mesh of `width` columns and `height` rows, whose switches
/// have `terminals` terminals each.
///
/// Labels go along the column first, so that they come to the row of the switch that they are for, and
/// then along the row. The rows of a table are in ascending order, and none is of no label. The only
/// error is out of memory.
#[tactic(auto, using(crate::proofs::MeshTables::are_mesh_tables))]
pub fn mesh_tables(
    alloc: Global,
    width: usize,
    height: usize,
    terminals: usize,
) -> Result<Vec<Table>, NoMemory>
    requires { IsMesh width height terminals }
    ensures tables { IfOk result (λ tables. tables.items
        ≡ map (mesh_table width height terminals) (range_with_len 0 (width * height))) }
    ensures labels { AreMeshTables width height terminals }
{
    let mut tables = Vec::new(alloc);
    for switch in 0..width * height {
        tables.push(mesh_table(alloc, width, height, terminals, switch)?)?;
    }
    Ok(tables)
}

/// The image of a plan whose switches are those of a mesh of `width` columns and `height` rows, with `terminals`
/// terminals each: at each port that has a wire the table of its switch, and all else as the plan's own lines
/// say. The only error is out of memory.
#[tactic(auto, using(crate::proofs::MeshTables::are_mesh_tables))]
pub(crate) fn mesh_image(
    alloc: Global,
    plan: &Plan,
    width: usize,
    height: usize,
    terminals: usize,
) -> Result<Image, NoMemory>
    requires sizes { IsMesh width height terminals }
    requires switches { length plan.now.switches ≡ width * height }
    ensures image { IfOk result (λ image. image ≡ labelled_image plan.now
        (map range_of plan.now.terminals)
        (map (mesh_table width height terminals) (range_with_len 0 (width * height)))) }
    ensures fits { IfOk result (λ image. Fits image plan.now) }
    ensures labels { AreMeshTables width height terminals }
{
    let tables = mesh_tables(alloc, width, height, terminals)?;
    image_with(alloc, plan, tables.as_slice())
}

/// The table of a switch of a mesh.
#[tactic(auto, using(crate::proofs::MeshTables::mesh_few))]
fn mesh_table(
    alloc: Global,
    width: usize,
    height: usize,
    terminals: usize,
    switch: usize,
) -> Result<Table, AllocError>
    requires wide { 0 < width }
    requires some { 0 < terminals }
    requires inside { switch < width * height }
    requires links { terminals ≤ 28 }
    requires few { width * height * terminals ≤ 256 }
    ensures { IfOk result (λ table. table ≡ mesh_table width height terminals switch) }
{
    let rows = mesh_rows(alloc, width, height, terminals, switch)?;
    Ok(table_of(rows.as_slice()))
}

/// Where the labels of the rows above a switch's own row of a mesh end, and those of the switches before it. They are
/// computed here and not where rows are added, since that they fit is proved by products.
#[tactic(auto, using(crate::proofs::MeshRows::own_small))]
fn first_limits(width: usize, height: usize, terminals: usize, switch: usize) -> (u32, usize)
    requires wide { 0 < width }
    requires some { 0 < terminals }
    requires inside { switch < width * height }
    requires few { width * height * terminals ≤ 256 }
    ensures above { result.0 ≡ switch / width * width * terminals }
    ensures own { result.1 ≡ switch * terminals }
    ensures small { result.1 + terminals ≤ 256 }
{
    let above = switch / width * width;
    ((above * terminals) as u32, switch * terminals)
}

/// Where the labels of a switch's row of a mesh end, and those of the mesh. They are computed here for the same
/// reason.
fn last_limits(width: usize, height: usize, terminals: usize, switch: usize) -> (u32, u32)
    requires wide { 0 < width }
    requires some { 0 < terminals }
    requires inside { switch < width * height }
    requires few { width * height * terminals ≤ 256 }
    ensures row { result.0 ≡ (switch / width * width + width) * terminals }
    ensures mesh { result.1 ≡ width * height * terminals }
{
    let end = switch / width * width + width;
    (
        (end * terminals) as u32,
        (width * height * terminals) as u32,
    )
}

/// The rows of a switch of a mesh: the labels of the rows above, of the switches before it in its row,
/// its own, of those after it and of the rows below.
#[tactic(auto, using(crate::proofs::MeshRows::front_first, crate::proofs::MeshRows::front_next))]
fn mesh_rows(
    alloc: Global,
    width: usize,
    height: usize,
    terminals: usize,
    switch: usize,
) -> Result<Vec<Row>, AllocError>
    requires wide { 0 < width }
    requires some { 0 < terminals }
    requires inside { switch < width * height }
    requires links { terminals ≤ 28 }
    requires few { width * height * terminals ≤ 256 }
    ensures { IfOk result (λ rows. rows.items ≡ mesh_rows width height terminals switch) }
{
    let (above, own) = first_limits(width, height, terminals, switch);
    let (row, mesh) = last_limits(width, height, terminals, switch);
    let mut rows = Vec::new(alloc);
    add_row(&mut rows, above, 0)?;
    add_row(&mut rows, own as u32, 1)?;
    for terminal in 0..terminals {
        let label = own + terminal;
        add_row(&mut rows, (label + 1) as u32, (4 + terminal) as u8)?;
    }
    add_row(&mut rows, row, 2)?;
    add_row(&mut rows, mesh, 3)?;
    Ok(rows)
}
