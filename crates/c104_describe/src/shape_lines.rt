//! Descriptions: whole networks that are labelled up and down from their first switch.
ghost use Rattle.std.specs.Prelude.{OnOk, [], ◌*◌, ◌+◌, ◌<◌, ◌∷◌, ◌≡◌, ◌≤◌};
ghost use Rattle.c104_describe.specs.{LineFaults.{keyword_line, read_parts}, PlanDrafts.draft_of, PlanLines.{clos_parts, torus_parts}};
ghost use Rattle.c104_describe.specs.{PlanLines.with_plan, PlanText.ReadsLine, ShapeLayouts.{IsForm, hosted_plan, layout_of, parallel}};
ghost use Rattle.c104_plan.specs.Plans.{most_terminals};
ghost use Rattle.c104_describe.specs.declared.words.Keyword.TheVariants as keyword;

use crate::drafts::Draft;
use crate::faults::PlanFaultKind;
use crate::fills::filled_network;
use crate::forms::{Form, form_wires, switch_count};
use crate::words::read_number_within;
use c104_plan::{MAX_SWITCHES, MAX_TERMINALS, Shape};
use c104_regs::LINKS;
use c104_token::NoMemory;
use std::alloc::Global;

/// Reads `mesh w h p k`.
pub(crate) fn set_wide_mesh(
    alloc: Global,
    draft: &mut Draft,
    width: &[u8],
    height: &[u8],
    terminals: &[u8],
    wires: &[u8],
) -> Result<(), PlanFaultKind>
    ensures { ReadsLine result (draft_of draft.new)
        (keyword_line (draft_of draft.old) keyword.Mesh (width.now ∷ height.now ∷ terminals.now ∷ wires.now ∷ [])) }
{
    let width = read_number_within(1, 64, width)? as usize;
    let height = read_number_within(1, 64, height)? as usize;
    let terminals = read_number_within(1, 28, terminals)? as usize;
    let wires = read_number_within(2, 7, wires)? as usize;
    let switches = width * height;
    let links = 4 * wires;
    if switches > MAX_SWITCHES
        || switches * terminals > MAX_TERMINALS
        || links + terminals > LINKS
    {
        return Err(PlanFaultKind::TooMany);
    }
    fill(
        alloc,
        draft,
        Form::Mesh(width, height),
        wires,
        switches,
        links,
        terminals,
    )?;
    Ok(())
}

/// Reads `cube d p k`.
pub(crate) fn set_wide_cube(
    alloc: Global,
    draft: &mut Draft,
    dimensions: &[u8],
    terminals: &[u8],
    wires: &[u8],
) -> Result<(), PlanFaultKind>
    ensures { ReadsLine result (draft_of draft.new)
        (keyword_line (draft_of draft.old) keyword.Cube (dimensions.now ∷ terminals.now ∷ wires.now ∷ [])) }
{
    let dimensions = read_number_within(0, 6, dimensions)? as usize;
    let terminals = read_number_within(1, 26, terminals)? as usize;
    let wires = read_number_within(2, 31, wires)? as usize;
    let form = Form::Cube(dimensions);
    let switches = switch_count(form);
    let links = dimensions * wires;
    if switches * terminals > MAX_TERMINALS || links + terminals > LINKS {
        return Err(PlanFaultKind::TooMany);
    }
    fill(alloc, draft, form, wires, switches, links, terminals)?;
    Ok(())
}

/// Reads `torus w h p k`.
pub(crate) fn set_torus(
    alloc: Global,
    draft: &mut Draft,
    width: &[u8],
    height: &[u8],
    terminals: &[u8],
    wires: &[u8],
) -> Result<(), PlanFaultKind>
    ensures { ReadsLine result (draft_of draft.new) (read_parts (draft_of draft.old).plan
        (torus_parts (draft_of draft.old) width.now height.now terminals.now wires.now)) }
{
    let width = read_number_within(1, 64, width)? as usize;
    let height = read_number_within(1, 64, height)? as usize;
    let terminals = read_number_within(1, 24, terminals)? as usize;
    let wires = read_number_within(1, 3, wires)? as usize;
    let switches = width * height;
    let links = 4 * (2 * wires);
    if switches > MAX_SWITCHES
        || switches * terminals > MAX_TERMINALS
        || links + terminals > LINKS
    {
        return Err(PlanFaultKind::TooMany);
    }
    fill(
        alloc,
        draft,
        Form::Torus(width, height),
        2 * wires,
        switches,
        links,
        terminals,
    )?;
    Ok(())
}

/// Reads `clos m s p k`.
pub(crate) fn set_clos(
    alloc: Global,
    draft: &mut Draft,
    leaves: &[u8],
    spines: &[u8],
    terminals: &[u8],
    wires: &[u8],
) -> Result<(), PlanFaultKind>
    ensures { ReadsLine result (draft_of draft.new) (read_parts (draft_of draft.old).plan
        (clos_parts (draft_of draft.old) leaves.now spines.now terminals.now wires.now)) }
{
    let leaves = read_number_within(1, 32, leaves)? as usize;
    let spines = read_number_within(1, 31, spines)? as usize;
    let terminals = read_number_within(1, 31, terminals)? as usize;
    let wires = read_number_within(1, 31, wires)? as usize;
    let links = spines * wires;
    if leaves * terminals > MAX_TERMINALS || links + terminals > LINKS || leaves * wires > LINKS {
        return Err(PlanFaultKind::TooMany);
    }
    fill(
        alloc,
        draft,
        Form::Clos(leaves, spines),
        wires,
        leaves,
        links,
        terminals,
    )?;
    Ok(())
}

/// The network becomes one of a form, each of whose wires is made `count` times. The first switches have `terminals`
/// terminals each, on their links from `first` on.
fn fill(
    alloc: Global,
    draft: &mut Draft,
    form: Form,
    count: usize,
    hosts: usize,
    first: usize,
    terminals: usize,
) -> Result<(), NoMemory>
    requires form { IsForm form }
    requires some_wires { 0 < count }
    requires few_wires { count ≤ 32 }
    requires some { 0 < terminals }
    requires few { hosts * terminals ≤ most_terminals }
    requires links { first ≤ 32 }
    ensures { OnOk result (draft_of draft.new ≡ with_plan (draft_of draft.old)
        (hosted_plan (parallel count (layout_of form)) hosts first terminals (draft_of draft.old).plan)) }
{
    let wires = form_wires(alloc, form, count)?;
    let mut network = filled_network(alloc, wires, switch_count(form), hosts, first, terminals)?;
    network.terminals.forget_ranges();
    draft.parts.fill(network, Shape::UpDown(Some(0)));
    Ok(())
}
