//! Descriptions: whole networks, meshes and cubes.
ghost use Rattle.std.specs.{List.range_with_len, Prelude.{IfOk, IfSome, OnOk, [], map, ℕ, ◌*◌, ◌++◌, ◌<◌, ◌^◌, ◌∷◌, ◌≡◌, ◌≤◌}};
ghost use Rattle.{c104_describe.specs.{LineFaults.keyword_line, PlanDrafts.draft_of, PlanText.ReadsLine, ShapeLayouts.IsNear}, c104_plan.specs.Layouts.cube};
ghost use Rattle.c104_plan.specs.Layouts.{filled_name, filled_terminal, filled_wires, mesh, mesh_beyond, wire_at, wire_to, wires_from};
ghost use Rattle.c104_plan.specs.Plans.{most_switches, most_terminals};
ghost use Rattle.c104_describe.specs.declared.words.Keyword.TheVariants as keyword;
ghost use Rattle.c104_plan.specs.declared.ports.Port.TheVariants as port;

use crate::drafts::Draft;
use crate::faults::PlanFaultKind;
use crate::words::read_number_within;
use c104_plan::{
    MAX_SWITCHES, MAX_TERMINALS, Name, Network, Port, Shape, SwitchList, Terminal, TerminalList,
    Wire,
};
use c104_token::NoMemory;
use std::alloc::{AllocError, Global};

/// The links of a mesh's switch that are for its neighbours.
const MESH_LINKS: usize = 4;

/// Reads `mesh w h p`.
pub(crate) fn set_mesh(
    alloc: Global,
    draft: &mut Draft,
    width: &[u8],
    height: &[u8],
    terminals: &[u8],
) -> Result<(), PlanFaultKind>
    ensures { ReadsLine result (draft_of draft.new)
        (keyword_line (draft_of draft.old) keyword.Mesh (width.now ∷ height.now ∷ terminals.now ∷ [])) }
{
    let width = read_number_within(1, 64, width)? as usize;
    let height = read_number_within(1, 64, height)? as usize;
    let terminals = read_number_within(1, 28, terminals)? as usize;
    let switches = width * height;
    if switches > MAX_SWITCHES || switches * terminals > MAX_TERMINALS {
        return Err(PlanFaultKind::TooMany);
    }
    let wires = mesh_wires(alloc, width, height)?;
    let network = filled_network(alloc, wires, switches, switches, MESH_LINKS, terminals)?;
    draft
        .parts
        .fill(network, Shape::Mesh(width, height, terminals));
    Ok(())
}

/// Reads `cube d p`.
pub(crate) fn set_cube(
    alloc: Global,
    draft: &mut Draft,
    dimensions: &[u8],
    terminals: &[u8],
) -> Result<(), PlanFaultKind>
    ensures { ReadsLine result (draft_of draft.new)
        (keyword_line (draft_of draft.old) keyword.Cube (dimensions.now ∷ terminals.now ∷ [])) }
{
    let dimensions = read_number_within(0, 6, dimensions)? as usize;
    let terminals = read_number_within(1, 26, terminals)? as usize;
    let switches = power_of_two(dimensions);
    if switches * terminals > MAX_TERMINALS {
        return Err(PlanFaultKind::TooMany);
    }
    let wires = cube_wires(alloc, dimensions)?;
    let network = filled_network(alloc, wires, switches, switches, dimensions, terminals)?;
    draft
        .parts
        .fill(network, Shape::Cube(dimensions, terminals));
    Ok(())
}

/// `switches` switches, the first of them, the hosts, each with `terminals` terminals on its links from `links` on, and
/// the wires.
pub(crate) fn filled_network(
    alloc: Global,
    wires: Vec<Wire>,
    switches: usize,
    hosts: usize,
    links: usize,
    terminals: usize,
) -> Result<Network, NoMemory>
    requires links { links ≤ 32 }
    requires some { 0 < terminals }
    requires few_switches { switches ≤ most_switches }
    requires few_terminals { hosts * terminals ≤ most_terminals }
    ensures switches { IfOk result (λ network.
        network.switches ≡ map filled_name (range_with_len 0 switches)) }
    ensures terminals { IfOk result (λ network.
        network.terminals ≡ map (filled_terminal links terminals) (range_with_len 0 (hosts * terminals))) }
    ensures wires { IfOk result (λ network. network.wires.items ≡ wires.items) }
{
    let count = hosts * terminals;
    let switches = filled_switches(alloc, switches)?;
    let terminals = filled_terminals(alloc, links, terminals, count)?;
    Ok(Network {
        switches,
        terminals,
        wires,
    })
}

/// `count` switches.
fn filled_switches(alloc: Global, count: usize) -> Result<SwitchList, NoMemory>
    requires { count ≤ most_switches }
    ensures { IfOk result (λ list. list ≡ map filled_name (range_with_len 0 count)) }
{
    let mut switches = SwitchList::new(alloc);
    for switch in 0..count {
        let name = format!(in alloc; "s{switch}")?;
        switches.push(alloc, name.as_bytes())?;
    }
    Ok(switches)
}

/// `count` terminals, `terminals` of them on each switch, on its links from `links` on.
fn filled_terminals(
    alloc: Global,
    links: usize,
    terminals: usize,
    count: usize,
) -> Result<TerminalList, NoMemory>
    requires links { links ≤ 32 }
    requires some { 0 < terminals }
    requires few { count ≤ most_terminals }
    ensures { IfOk result (λ list.
        list ≡ map (filled_terminal links terminals) (range_with_len 0 count)) }
{
    let mut list = TerminalList::new(alloc);
    for number in 0..count {
        let terminal = filled_terminal(alloc, links, terminals, number)?;
        list.push(alloc, terminal)?;
    }
    Ok(list)
}

/// The terminal of this number.
fn filled_terminal(
    alloc: Global,
    links: usize,
    terminals: usize,
    number: usize,
) -> Result<Terminal, NoMemory>
    requires links { links ≤ 32 }
    requires some { 0 < terminals }
    requires few { number < most_terminals }
    ensures { IfOk result (λ terminal. terminal ≡ filled_terminal links terminals number) }
{
    let name = format!(in alloc; "t{number}")?;
    let name = Name::new(alloc, name.as_bytes())?;
    Ok(Terminal {
        name,
        switch: number / terminals,
        link: links + number % terminals,
        first: number as u32,
        count: 1,
    })
}

/// The wires of a mesh of `width` columns and `height` rows.
fn mesh_wires(alloc: Global, width: usize, height: usize) -> Result<Vec<Wire>, AllocError>
    requires wide { 0 < width }
    requires few { width * height ≤ most_switches }
    ensures { IfOk result (λ wires. wires.items ≡ filled_wires (mesh width height)) }
{
    let mut wires = Vec::new(alloc);
    for switch in 0..width * height {
        add_wire(
            &mut wires,
            Port::Switch(switch, 2),
            port_after(width, switch),
        )?;
        add_wire(
            &mut wires,
            Port::Switch(switch, 3),
            port_below(width, height, switch),
        )?;
    }
    Ok(wires)
}

/// Where the link of a mesh's switch to the column after it leads.
pub(crate) fn port_after(width: usize, switch: usize) -> Option<Port>
    requires wide { 0 < width }
    requires few { switch < most_switches }
    ensures end { (h : ℕ) → result ≡ mesh_beyond width h switch 2 }
    ensures near { IfSome result IsNear }
{
    if switch % width + 1 < width {
        Some(Port::Switch(switch + 1, 1))
    } else {
        None
    }
}

/// Where the link of a mesh's switch to the row below it leads.
pub(crate) fn port_below(width: usize, height: usize, switch: usize) -> Option<Port>
    requires few { width * height ≤ most_switches }
    requires inside { switch < width * height }
    ensures end { result ≡ mesh_beyond width height switch 3 }
    ensures near { IfSome result IsNear }
{
    if switch + width < width * height {
        Some(Port::Switch(switch + width, 0))
    } else {
        None
    }
}

/// The wires of a cube of `dimensions` dimensions.
fn cube_wires(alloc: Global, dimensions: usize) -> Result<Vec<Wire>, AllocError>
    requires { dimensions ≤ 6 }
    ensures { IfOk result (λ wires. wires.items ≡ filled_wires (cube dimensions)) }
{
    let mut wires = Vec::new(alloc);
    for switch in 0..power_of_two(dimensions) {
        add_cube_wires(&mut wires, dimensions, switch)?;
    }
    Ok(wires)
}

/// The wires that begin at a switch of a cube join a list.
fn add_cube_wires(wires: &mut Vec<Wire>, dimensions: usize, switch: usize) -> Result<(), AllocError>
    requires low { dimensions ≤ 6 }
    requires few { switch < most_switches }
    ensures { OnOk result (wires.new.items ≡ wires.old.items ++ wires_from (cube dimensions) switch) }
{
    for link in 0..dimensions {
        add_wire(wires, Port::Switch(switch, link), port_beyond(switch, link))?;
    }
    Ok(())
}

/// Where the link of a cube's switch leads, if a wire begins at it.
#[tactic(auto, using(crate::proofs::FilledSteps::cube_begins, crate::proofs::FilledSteps::cube_ends))]
fn port_beyond(switch: usize, link: usize) -> Option<Port>
    requires low { link ≤ 6 }
    requires few { switch < most_switches }
    ensures { (d : ℕ) → wire_to (port.Switch switch link) result ≡ wire_at (cube d) switch link }
{
    let size = power_of_two(link);
    if switch / size % 2 == 0 {
        Some(Port::Switch(switch + size, link))
    } else {
        None
    }
}

/// The wire from a port to another, where there is one, joins a list.
pub(crate) fn add_wire(
    wires: &mut Vec<Wire>,
    here: Port,
    there: Option<Port>,
) -> Result<(), AllocError>
    ensures { OnOk result (wires.new.items ≡ wires.old.items ++ wire_to here there) }
{
    if let Some(there) = there {
        wires.push(Wire { here, there })?;
    }
    Ok(())
}

/// Two to a power.
#[tactic(auto, using(c104_plan::proofs::LayoutNumbers::power_is, c104_plan::proofs::LayoutNumbers::power_small))]
pub(crate) fn power_of_two(exponent: usize) -> usize
    requires { exponent ≤ 6 }
    ensures power { result ≡ 2 ^ exponent }
    ensures few { result ≤ most_switches }
{
    1 << exponent
}
