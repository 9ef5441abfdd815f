//! Descriptions: forms of networks, each wire of which may be made several times.
ghost use Rattle.std.specs.Prelude.{IfOk, IfSome, OnOk, ℕ, ◌*◌, ◌++◌, ◌+◌, ◌<◌, ◌≡◌, ◌≤◌};
ghost use Rattle.c104_describe.specs.ShapeLayouts.{IsForm, IsNear, begun, layout_of, parallel, scaled, torus_beyond};
ghost use Rattle.c104_plan.specs.{Layouts.{filled_wires, wire_at, wire_to, wires_from}, Plans.most_switches};
ghost use Rattle.c104_describe.specs.declared.forms.Form.TheVariants as form;
ghost use Rattle.c104_plan.specs.declared.ports.Port.TheVariants as port;

use crate::fills::{add_wire, port_after, port_below, power_of_two};
use c104_plan::{Port, Wire};
use std::alloc::{AllocError, Global};

/// How the switches of a network are joined in which all are alike.
#[derive(Clone, Copy)]
pub(crate) enum Form {
    /// A mesh: its width and its height.
    Mesh(usize, usize),
    /// A torus: its width and its height.
    Torus(usize, usize),
    /// A cube: its dimension.
    Cube(usize),
    /// A folded Clos network: how many leaves it has, and how many spines.
    Clos(usize, usize),
}

/// How many switches a form has.
pub(crate) fn switch_count(form: Form) -> usize
    requires { IsForm form }
    ensures count { result ≡ (layout_of form).switches }
    ensures few { result ≤ most_switches }
{
    match form {
        Form::Mesh(width, height) => width * height,
        Form::Torus(width, height) => width * height,
        Form::Cube(dimensions) => power_of_two(dimensions),
        Form::Clos(leaves, spines) => leaves + spines,
    }
}

/// How many links of each switch of a form are for others, at most.
fn link_count(form: Form) -> usize
    requires { IsForm form }
    ensures count { result ≡ (layout_of form).links }
    ensures few { result ≤ most_switches }
{
    match form {
        Form::Mesh(_, _) => 4,
        Form::Torus(_, _) => 4,
        Form::Cube(dimensions) => dimensions,
        Form::Clos(leaves, spines) => { if leaves <= spines { spines } else { leaves } }
    }
}

/// The wires of a form, each made `count` times.
pub(crate) fn form_wires(alloc: Global, form: Form, count: usize) -> Result<Vec<Wire>, AllocError>
    requires form { IsForm form }
    requires some { 0 < count }
    requires few { count ≤ 32 }
    ensures { IfOk result (λ wires. wires.items ≡ filled_wires (parallel count (layout_of form))) }
{
    let mut wires = Vec::new(alloc);
    for switch in 0..switch_count(form) {
        add_wires_from(&mut wires, form, count, switch)?;
    }
    Ok(wires)
}

/// The wires that begin at a switch join a list.
fn add_wires_from(
    wires: &mut Vec<Wire>,
    form: Form,
    count: usize,
    switch: usize,
) -> Result<(), AllocError>
    requires form { IsForm form }
    requires some { 0 < count }
    requires few { count ≤ 32 }
    requires inside { switch < (layout_of form).switches }
    ensures { OnOk result (wires.new.items ≡ wires.old.items ++ wires_from (parallel count (layout_of form)) switch) }
{
    for link in 0..link_count(form) * count {
        let here = Port::Switch(switch, link);
        add_wire(wires, here, wire_end(form, count, switch, link))?;
    }
    Ok(())
}

/// Where the wire leads that begins at a link of a switch, if one does.
#[tactic(auto, using(crate::proofs::ShapeJoins::link_within, crate::proofs::ShapeJoins::wire_of_many))]
fn wire_end(form: Form, count: usize, switch: usize, link: usize) -> Option<Port>
    requires form { IsForm form }
    requires some { 0 < count }
    requires few { count ≤ 32 }
    requires inside { switch < (layout_of form).switches }
    requires link { link < (layout_of form).links * count }
    ensures { wire_to (port.Switch switch link) result ≡ wire_at (parallel count (layout_of form)) switch link }
{
    let end = begun(form, switch, link / count);
    scaled(end, count, link % count)
}

/// The far end of one of the wires that are made for one, the one at this place.
fn scaled(end: Option<Port>, count: usize, place: usize) -> Option<Port>
    requires near { IfSome end IsNear }
    requires few { count ≤ 32 }
    requires place { place < count }
    ensures { result ≡ scaled count place end }
{
    match end {
        Some(Port::Switch(switch, link)) => Some(Port::Switch(switch, link * count + place)),
        Some(Port::Terminal(_)) => None,
        None => None,
    }
}

/// Where the wire of a form leads that begins at a link of a switch, if one does.
#[tactic(auto, using(c104_plan::proofs::LayoutNumbers::power_small))]
fn begun(form: Form, switch: usize, link: usize) -> Option<Port>
    requires form { IsForm form }
    requires inside { switch < (layout_of form).switches }
    requires link { link < (layout_of form).links }
    ensures end { result ≡ begun (layout_of form) switch link }
    ensures near { IfSome result IsNear }
{
    match form {
        Form::Mesh(width, height) => mesh_begun(width, height, switch, link),
        Form::Torus(width, height) => torus_begun(width, height, switch, link),
        Form::Cube(dimensions) => cube_begun(dimensions, switch, link),
        Form::Clos(leaves, spines) => clos_begun(leaves, spines, switch, link),
    }
}

/// The same of a mesh.
#[tactic(auto, using(crate::proofs::ShapeJoins::mesh_three))]
fn mesh_begun(width: usize, height: usize, switch: usize, link: usize) -> Option<Port>
    requires wide { 0 < width }
    requires few { width * height ≤ most_switches }
    requires inside { switch < width * height }
    requires link { link < 4 }
    ensures end { result ≡ begun (layout_of (form.Mesh width height)) switch link }
    ensures near { IfSome result IsNear }
{
    if link < 2 {
        None
    } else if link == 2 {
        port_after(width, switch)
    } else {
        port_below(width, height, switch)
    }
}

/// The same of a torus.
#[tactic(auto, using(crate::proofs::ShapeJoins::torus_three))]
fn torus_begun(width: usize, height: usize, switch: usize, link: usize) -> Option<Port>
    requires wide { 0 < width }
    requires few { width * height ≤ most_switches }
    requires inside { switch < width * height }
    requires link { link < 4 }
    ensures end { result ≡ begun (layout_of (form.Torus width height)) switch link }
    ensures near { IfSome result IsNear }
{
    if link < 2 {
        None
    } else if link == 2 {
        torus_after(width, switch)
    } else {
        torus_below(width, height, switch)
    }
}

/// Where the link of a torus's switch to the column after it leads.
fn torus_after(width: usize, switch: usize) -> Option<Port>
    requires wide { 0 < width }
    requires few { switch < most_switches }
    ensures end { (h : ℕ) → result ≡ torus_beyond width h switch 2 }
    ensures near { IfSome result IsNear }
{
    if width <= 1 {
        None
    } else if switch % width + 1 < width {
        Some(Port::Switch(switch + 1, 1))
    } else {
        Some(Port::Switch(switch + 1 - width, 1))
    }
}

/// Where the link of a torus's switch to the row below it leads.
fn torus_below(width: usize, height: usize, switch: usize) -> Option<Port>
    requires few { width * height ≤ most_switches }
    requires inside { switch < width * height }
    ensures end { result ≡ torus_beyond width height switch 3 }
    ensures near { IfSome result IsNear }
{
    if height <= 1 {
        None
    } else if switch + width < width * height {
        Some(Port::Switch(switch + width, 0))
    } else {
        Some(Port::Switch(switch + width - width * height, 0))
    }
}

/// The same of a cube.
#[tactic(auto, using(crate::proofs::ShapeJoins::cube_begins, crate::proofs::ShapeJoins::cube_ends))]
fn cube_begun(dimensions: usize, switch: usize, link: usize) -> Option<Port>
    requires low { dimensions ≤ 6 }
    requires few { switch < most_switches }
    requires link { link < dimensions }
    ensures end { result ≡ begun (layout_of (form.Cube dimensions)) switch link }
    ensures near { IfSome result IsNear }
{
    let size = power_of_two(link);
    if switch / size % 2 == 0 {
        Some(Port::Switch(switch + size, link))
    } else {
        None
    }
}

/// The same of a folded Clos network.
#[tactic(auto, using(crate::proofs::ShapeJoins::clos_begins, crate::proofs::ShapeJoins::clos_ends, crate::proofs::ShapeJoins::clos_apart))]
fn clos_begun(leaves: usize, spines: usize, switch: usize, link: usize) -> Option<Port>
    requires few { leaves + spines ≤ most_switches }
    requires inside { switch < leaves + spines }
    ensures end { result ≡ begun (layout_of (form.Clos leaves spines)) switch link }
    ensures near { IfSome result IsNear }
{
    if switch < leaves && link < spines {
        Some(Port::Switch(leaves + link, switch))
    } else {
        None
    }
}
