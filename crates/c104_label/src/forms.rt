//! Networks in which all switches are alike, as their wires tell.
//!
//! Nothing is proved of which form is found but that it is found safely: labels that are made by it are checked.

use c104_plan::{Plan, Port, Shape};
use c104_regs::LINKS;

/// Rows and columns of switches. Of each switch link 0 is for the row above, 1 for the column before, 2 for the column
/// after, and 3 for the row below.
#[derive(Clone, Copy)]
pub(crate) struct Grid {
    /// How many columns there are.
    pub(crate) width: usize,
    /// How many rows there are.
    pub(crate) height: usize,
    /// Whether the first and the last are neighbours too.
    pub(crate) is_closed: bool,
}

/// How switches are joined, each wire by itself.
#[derive(Clone, Copy)]
pub(crate) enum Form {
    /// A mesh, or a torus.
    Grid(Grid),
    /// A cube of this dimension: each switch is joined to those whose number differs in one bit, by the link of that bit.
    Cube(usize),
    /// How many leaves there are, and how many spines after them: each leaf is joined to each spine, by the link of the
    /// other's number.
    Clos(usize, usize),
}

/// A form, and how many wires are made for each one of it.
#[derive(Clone, Copy)]
pub(crate) struct Wired {
    pub(crate) form: Form,
    /// Those that stand for link l begin at l times this.
    pub(crate) span: usize,
}

/// The form of a plan's network that is to be labelled from its first switch, with no groups of its own lines. None where
/// it has no such form, nor where it is a mesh or a cube of single wires.
pub(crate) fn form_of(plan: &Plan) -> Option<Wired> {
    if plan.shape() != Shape::UpDown(Some(0))
        || plan.wires().is_empty()
        || !plan.continues().is_empty()
    {
        return None;
    }
    wired_form(plan)
}

/// The same of its wires alone.
fn wired_form(plan: &Plan) -> Option<Wired> {
    for span in 1..LINKS {
        let found = grid_of(plan, span);
        if found.is_some() {
            return found;
        }
        let found = cube_or_clos(plan, span);
        if found.is_some() {
            return found;
        }
    }
    None
}

/// The mesh or torus that a network is, with `span` wires for each of its own.
fn grid_of(plan: &Plan, span: usize) -> Option<Wired> {
    let switches = plan.switches().len();
    for before in 0..switches {
        let width = before + 1;
        let height = switches / width;
        let mesh = grid_with(width, height, false, span);
        if span > 1 && has_form(plan, mesh) {
            return Some(mesh);
        }
        let torus = grid_with(width, height, true, span);
        if span % 2 == 0 && has_form(plan, torus) {
            return Some(torus);
        }
    }
    None
}

/// A grid with `span` wires for each of its own.
fn grid_with(width: usize, height: usize, is_closed: bool, span: usize) -> Wired {
    Wired {
        form: Form::Grid(Grid {
            width,
            height,
            is_closed,
        }),
        span,
    }
}

/// The cube or folded Clos network that a network is, with `span` wires for each of its own.
fn cube_or_clos(plan: &Plan, span: usize) -> Option<Wired> {
    let switches = plan.switches().len();
    for dimensions in 0..7usize {
        let cube = Wired {
            form: Form::Cube(dimensions),
            span,
        };
        if span > 1 && switches == 1usize << dimensions && has_form(plan, cube) {
            return Some(cube);
        }
    }
    for leaves in 1..switches {
        let clos = Wired {
            form: Form::Clos(leaves, switches - leaves),
            span,
        };
        if has_form(plan, clos) {
            return Some(clos);
        }
    }
    None
}

/// Whether wires join a plan's switches as in a form.
fn has_form(plan: &Plan, wired: Wired) -> bool {
    for switch in 0..plan.switches().len() {
        if !has_links(plan, wired, switch) {
            return false;
        }
    }
    true
}

/// Whether they do so at all links of a switch.
fn has_links(plan: &Plan, wired: Wired, switch: usize) -> bool {
    for link in 0..LINKS {
        if !has_link(plan, wired, switch, link) {
            return false;
        }
    }
    true
}

/// Whether they do so at a link of a switch.
fn has_link(plan: &Plan, wired: Wired, switch: usize, link: usize) -> bool {
    match (
        plan.peer(Port::Switch(switch, link)),
        end(wired, switch, link),
    ) {
        (Some(Port::Switch(to, back)), Some((due, due_back))) => to == due && back == due_back,
        (Some(Port::Switch(_, _)), None) => false,
        (_, Some(_)) => false,
        (_, None) => true,
    }
}

/// The links of a switch that continue groups, as bits: of the wires that are made for one all but the first, in a torus
/// of either half of them, and of all wires of a leaf.
pub(crate) fn form_continues(wired: Wired, switch: usize) -> u32 {
    let mut continues = 0u32;
    for link in 0..LINKS {
        if end(wired, switch, link).is_some() && !begins_group(wired, switch, link) {
            continues |= 1u32 << link;
        }
    }
    continues
}

/// Whether a group begins at a link of a switch that has a wire.
fn begins_group(wired: Wired, switch: usize, link: usize) -> bool {
    match wired.form {
        Form::Grid(grid) if grid.is_closed => is_multiple(link, wired.span / 2),
        Form::Grid(_) => is_multiple(link, wired.span),
        Form::Cube(_) => is_multiple(link, wired.span),
        Form::Clos(leaves, _) if switch < leaves => link == 0,
        Form::Clos(_, _) => is_multiple(link, wired.span),
    }
}

/// Whether a number is a multiple of another, or that is 0.
fn is_multiple(number: usize, of: usize) -> bool {
    of == 0 || number % of == 0
}

/// The switch to which a link of a switch leads, and that switch's link.
fn end(wired: Wired, switch: usize, link: usize) -> Option<(usize, usize)> {
    if wired.span == 0 {
        return None;
    }
    let place = link % wired.span;
    match form_end(wired.form, switch, link / wired.span) {
        Some((to, back)) => Some((to, back.saturating_mul(wired.span).saturating_add(place))),
        None => None,
    }
}

/// The same, where each wire is by itself.
fn form_end(form: Form, switch: usize, link: usize) -> Option<(usize, usize)> {
    match form {
        Form::Grid(grid) => grid_end(grid, switch, link),
        Form::Cube(dimensions) => {
            if link < dimensions && link < LINKS {
                Some((switch ^ (1usize << link), link))
            } else {
                None
            }
        }
        Form::Clos(leaves, spines) => {
            if switch < leaves && link < spines {
                Some((leaves.saturating_add(link), switch))
            } else if switch >= leaves && link < leaves {
                Some((link, switch - leaves))
            } else {
                None
            }
        }
    }
}

/// The same in a mesh or a torus.
fn grid_end(grid: Grid, switch: usize, link: usize) -> Option<(usize, usize)> {
    if grid.width == 0 {
        return None;
    }
    let row = switch / grid.width;
    let column = switch % grid.width;
    match link {
        0 => {
            let row = place_before(grid.height, row, grid.is_closed)?;
            Some((switch_at(grid, row, column), 3))
        }
        1 => {
            let column = place_before(grid.width, column, grid.is_closed)?;
            Some((switch_at(grid, row, column), 2))
        }
        2 => {
            let column = place_after(grid.width, column, grid.is_closed)?;
            Some((switch_at(grid, row, column), 1))
        }
        3 => {
            let row = place_after(grid.height, row, grid.is_closed)?;
            Some((switch_at(grid, row, column), 0))
        }
        _ => None,
    }
}

/// The switch in a row and a column.
fn switch_at(grid: Grid, row: usize, column: usize) -> usize {
    row.saturating_mul(grid.width).saturating_add(column)
}

/// The place after one of a row or a column.
fn place_after(size: usize, place: usize, is_closed: bool) -> Option<usize> {
    let next = place.saturating_add(1);
    if next < size {
        Some(next)
    } else if is_closed && size > 1 {
        Some(0)
    } else {
        None
    }
}

/// The place before one of a row or a column.
fn place_before(size: usize, place: usize, is_closed: bool) -> Option<usize> {
    if place > 0 {
        Some(place - 1)
    } else if is_closed && size > 1 {
        Some(size - 1)
    } else {
        None
    }
}
