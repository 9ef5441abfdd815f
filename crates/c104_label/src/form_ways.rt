//! Ways through a mesh, a torus, a cube or a folded Clos network.
//!
//! In a torus packets go round at most half of a row and then of a column, on the first half of the wires to a neighbour,
//! and on the second half once they have come from its last place to its first or the other way round: so no wires depend
//! on one another in a cycle. Nothing is proved of these ways but that they are found safely: labels that are made by
//! them are checked.
ghost use Rattle.std.specs.Prelude.{◌<◌};

use crate::forms::{Form, Grid, Wired};
use c104_regs::LINKS;

/// An input of a switch.
#[derive(Clone, Copy)]
pub(crate) struct Input {
    pub(crate) switch: usize,
    /// The link by which packets come from another switch. None where they come from a terminal.
    pub(crate) came_by: Option<usize>,
}

/// The links, as bits, by which a way goes on from an input to another switch. None where packets to that switch never
/// come to the input.
pub(crate) fn links_to(wired: Wired, input: Input, to: usize) -> u32 {
    match wired.form {
        Form::Grid(grid) if grid.is_closed => torus_links(grid, wired.span, input, to),
        Form::Grid(grid) => wires(mesh_link(grid, input.switch, to), wired.span),
        Form::Cube(_) => wires(cube_link(input.switch, to), wired.span),
        Form::Clos(leaves, spines) => {
            if input.switch >= leaves {
                wires(to, wired.span)
            } else if to < leaves {
                bits(0, spines.saturating_mul(wired.span))
            } else {
                wires(to - leaves, wired.span)
            }
        }
    }
}

/// The wires, as bits, that are made for one.
fn wires(link: usize, span: usize) -> u32 {
    bits(link.saturating_mul(span), span)
}

/// So many links from one on, as bits.
fn bits(first: usize, count: usize) -> u32 {
    let mut links = 0;
    for link in 0..LINKS {
        if link >= first && link - first < count {
            links |= 1u32 << link;
        }
    }
    links
}

/// In a mesh the column comes first, and then the row.
fn mesh_link(grid: Grid, switch: usize, to: usize) -> usize {
    if grid.width == 0 {
        return 0;
    }
    let row = switch / grid.width;
    let to_row = to / grid.width;
    if to_row < row {
        0
    } else if to_row > row {
        3
    } else if to < switch {
        1
    } else {
        2
    }
}

/// In a cube the highest bit that differs comes first.
fn cube_link(switch: usize, to: usize) -> usize {
    let mut highest = 0;
    for bit in 0..LINKS {
        if (switch ^ to) & (1usize << bit) != 0 {
            highest = bit;
        }
    }
    highest
}

/// A row or a column of a torus, in which packets are to go from a place to another.
#[derive(Clone, Copy)]
struct Ring {
    size: usize,
    here: usize,
    there: usize,
    /// The link for the place after, and that for the place before.
    on: usize,
    back: usize,
}

/// In a torus the row comes first, and then the column.
fn torus_links(grid: Grid, span: usize, input: Input, to: usize) -> u32 {
    if grid.width == 0 || span == 0 {
        return 0;
    }
    let row = input.switch / grid.width;
    let column = input.switch % grid.width;
    let to_row = to / grid.width;
    let to_column = to % grid.width;
    let prefers_on = row % 2 == column % 2;
    if column == to_column {
        let ring = Ring {
            size: grid.height,
            here: row,
            there: to_row,
            on: 3,
            back: 0,
        };
        return ring_links(ring, span, input.came_by, prefers_on);
    }
    let ring = Ring {
        size: grid.width,
        here: column,
        there: to_column,
        on: 2,
        back: 1,
    };
    match input.came_by {
        Some(link) if !is_along(ring, link / span) => 0,
        came_by => ring_links(ring, span, came_by, prefers_on),
    }
}

/// Whether a link is for one of a ring's neighbours.
fn is_along(ring: Ring, link: usize) -> bool {
    link == ring.on || link == ring.back
}

/// The links by which packets go round a ring, on or back where both are as near.
fn ring_links(ring: Ring, span: usize, came_by: Option<usize>, prefers_on: bool) -> u32
    requires { 0 < span }
{
    let ahead = round(ring.size, ring.here, ring.there);
    let behind = round(ring.size, ring.there, ring.here);
    match came_by {
        Some(link) if link / span == ring.back => {
            let is_behind = ring.here == 0 || is_second(link, span);
            unless(ahead > behind, half(ring.on, span, is_behind))
        }
        Some(link) if link / span == ring.on => {
            let is_behind = ring.here.saturating_add(1) == ring.size || is_second(link, span);
            unless(behind > ahead, half(ring.back, span, is_behind))
        }
        _ => {
            if ahead < behind || (ahead == behind && prefers_on) {
                half(ring.on, span, false)
            } else {
                half(ring.back, span, false)
            }
        }
    }
}

/// How many places on one is from another, round a ring.
fn round(size: usize, from: usize, to: usize) -> usize {
    if to >= from {
        to - from
    } else {
        size.saturating_sub(from - to)
    }
}

/// Whether a link is in the second half of those that are made for one.
fn is_second(link: usize, span: usize) -> bool
    requires { 0 < span }
{
    link % span >= span / 2
}

/// Half of the wires that are made for one, as bits.
fn half(link: usize, span: usize, is_second: bool) -> u32 {
    let first = link.saturating_mul(span);
    let count = span / 2;
    if is_second {
        bits(first.saturating_add(count), count)
    } else {
        bits(first, count)
    }
}

/// None of these links where packets never come.
fn unless(never: bool, links: u32) -> u32 {
    if never { 0 } else { links }
}
