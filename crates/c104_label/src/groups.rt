//! Groups of links: neighbouring links that are equally good for all labels.
//!
//! Nothing is proved of them but that they are found safely: an image that has them is checked.

use crate::fabric::Fabric;
use crate::ways::Ways;
use c104_regs::LINKS;
use std::alloc::{AllocError, Global};

/// The links of each switch that continue groups, as bits: those that do so by lines of the plan, and at a switch of which
/// these say nothing, those that some label takes by a shortest way and that no label takes without the link before.
pub(crate) fn all_continues(
    alloc: Global,
    fabric: &Fabric,
    ways: &Ways,
) -> Result<Vec<u32>, AllocError> {
    let mut all = Vec::new(alloc);
    for switch in 0..fabric.switches() {
        let own = fabric.continues(switch);
        let continues = if own == 0 {
            equal_links(fabric, ways, switch)
        } else {
            own
        };
        all.push(continues)?;
    }
    Ok(all)
}

/// The links of a switch that are as good as the link before for all labels.
fn equal_links(fabric: &Fabric, ways: &Ways, switch: usize) -> u32 {
    let mut used = 0u32;
    let mut differing = 0u32;
    for to in 0..fabric.switches() {
        if to != switch && fabric.labels(to) != 0 {
            for came_down in [false, true] {
                let links = ways.links(switch, came_down, to, true);
                used |= links;
                differing |= links ^ (links << 1);
            }
        }
    }
    used & (used << 1) & !differing
}

/// Of the groups of a switch's links those that lie wholly among these links: the first link of each, as a bit.
pub(crate) fn whole_groups(links: u32, continues: u32) -> u32 {
    let mut whole = 0u32;
    let mut first = 0u32;
    for link in 0..LINKS {
        let bit = 1u32 << link;
        if continues & bit == 0 {
            whole |= first;
            first = bit;
        }
        if links & bit == 0 {
            first = 0;
        }
    }
    whole | first
}

/// How many links the group has that begins with a link.
pub(crate) fn group_size(link: usize, continues: u32) -> usize {
    let mut size = 1usize;
    for next in 0..LINKS {
        if next == link.saturating_add(size) && continues & (1u32 << next) != 0 {
            size = size.saturating_add(1);
        }
    }
    size
}

/// The first link of the group of a link.
pub(crate) fn group_first(link: usize, continues: u32) -> usize {
    let mut first = 0usize;
    for next in 0..LINKS {
        if next <= link && continues & (1u32 << next) == 0 {
            first = next;
        }
    }
    first
}
