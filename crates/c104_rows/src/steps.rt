//! The steps of what is counted of links.
ghost use Rattle.std.specs.Prelude.{slice_get, ◌≡◌};
ghost use Rattle.c104_rows.specs.{Counts.{change_link, idle_of, link_at, link_row, links_cut}, Links.{link_after, link_cut}};
ghost use Rattle.c104_rows.specs.Packets.{change_at};

use crate::links::{Crossing, LinkRow};
use c104_regs::LINKS;

/// The place of a switch's link among this many links of switches, if the switch has this link.
pub(crate) fn link_at(count: usize, switch: usize, link: usize) -> Option<usize>
    ensures { result ≡ link_at count switch link }
{
    if link < LINKS && switch < count / LINKS {
        Some(switch * LINKS + link)
    } else {
        None
    }
}

/// A token crosses at a link of a switch. The answer is for how many rounds nothing moved there of the packet.
pub(crate) fn cross_link(
    links: &mut [LinkRow],
    switch: usize,
    link: usize,
    crossing: Crossing,
) -> u64
    ensures links { links.new ≡ change_link links.old switch link (λ row. link_after row crossing) }
    ensures idle { result ≡ idle_of (link_row links.old switch link) crossing.round }
{
    match link_at(links.len(), switch, link) {
        Some(place) => cross_wire(links, place, crossing),
        None => 0,
    }
}

/// The same at a place among links.
pub(crate) fn cross_wire(links: &mut [LinkRow], place: usize, crossing: Crossing) -> u64
    ensures links { links.new ≡ change_at links.old place (λ row. link_after row crossing) }
    ensures idle { result ≡ idle_of (slice_get links.old place) crossing.round }
{
    let Some(row) = links.get(place).copied() else {
        return 0;
    };
    links[place] = row.after(crossing);
    row.idle(crossing.round)
}

/// The packets that hold the links of a switch in this round hold them no more.
#[tactic(auto, using(crate::proofs::NumberSteps::none_yet, crate::proofs::NumberSteps::one_more))]
pub(crate) fn cut_links(links: &mut [LinkRow], switch: usize, round: u32)
    ensures { links.new ≡ links_cut round switch links.old }
{
    for link in 0..LINKS {
        cut_link(links, switch, link, round);
    }
}

/// The same of a link of the switch.
fn cut_link(links: &mut [LinkRow], switch: usize, link: usize, round: u32)
    ensures { links.new ≡ change_link links.old switch link (link_cut round) }
{
    let Some(place) = link_at(links.len(), switch, link) else {
        return;
    };
    let Some(row) = links.get(place).copied() else {
        return;
    };
    links[place] = row.cut(round);
}
