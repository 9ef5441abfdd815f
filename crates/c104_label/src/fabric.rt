//! What is asked of a plan again and again while ways are found: where each link leads, how many labels lie behind it,
//! and which links continue groups by lines of the plan.

use crate::numbers::{count_at, labels_behind, own_counts};
use c104_plan::{Plan, Port};
use c104_regs::LINKS;
use std::alloc::{AllocError, Global};

/// A plan's switches and their links, by switch and then by link.
#[derive(Drop)]
pub(crate) struct Fabric {
    /// What each link is wired to.
    peers: Vec<Option<Port>>,
    /// How many labels each switch has of its own.
    counts: Vec<u32>,
    /// How many of them lie behind each link.
    labels: Vec<u32>,
    /// The links of each switch that continue groups, as bits.
    continues: Vec<u32>,
}

/// How many labels switches and links have.
#[derive(Drop)]
struct Labels {
    counts: Vec<u32>,
    behind: Vec<u32>,
}

impl Fabric {
    /// That of a plan.
    pub(crate) fn new(alloc: Global, plan: &Plan) -> Result<Fabric, AllocError> {
        let labels = labels_of(alloc, plan)?;
        let continues = continues_of(alloc, plan)?;
        let peers = peers_of(alloc, plan)?;
        Ok(Fabric {
            peers,
            counts: labels.counts,
            labels: labels.behind,
            continues,
        })
    }

    /// How many switches there are.
    pub(crate) fn switches(&self) -> usize {
        self.counts.len()
    }

    /// What a link of a switch is wired to.
    pub(crate) fn peer(&self, switch: usize, link: usize) -> Option<Port> {
        match self.peers.get(place_of(switch, link)) {
            Some(peer) => *peer,
            None => None,
        }
    }

    /// How many labels a switch has of its own.
    pub(crate) fn labels(&self, switch: usize) -> u32 {
        count_at(self.counts.as_slice(), switch)
    }

    /// How many of them lie behind a link.
    pub(crate) fn labels_behind(&self, switch: usize, link: usize) -> u32 {
        count_at(self.labels.as_slice(), place_of(switch, link))
    }

    /// The links of a switch that continue groups by lines of the plan, as bits.
    pub(crate) fn continues(&self, switch: usize) -> u32 {
        count_at(self.continues.as_slice(), switch)
    }

    /// How many terminals a switch has.
    pub(crate) fn terminals(&self, switch: usize) -> u64 {
        let mut terminals = 0u64;
        for link in 0..LINKS {
            if let Some(Port::Terminal(_)) = self.peer(switch, link) {
                terminals = terminals.saturating_add(1);
            }
        }
        terminals
    }
}

/// The place of a link among those of all switches.
pub(crate) fn place_of(switch: usize, link: usize) -> usize {
    switch.saturating_mul(LINKS).saturating_add(link)
}

/// How many labels a plan's switches and links have.
fn labels_of(alloc: Global, plan: &Plan) -> Result<Labels, AllocError> {
    let counts = own_counts(alloc, plan)?;
    let mut behind = Vec::new(alloc);
    for place in 0..plan.switches().len() * LINKS {
        behind.push(labels_behind(plan, place / LINKS, place % LINKS))?;
    }
    Ok(Labels { counts, behind })
}

/// What each link is wired to.
fn peers_of(alloc: Global, plan: &Plan) -> Result<Vec<Option<Port>>, AllocError> {
    let mut peers = Vec::new(alloc);
    for place in 0..plan.switches().len() * LINKS {
        peers.push(plan.peer(Port::Switch(place / LINKS, place % LINKS)))?;
    }
    Ok(peers)
}

/// The links of each switch that continue groups by lines of the plan.
fn continues_of(alloc: Global, plan: &Plan) -> Result<Vec<u32>, AllocError> {
    let mut continues = vec![in alloc; 0u32; plan.switches().len()]?;
    for port in plan.continues() {
        if let Port::Switch(switch, link) = *port
            && switch < continues.len()
            && link < LINKS
        {
            continues[switch] |= 1u32 << link;
        }
    }
    Ok(continues)
}
