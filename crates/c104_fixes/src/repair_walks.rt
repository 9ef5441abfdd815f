//! The ways of headers through a network that is repaired. Nothing is proved of it but that it is safe and ends.

use crate::network::{End, Group, beside, set_at};
use crate::repairs::{Manner, Repair};
use c104_interval::Select;
use c104_regs::LINKS;
use std::alloc::AllocError;

/// From where the headers of a class come to their owner.
#[derive(Drop)]
pub(crate) struct Walk {
    pub(crate) class: usize,
    owner: usize,
    /// The owner's switch.
    home: usize,
    /// Whether they come to their owner by all ways from the input at each place.
    is_good: Vec<bool>,
    /// The places of the inputs to which they come.
    pub(crate) reached: Vec<usize>,
}

impl Walk {
    /// The ways of a class.
    pub(crate) fn new(repair: &Repair<'_>, class: usize, owner: usize) -> Result<Self, AllocError> {
        let network = repair.network;
        let alloc = network.alloc;
        let home = match network.plan.terminals().get(owner) {
            Some(terminal) => terminal.switch,
            None => 0,
        };
        let mut walk = Walk {
            class,
            owner,
            home,
            is_good: vec![in alloc; false; network.places]?,
            reached: Vec::new(alloc),
        };
        walk.find_good(repair);
        walk.reached = walk.met(repair, false)?;
        Ok(walk)
    }

    /// Finds from where they come to their owner: by links to it, and by those to inputs from where they do.
    fn find_good(&mut self, repair: &Repair<'_>) {
        // Most ways run up and then down through the numbers of the switches, or down and then up.
        for round in 0..repair.network.wired.len() {
            if !self.add_good(repair, round % 2 == 1) {
                return;
            }
        }
    }

    /// Inputs from where they come to their owner by those from which they do join these; whether there are more.
    fn add_good(&mut self, repair: &Repair<'_>, is_upwards: bool) -> bool {
        let wired = repair.network.wired.as_slice();
        let mut has_more = false;
        for index in 0..wired.len() {
            let place = if is_upwards {
                wired[index]
            } else {
                wired[wired.len() - 1 - index]
            };
            if !self.is_good(place) && self.leads(repair.ends(self.class, place)) {
                set_at(&mut self.is_good, place);
                has_more = true;
            }
        }
        has_more
    }

    /// Whether they come to their owner from an input.
    fn is_good(&self, place: usize) -> bool {
        self.is_good.get(place) == Some(&true)
    }

    /// Whether all of these links lead on to their owner.
    pub(crate) fn leads(&self, ends: &[End]) -> bool {
        ends.iter().all(|end| match end {
            End::Nowhere => false,
            End::Terminal(terminal) => *terminal == self.owner,
            End::Input(place) => self.is_good(*place),
        })
    }

    /// The inputs that send them wrong, as the repair's manner has it, and to which they come though they go on from none of
    /// these.
    pub(crate) fn wrong(&self, repair: &Repair<'_>) -> Result<Vec<usize>, AllocError> {
        let mut met = self.met(repair, true)?;
        met.retain(|place| self.is_wrong(repair, *place));
        Ok(met)
    }

    /// The inputs to which they come; where they stop at those that send them wrong, no others.
    fn met(&self, repair: &Repair<'_>, stops: bool) -> Result<Vec<usize>, AllocError> {
        let alloc = repair.network.alloc;
        let places = repair.network.places;
        let mut is_met = vec![in alloc; false; places]?;
        let mut met = Vec::new(alloc);
        add_met(&mut met, &mut is_met, repair.network.entries.as_slice())?;
        for index in 0..places {
            let Some(place) = met.as_slice().get(index).copied() else {
                return Ok(met);
            };
            if !stops || !self.is_wrong(repair, place) {
                add_met(&mut met, &mut is_met, repair.ends(self.class, place))?;
            }
        }
        Ok(met)
    }

    /// Whether an input sends them wrong.
    fn is_wrong(&self, repair: &Repair<'_>, place: usize) -> bool {
        let is_first = repair.manner == Manner::First;
        !self.is_good(place)
            && (self.stops(repair, place) || is_first && self.is_away(repair, place))
    }

    /// Whether they stop at an input, or come from there to a wrong end.
    fn stops(&self, repair: &Repair<'_>, place: usize) -> bool {
        repair.ends(self.class, place).iter().any(|end| match end {
            End::Nowhere => true,
            End::Terminal(terminal) => *terminal != self.owner,
            End::Input(_) => false,
        })
    }

    /// Whether an input may send them to a switch that isn't nearer to their owner.
    fn is_away(&self, repair: &Repair<'_>, place: usize) -> bool {
        let here = self.distance(repair, place);
        repair.ends(self.class, place).iter().any(
            |end| matches!(end, End::Input(next) if self.distance(repair, *next) >= here),
        )
    }

    /// Whether they go round from an input, and aren't sent nearer to their owner.
    pub(crate) fn goes_round(&self, repair: &Repair<'_>, place: usize) -> bool {
        !self.is_good(place) && self.is_away(repair, place)
    }

    /// A vote for each input to which they come and from which they go round.
    pub(crate) fn vote(&self, repair: &Repair<'_>, votes: &mut Vec<usize>) {
        for place in self.reached.as_slice() {
            if self.goes_round(repair, *place)
                && let Some(count) = votes.get_mut(*place)
            {
                *count = count.saturating_add(1);
            }
        }
    }

    /// How many wires the switch of an input is away from their owner's.
    fn distance(&self, repair: &Repair<'_>, place: usize) -> usize {
        repair.network.distance(self.home, place / LINKS)
    }

    /// The nearest way from an input: by the first link of a group. Of several that are as near it is one that headers next to
    /// these select there, or the lowest.
    pub(crate) fn nearest(&self, repair: &Repair<'_>, place: usize) -> Option<Select> {
        let mut best = None;
        let mut least = usize::MAX;
        for link in 0..LINKS {
            let first = beside(place, link);
            let group = repair.network.group(first);
            if group.first == first
                && let Some(cost) = self.cost(repair, place, group)
                && cost < least
            {
                least = cost;
                best = Some(Select::Link(link as u8));
            }
        }
        best
    }

    /// How little the way by a group of the switch of an input is wanted. None where a link of it doesn't lead to their owner.
    fn cost(&self, repair: &Repair<'_>, place: usize, group: Group) -> Option<usize> {
        let network = repair.network;
        let ends = network.ends_of(group);
        let mut cost = self.length(repair, ends)?.saturating_mul(2);
        if !repair.is_beside(self.class, place, group) {
            cost = cost.saturating_add(1);
        }
        if repair.manner == Manner::Kept && !self.are_kept(repair, ends) {
            cost = cost.saturating_add(network.places.saturating_mul(2));
        }
        Some(cost)
    }

    /// How far it is to their owner by links, from the most distant of these. None where one doesn't lead there.
    fn length(&self, repair: &Repair<'_>, ends: &[End]) -> Option<usize> {
        let mut length = 0;
        for end in ends {
            let own = match end {
                End::Terminal(terminal) if *terminal == self.owner => 0,
                End::Input(next) => self.distance(repair, *next).saturating_add(1),
                _ => return None,
            };
            if own > repair.network.switches {
                return None;
            }
            length = length.max(own);
        }
        Some(length)
    }

    /// Whether none of these links leads to an input with rows from which they don't come to their owner.
    fn are_kept(&self, repair: &Repair<'_>, ends: &[End]) -> bool {
        for end in ends {
            if let End::Input(next) = end
                && !self.is_good(*next)
                && repair.network.has_rows.get(*next) == Some(&true)
            {
                return false;
            }
        }
        true
    }
}

/// Inputs to which links lead join those that are met, if they aren't there.
fn add_met(met: &mut Vec<usize>, is_met: &mut Vec<bool>, ends: &[End]) -> Result<(), AllocError> {
    for end in ends {
        if let End::Input(place) = end
            && let Some(is_there) = is_met.get_mut(*place)
            && !*is_there
        {
            *is_there = true;
            met.push(*place)?;
        }
    }
    Ok(())
}
