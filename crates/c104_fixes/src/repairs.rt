//! What headers would have to select for all of them to come to their owners. Nothing is proved of it but that it is safe and
//! ends: the caller has to check the labels that it gives.
//!
//! Class by class the inputs are found to which headers come and from which they don't come to their owner, and those of them
//! that send them wrong select the nearest way. Inputs that lead them there are left as they are, and so is what no header
//! comes to.

use crate::network::{End, Group, Network, beside, set_at};
use crate::repair_walks::Walk;
use c104_interval::Select;
use std::alloc::AllocError;

/// How often headers are followed anew at most.
const MOST_ROUNDS: usize = 64;

/// Which of the inputs that a header meets is repaired.
#[derive(Clone, Copy, PartialEq, Eq)]
pub(crate) enum Manner {
    /// The last, where the header stops or comes to a wrong end.
    Last,
    /// The same, from the highest header on down, so that ties between equally near ways are broken otherwise.
    Downwards,
    /// The first that doesn't bring it nearer to its owner.
    First,
    /// The last, by a way that is right already, if there is any.
    Kept,
}

/// A network whose tables are repaired.
#[derive(Drop)]
pub(crate) struct Repair<'a> {
    pub(crate) network: &'a Network<'a>,
    pub(crate) manner: Manner,
    /// What headers select, by class and then by place.
    selects: Vec<Select>,
    /// Whether they select something else than they did, in the same order.
    is_changed: Vec<bool>,
    /// Whether they come there, in the same order, once the class is done.
    is_reached: Vec<bool>,
    /// Which classes come to their owners.
    is_done: Vec<bool>,
}

impl<'a> Repair<'a> {
    /// The repair by which all headers come to their owners. None where none is found in this manner.
    pub(crate) fn find(
        network: &'a Network<'a>,
        manner: Manner,
    ) -> Result<Option<Self>, AllocError> {
        let alloc = network.alloc;
        let classes = network.classes.len();
        let pairs = network.pair(classes, 0);
        let mut repair = Repair {
            network,
            manner,
            selects: Vec::from_slice(alloc, network.selects.as_slice())?,
            is_changed: vec![in alloc; false; pairs]?,
            is_reached: vec![in alloc; false; pairs]?,
            is_done: vec![in alloc; false; classes]?,
        };
        for _ in 0..MOST_ROUNDS {
            let is_changed = repair.mend_all()?;
            if repair.is_done.iter().all(|is_done| *is_done) {
                return Ok(Some(repair));
            }
            if !is_changed {
                return Ok(None);
            }
        }
        Ok(None)
    }

    /// Repairs each class where it stops or comes to a wrong end. Where none does, those that go round at the input that
    /// the most of them don't leave towards their owners. Whether any selects something else then.
    fn mend_all(&mut self) -> Result<bool, AllocError> {
        let alloc = self.network.alloc;
        let mut votes = vec![in alloc; 0usize; self.network.places]?;
        let mut is_changed = false;
        let count = self.network.classes.len();
        for index in 0..count {
            let class = match self.manner {
                Manner::Downwards => count - 1 - index,
                _ => index,
            };
            if self.mend_class(class, &mut votes)? {
                is_changed = true;
            }
        }
        match most_voted(votes.as_slice()) {
            Some(place) if !is_changed => self.mend_lost(place),
            _ => Ok(is_changed),
        }
    }

    /// Repairs a class, or where it only goes round, lets it vote for inputs; whether it selects something else then.
    fn mend_class(&mut self, class: usize, votes: &mut Vec<usize>) -> Result<bool, AllocError> {
        let Some(walk) = self.unfinished(class)? else {
            return Ok(false);
        };
        let wrong = walk.wrong(self)?;
        let mut is_changed = false;
        for place in wrong.as_slice() {
            if self.mend(&walk, *place) {
                is_changed = true;
            }
        }
        if !is_changed {
            walk.vote(self, votes);
        }
        Ok(is_changed)
    }

    /// Repairs all classes that don't leave an input towards their owners; whether there are any.
    fn mend_lost(&mut self, place: usize) -> Result<bool, AllocError> {
        let mut is_changed = false;
        for class in 0..self.network.classes.len() {
            if let Some(walk) = self.unfinished(class)?
                && walk.reached.as_slice().contains(&place)
                && walk.goes_round(self, place)
                && self.mend(&walk, place)
            {
                is_changed = true;
            }
        }
        Ok(is_changed)
    }

    /// The walk of a class that doesn't come to its owner. A class that does is done, and so is one without an owner once it
    /// is dropped: these have none.
    fn unfinished(&mut self, class: usize) -> Result<Option<Walk>, AllocError> {
        if self.is_done.get(class) == Some(&true) {
            return Ok(None);
        }
        let network = self.network;
        let Some(owner) = network.owner(class) else {
            self.sink(class);
            return Ok(None);
        };
        let walk = Walk::new(self, class, owner)?;
        if walk.leads(network.entries.as_slice()) {
            self.keep(&walk);
            return Ok(None);
        }
        Ok(Some(walk))
    }

    /// Headers without an owner are dropped where they come in.
    fn sink(&mut self, class: usize) {
        let network = self.network;
        for end in network.entries.as_slice() {
            if let End::Input(place) = end {
                if matches!(self.select(class, *place), Select::Link(_)) {
                    self.change(class, *place, Select::Sink);
                }
                set_at(&mut self.is_reached, network.pair(class, *place));
            }
        }
        set_at(&mut self.is_done, class);
    }

    /// Keeps where headers come that all come to their owners.
    fn keep(&mut self, walk: &Walk) {
        for place in walk.reached.as_slice() {
            set_at(&mut self.is_reached, self.network.pair(walk.class, *place));
        }
        set_at(&mut self.is_done, walk.class);
    }

    /// Headers select the nearest way at an input; whether they didn't before.
    fn mend(&mut self, walk: &Walk, place: usize) -> bool {
        if self.is_changed(walk.class, place) {
            return false;
        }
        let Some(select) = walk.nearest(self, place) else {
            return false;
        };
        self.change(walk.class, place, select);
        true
    }

    /// Headers are to select something else at an input.
    fn change(&mut self, class: usize, place: usize, to: Select) {
        let pair = self.network.pair(class, place);
        if let Some(select) = self.selects.get_mut(pair) {
            *select = to;
        }
        set_at(&mut self.is_changed, pair);
    }

    /// Whether headers are to select something else at an input.
    pub(crate) fn is_changed(&self, class: usize, place: usize) -> bool {
        self.is_changed.get(self.network.pair(class, place)) == Some(&true)
    }

    /// What headers select at an input, as far as they are repaired.
    fn select(&self, class: usize, place: usize) -> Select {
        let pair = self.network.pair(class, place);
        self.selects.get(pair).copied().unwrap_or(Select::Sink)
    }

    /// What headers are to select at an input, if they come there once all of them come to their owners.
    pub(crate) fn wanted(&self, class: usize, place: usize) -> Option<Select> {
        if self.is_reached.get(self.network.pair(class, place)) == Some(&true) {
            Some(self.select(class, place))
        } else {
            None
        }
    }

    /// Where the links lead that headers select at an input.
    pub(crate) fn ends(&self, class: usize, place: usize) -> &[End] {
        self.network.ends_by(place, self.select(class, place))
    }

    /// Whether headers next to those of a class select a group of the switch of an input there.
    pub(crate) fn is_beside(&self, class: usize, place: usize, group: Group) -> bool {
        self.selects_in(class.saturating_add(1), place, group)
            || class > 0 && self.selects_in(class - 1, place, group)
    }

    /// Whether headers select a group of the switch of an input there.
    fn selects_in(&self, class: usize, place: usize, group: Group) -> bool {
        match self.select(class, place) {
            Select::Link(link) => {
                let selected = beside(place, usize::from(link));
                group.first <= selected && selected < group.end
            }
            Select::Discard | Select::Sink => false,
        }
    }
}

/// The place with the most votes, if there are any.
fn most_voted(votes: &[usize]) -> Option<usize> {
    let mut best = None;
    let mut most = 0;
    for (place, count) in votes.iter().enumerate() {
        if *count > most {
            most = *count;
            best = Some(place);
        }
    }
    best
}
