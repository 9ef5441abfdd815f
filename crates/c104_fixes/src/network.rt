//! The network that is repaired: where its links lead, and what headers select there. Nothing is proved of it but that it is
//! safe and ends.
//!
//! Links are numbered by switch and then by link. The number of one is its place.

use crate::header_classes::{HeaderClass, header_classes};
use c104_check::SwitchPort;
use c104_interval::Select;
use c104_plan::{Image, Plan, Port};
use c104_regs::LINKS;
use std::alloc::{AllocError, Global};

/// For how many pairs of a link and a class of headers a repair is looked for at most.
const MOST_PAIRS: usize = 1_048_576;

/// Where headers go that select no link.
static NOWHERE: [End; 1] = [End::Nowhere];

/// Where a link leads.
#[derive(Clone, Copy, PartialEq, Eq)]
pub(crate) enum End {
    /// It has no wire.
    Nowhere,
    /// To the terminal of this number.
    Terminal(usize),
    /// To the input at this place.
    Input(usize),
}

/// Links that are a group.
#[derive(Clone, Copy)]
pub(crate) struct Group {
    /// The place of the first.
    pub(crate) first: usize,
    /// The first place past them.
    pub(crate) end: usize,
}

/// No links.
const NO_GROUP: Group = Group {
    first: usize::MAX,
    end: usize::MAX,
};

/// A network, as a plan's own image has it.
#[derive(Drop)]
pub(crate) struct Network<'a> {
    pub(crate) alloc: Global,
    pub(crate) plan: &'a Plan,
    /// How many switches there are.
    pub(crate) switches: usize,
    /// How many places there are.
    pub(crate) places: usize,
    /// All headers.
    pub(crate) classes: Vec<HeaderClass>,
    /// Where the links of the terminals lead.
    pub(crate) entries: Vec<End>,
    /// Where the link at each place leads.
    pub(crate) ends: Vec<End>,
    /// The places of the links with a wire.
    pub(crate) wired: Vec<usize>,
    /// The group of the link at each place.
    groups: Vec<Group>,
    /// Whether the input at each place has rows.
    pub(crate) has_rows: Vec<bool>,
    /// How many wires each switch is away from each other at least, by the other and then by the switch; as many as there are
    /// switches where there is no way.
    distances: Vec<usize>,
    /// What headers select, by class and then by place.
    pub(crate) selects: Vec<Select>,
}

impl<'a> Network<'a> {
    /// The network of a plan. None where it has too many headers that are told apart.
    pub(crate) fn read(
        alloc: Global,
        plan: &'a Plan,
        image: &Image,
    ) -> Result<Option<Self>, AllocError> {
        let classes = header_classes(alloc, plan)?;
        let switches = plan.switches().len();
        let places = switches.saturating_mul(LINKS);
        if places.saturating_mul(classes.len()) > MOST_PAIRS {
            return Ok(None);
        }
        let mut network = Network {
            alloc,
            plan,
            switches,
            places,
            classes,
            entries: Vec::new(alloc),
            ends: Vec::new(alloc),
            wired: Vec::new(alloc),
            groups: Vec::new(alloc),
            has_rows: Vec::new(alloc),
            distances: Vec::new(alloc),
            selects: Vec::new(alloc),
        };
        network.add_all(image)?;
        Ok(Some(network))
    }

    /// All that is known of the places joins nothing.
    fn add_all(&mut self, image: &Image) -> Result<(), AllocError> {
        let alloc = self.alloc;
        self.has_rows = vec![in alloc; false; self.places]?;
        self.add_links(image)?;
        self.add_lines()?;
        for home in 0..self.switches {
            let distances = self.distances_from(home)?;
            self.distances.extend_from_slice(distances.as_slice())?;
        }
        self.add_selects(image)
    }

    /// Reads where links lead, and which are in groups.
    fn add_links(&mut self, image: &Image) -> Result<(), AllocError> {
        for place in 0..self.places {
            let at = port_at(place);
            let end = match self.plan.peer(Port::Switch(at.switch, at.link)) {
                Some(Port::Switch(switch, link)) => End::Input(place_of(switch, link)),
                Some(Port::Terminal(terminal)) => End::Terminal(terminal),
                None => End::Nowhere,
            };
            if end != End::Nowhere {
                self.wired.push(place)?;
            }
            self.ends.push(end)?;
            self.groups.push(group_at(image, at))?;
        }
        Ok(())
    }

    /// Reads which inputs have rows, and where terminals are.
    fn add_lines(&mut self) -> Result<(), AllocError> {
        let plan = self.plan;
        for row in plan.rows() {
            if let Port::Switch(switch, link) = row.port {
                set_at(&mut self.has_rows, place_of(switch, link));
            }
        }
        for terminal in plan.terminals() {
            let place = place_of(terminal.switch, terminal.link);
            self.entries.push(End::Input(place))?;
        }
        Ok(())
    }

    /// How many wires each switch is away from one.
    fn distances_from(&self, home: usize) -> Result<Vec<usize>, AllocError> {
        let alloc = self.alloc;
        let mut distances = vec![in alloc; self.switches; self.switches]?;
        if let Some(own) = distances.get_mut(home) {
            *own = 0;
        }
        for distance in 0..self.switches {
            self.add_neighbours(distance, &mut distances);
        }
        Ok(distances)
    }

    /// The neighbours of switches at a distance are at most one wire further away.
    fn add_neighbours(&self, distance: usize, distances: &mut Vec<usize>) {
        for (place, end) in self.ends.iter().enumerate() {
            if let End::Input(next) = end
                && distances.get(place / LINKS) == Some(&distance)
                && let Some(other) = distances.get_mut(*next / LINKS)
            {
                *other = distance.saturating_add(1).min(*other);
            }
        }
    }

    /// Reads what headers select.
    fn add_selects(&mut self, image: &Image) -> Result<(), AllocError> {
        for class in self.classes.as_slice() {
            for switch in image.switches() {
                for settings in switch.settings() {
                    self.selects.push(settings.select(class.first))?;
                }
            }
        }
        Ok(())
    }

    /// How far a switch is from another; as many wires as there are switches where there is no way.
    pub(crate) fn distance(&self, home: usize, switch: usize) -> usize {
        let pair = home.saturating_mul(self.switches).saturating_add(switch);
        self.distances.get(pair).copied().unwrap_or(self.switches)
    }

    /// The terminal of the headers of a class.
    pub(crate) fn owner(&self, class: usize) -> Option<usize> {
        self.classes.get(class)?.owner
    }

    /// The number of a pair of a class of headers and a place among all such pairs.
    pub(crate) fn pair(&self, class: usize, place: usize) -> usize {
        class.saturating_mul(self.places).saturating_add(place)
    }

    /// The group of the link at a place.
    pub(crate) fn group(&self, place: usize) -> Group {
        self.groups.get(place).copied().unwrap_or(NO_GROUP)
    }

    /// Where the links of a group lead.
    pub(crate) fn ends_of(&self, group: Group) -> &[End] {
        match self.ends.as_slice().get(group.first..group.end) {
            Some(ends) => ends,
            None => &NOWHERE,
        }
    }

    /// Where what is selected at an input leads.
    pub(crate) fn ends_by(&self, place: usize, select: Select) -> &[End] {
        match select {
            Select::Link(link) => self.ends_of(self.group(beside(place, usize::from(link)))),
            Select::Discard | Select::Sink => &NOWHERE,
        }
    }
}

/// The place of a link.
pub(crate) fn place_of(switch: usize, link: usize) -> usize {
    switch.saturating_mul(LINKS).saturating_add(link)
}

/// The place of a link of the switch of another.
pub(crate) fn beside(place: usize, link: usize) -> usize {
    place_of(place / LINKS, link)
}

/// The port at a place.
pub(crate) fn port_at(place: usize) -> SwitchPort {
    SwitchPort {
        switch: place / LINKS,
        link: place % LINKS,
    }
}

/// One of these is so.
pub(crate) fn set_at(values: &mut Vec<bool>, index: usize) {
    if let Some(value) = values.get_mut(index) {
        *value = true;
    }
}

/// The group of a link.
fn group_at(image: &Image, at: SwitchPort) -> Group {
    let mut first = 0;
    let mut end = LINKS;
    if let Some(settings) = image.settings(at.switch) {
        for (link, own) in settings.iter().enumerate() {
            let begins = link > 0 && !own.continue_group();
            if begins && link <= at.link {
                first = link;
            } else if begins {
                end = end.min(link);
            }
        }
    }
    Group {
        first: place_of(at.switch, first),
        end: place_of(at.switch, end),
    }
}
