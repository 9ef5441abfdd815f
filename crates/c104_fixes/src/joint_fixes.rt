//! Rows of several inputs that mend refused labels together. Nothing is proved of them but that finding them is safe and ends:
//! the caller has to check the labels that they give.

use crate::network::{End, Network, beside, port_at};
use crate::repairs::{Manner, Repair};
use crate::row_changes::{Covered, InputRows, RowFix};
use crate::row_lines::RowLines;
use c104_check::SwitchPort;
use c104_interval::Select;
use c104_plan::{Image, Plan};
use std::alloc::{AllocError, Global};

/// How many lines are told of one fix: about a screen, and no fewer than a table has.
const MOST_LINES: usize = 40;

/// Of how many lines a fix is at most for which no shorter one is looked for.
const FEW_LINES: usize = 2;

/// Other rows of several inputs.
#[derive(Drop)]
struct JointFix {
    fixes: Vec<RowFix>,
    /// How many lines tell of them.
    lines: usize,
    /// How many of them a screen has lines for, but at least one.
    shown: usize,
}

/// Rows by which all headers come to their owners, of those that are found in one manner or another the fewest lines; and of
/// these no more than a screen has, those first at which this header selects something else. None where none are found, or
/// where random headers have to be discarded.
pub(crate) fn joint_rows(
    alloc: Global,
    lines: Option<&RowLines<'_>>,
    plan: &Plan,
    image: &Image,
    header: u32,
) -> Result<Option<Vec<RowFix>>, AllocError> {
    if discards(plan) {
        return Ok(None);
    }
    let Some(network) = Network::read(alloc, plan, image)? else {
        return Ok(None);
    };
    let Some(best) = shortest(lines, &network, header)? else {
        return Ok(None);
    };
    let mut fixes = best.fixes;
    fixes.truncate(best.shown);
    Ok(Some(fixes))
}

/// Whether headers may be discarded.
fn discards(plan: &Plan) -> bool {
    !plan.randoms().is_empty() || plan.rows().iter().any(|row| row.select == Select::Discard)
}

/// Of the rows that are found in one manner or another the fewest lines.
fn shortest<'n>(
    lines: Option<&RowLines<'_>>,
    network: &'n Network<'n>,
    header: u32,
) -> Result<Option<JointFix>, AllocError> {
    let mut best = None;
    let mut least = usize::MAX;
    for manner in [Manner::Last, Manner::Downwards, Manner::First, Manner::Kept] {
        if least > FEW_LINES
            && let Some(repair) = Repair::find(network, manner)?
            && let Some(found) = Tables::new(lines, &repair).fix(header)?
            && found.lines < least
        {
            least = found.lines;
            best = Some(found);
        }
    }
    Ok(best)
}

/// What a repair found, which the tables of a description are to have.
#[derive(Drop)]
struct Tables<'l, 't, 'r, 'n> {
    alloc: Global,
    /// The lines of the description, where they are known.
    lines: Option<&'l RowLines<'t>>,
    repair: &'r Repair<'n>,
}

impl<'l, 't, 'r, 'n> Tables<'l, 't, 'r, 'n> {
    /// Those of a description with these lines.
    fn new(lines: Option<&'l RowLines<'t>>, repair: &'r Repair<'n>) -> Self {
        let alloc = repair.network.alloc;
        Tables {
            alloc,
            lines,
            repair,
        }
    }

    /// Other rows of all inputs at which headers select something else, those first at which these do. None where an input has
    /// no room for its rows, or where no row can be put behind the others.
    fn fix(&self, header: u32) -> Result<Option<JointFix>, AllocError> {
        let classes = self.repair.network.classes.as_slice();
        let shown = classes
            .iter()
            .position(|own| own.first <= header && header < own.end);
        let mut joint = JointFix {
            fixes: Vec::new(self.alloc),
            lines: 0,
            shown: 0,
        };
        for class in [shown, None] {
            if !self.add_fixes(class, &mut joint)? {
                return Ok(None);
            }
        }
        Ok(Some(joint))
    }

    /// The other rows of those at which this class, or any, selects something else join these, unless they are there; whether
    /// all have some.
    fn add_fixes(&self, class: Option<usize>, joint: &mut JointFix) -> Result<bool, AllocError> {
        for place in 0..self.repair.network.places {
            if self.is_changed(class, place) && !joint.is_of(port_at(place)) {
                match self.fix_at(place)? {
                    Some(fix) => joint.add(self.count_lines(&fix), fix)?,
                    None => return Ok(false),
                }
            }
        }
        Ok(true)
    }

    /// Whether headers of a class, or of any, come to an input and select something else there than they did.
    fn is_changed(&self, class: Option<usize>, place: usize) -> bool {
        let classes = match class {
            Some(class) => class..class.saturating_add(1),
            None => 0..self.repair.network.classes.len(),
        };
        for class in classes {
            if self.repair.is_changed(class, place) && self.repair.wanted(class, place).is_some() {
                return true;
            }
        }
        false
    }

    /// The other rows of an input, and of those that have the same lines. None where there is no room for them, or where no row
    /// can be put behind the others.
    fn fix_at(&self, place: usize) -> Result<Option<RowFix>, AllocError> {
        let links = self.links(place)?;
        let old = InputRows::read(self.alloc, self.repair.network.plan, port_at(place))?;
        match self.headers(place, links.as_slice(), &old)? {
            Some(headers) => old.fix(links, headers.as_slice()),
            None => Ok(None),
        }
    }

    /// The links of the inputs that have the same lines as one, if no headers are to select different links there; else its
    /// own.
    fn links(&self, place: usize) -> Result<Vec<usize>, AllocError> {
        let at = port_at(place);
        if let Some(lines) = self.lines {
            let ends = self.repair.network.ends.as_slice();
            let mut links = lines.sharing(self.alloc, at.switch, at.link)?;
            links.retain(|link| ends.get(beside(place, *link)) != Some(&End::Nowhere));
            if self.wanted(place, links.as_slice())?.is_some() {
                return Ok(links);
            }
        }
        vec![in self.alloc; at.link; 1]
    }

    /// What the headers of each class are to select at these links of the switch of an input, if they come to one. None where
    /// they are to select different links there.
    fn wanted(
        &self,
        place: usize,
        links: &[usize],
    ) -> Result<Option<Vec<Option<Select>>>, AllocError> {
        let mut wanted = vec![in self.alloc; None; self.repair.network.classes.len()]?;
        for link in links {
            if !self.add_wanted(beside(place, *link), wanted.as_mut_slice()) {
                return Ok(None);
            }
        }
        Ok(Some(wanted))
    }

    /// What headers are to select at an input joins what they are to select at others; whether it is the same.
    fn add_wanted(&self, place: usize, wanted: &mut [Option<Select>]) -> bool {
        for (class, known) in wanted.iter_mut().enumerate() {
            let own = self.repair.wanted(class, place);
            if own.is_some() && known.is_some() && own != *known {
                return false;
            }
            *known = (*known).or(own);
        }
        true
    }

    /// What headers are to select at a table with these rows. None where no row can be put behind them that would have to be.
    fn headers(
        &self,
        place: usize,
        links: &[usize],
        old: &InputRows,
    ) -> Result<Option<Vec<Covered>>, AllocError> {
        let Some(wanted) = self.wanted(place, links)? else {
            return Ok(None);
        };
        let mut headers = Vec::new(self.alloc);
        for (class, select) in self.repair.network.classes.iter().zip(wanted.iter()) {
            let (row, low) = old.covering(class.first);
            // Neither an old row covers these, nor would a further one.
            let is_below = row == old.rows.len() && class.first < low;
            if is_below && matches!(select, Some(Select::Link(_))) {
                return Ok(None);
            }
            if !is_below {
                headers.push(Covered {
                    row,
                    first: class.first,
                    end: class.end,
                    select: *select,
                })?;
            }
        }
        Ok(Some(headers))
    }

    /// How many lines tell of a fix.
    fn count_lines(&self, fix: &RowFix) -> usize {
        if let Some(lines) = self.lines
            && !fix.is_shared
            && lines.is_shared(fix.at.switch, fix.at.link)
        {
            return fix.rows.len();
        }
        let mut count = 0usize;
        for change in fix.changes.as_slice() {
            let replaced = usize::from(change.replaced.is_some());
            count = count
                .saturating_add(change.by.len())
                .saturating_add(replaced);
        }
        count
    }
}

impl JointFix {
    /// Whether one of them is of an input.
    fn is_of(&self, at: SwitchPort) -> bool {
        self.fixes.iter().any(|fix| fix.at.switch == at.switch
            && fix.links.as_slice().contains(&at.link))
    }

    /// One more joins them, of which this many lines tell.
    fn add(&mut self, lines: usize, fix: RowFix) -> Result<(), AllocError> {
        self.fixes.push(fix)?;
        self.lines = self.lines.saturating_add(lines);
        if self.lines <= MOST_LINES || self.shown == 0 {
            self.shown = self.fixes.len();
        }
        Ok(())
    }
}
