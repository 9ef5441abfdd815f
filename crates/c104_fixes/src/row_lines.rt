//! The `row` and `base` lines of a description that was read, found again in its text: a plan doesn't keep where its rows
//! stand there, nor whether they are of one input or of its whole switch.

use c104_mistakes::{link_of, name_of};
use c104_plan::{MAX_SWITCHES, Plan, cut_lines, cut_words, uncommented};
use c104_regs::LINKS;
use c104_token::NoMemory;
use std::alloc::{AllocError, Global};

/// How many inputs of a switch a line may be of: one at each link, or all that have no rows of their own.
const INPUTS: usize = LINKS + 1;

/// The lines of an input, or of all inputs of a switch that have no rows of their own.
#[derive(Drop)]
struct InputLines {
    /// The numbers of its `row` lines in the text, from 1.
    rows: Vec<usize>,
    /// Whether there is a `base` line.
    has_base: bool,
}

/// The `row` and `base` lines of a description.
#[derive(Drop)]
pub struct RowLines<'a> {
    /// All lines of the text.
    texts: Vec<&'a [u8]>,
    /// Those of each input, by switch and then by link, and last those without a link.
    inputs: Vec<InputLines>,
}

impl<'a> RowLines<'a> {
    /// Those of a description that gives this plan.
    pub fn read(alloc: Global, description: &'a [u8], plan: &Plan) -> Result<Self, NoMemory> {
        let mut lines = RowLines {
            texts: cut_lines(alloc, description)?,
            inputs: Vec::new(alloc),
        };
        lines.add_inputs(alloc)?;
        for index in 0..lines.texts.len() {
            lines.add_line(alloc, index, plan)?;
        }
        Ok(lines)
    }

    /// All inputs join none, without lines.
    fn add_inputs(&mut self, alloc: Global) -> Result<(), AllocError> {
        for _ in 0..MAX_SWITCHES * INPUTS {
            self.inputs.push(InputLines {
                rows: Vec::new(alloc),
                has_base: false,
            })?;
        }
        Ok(())
    }

    /// The line of the text that this many come before joins those of its inputs, if it is a `row` or `base` line.
    fn add_line(&mut self, alloc: Global, index: usize, plan: &Plan) -> Result<(), NoMemory> {
        let words = cut_words(alloc, self.line(index))?;
        let (is_row, port) = match words.as_slice() {
            [b"row", port, ..] => (true, *port),
            [b"base", port, ..] => (false, *port),
            _ => return Ok(()),
        };
        let link = link_of(port).map(|link| link as usize);
        if let Some(switch) = plan.switch_number(name_of(port))
            && let Some(lines) = self.inputs.get_mut(place_of(switch, link))
        {
            if is_row {
                lines.rows.push(index.saturating_add(1))?;
            } else {
                lines.has_base = true;
            }
        }
        Ok(())
    }

    /// The line that this many come before, without its comment.
    fn line(&self, index: usize) -> &'a [u8] {
        match self.texts.get(index) {
            Some(line) => uncommented(line),
            None => &[],
        }
    }

    /// The lines of an input, or without a link, of a whole switch.
    fn lines_of(&self, switch: usize, link: Option<usize>) -> Option<&InputLines> {
        self.inputs.get(place_of(switch, link))
    }

    /// The number of the line, from 1, with the row of this number of an input, or without a link, of a whole switch.
    pub fn line_of(&self, switch: usize, link: Option<usize>, number: usize) -> Option<usize> {
        self.lines_of(switch, link)?.rows.get(number).copied()
    }

    /// The number of the line, from 1, of the terminal of this name, and whether it says how many labels that has.
    pub fn terminal_line(
        &self,
        alloc: Global,
        name: &[u8],
    ) -> Result<Option<(usize, bool)>, NoMemory> {
        for index in 0..self.texts.len() {
            let words = cut_words(alloc, self.line(index))?;
            let words = words.as_slice();
            if let [b"terminal", own, ..] = words
                && *own == name
            {
                let counts = words.iter().any(|word| *word == b"labels".as_slice());
                return Ok(Some((index.saturating_add(1), counts)));
            }
        }
        Ok(None)
    }

    /// The words of the line of this number, from 1, as they stand there.
    pub fn spelled(&self, alloc: Global, line: usize) -> Result<String, NoMemory> {
        let words = cut_words(alloc, self.line(line.saturating_sub(1)))?;
        let mut text = String::new(alloc);
        for (place, word) in words.as_slice().iter().enumerate() {
            if place > 0 {
                text.push(' ')?;
            }
            for byte in *word {
                text.push(char::from(*byte))?;
            }
        }
        Ok(text)
    }

    /// Whether an input has its switch's table: it has no rows of its own, and there are lines of its whole switch.
    pub fn is_shared(&self, switch: usize, link: usize) -> bool {
        !self.has_rows(switch, Some(link))
            && (self.has_rows(switch, None) || self.has_base(switch, None))
    }

    /// The links of all inputs that have the same lines as one: it alone, if it has rows of its own, and else all of its switch
    /// that have none, unless one of them has a base of its own.
    pub(crate) fn sharing(
        &self,
        alloc: Global,
        switch: usize,
        link: usize,
    ) -> Result<Vec<usize>, AllocError> {
        let mut links = Vec::new(alloc);
        for other in 0..LINKS {
            if !self.has_rows(switch, Some(other)) {
                if self.has_base(switch, Some(other)) {
                    return vec![in alloc; link; 1];
                }
                links.push(other)?;
            }
        }
        if self.has_rows(switch, Some(link)) {
            return vec![in alloc; link; 1];
        }
        Ok(links)
    }

    /// Whether there are `row` lines of an input, or without a link, of a whole switch.
    fn has_rows(&self, switch: usize, link: Option<usize>) -> bool {
        matches!(self.lines_of(switch, link), Some(lines) if !lines.rows.is_empty())
    }

    /// Whether there is a `base` line of an input, or without a link, of a whole switch.
    pub fn has_base(&self, switch: usize, link: Option<usize>) -> bool {
        matches!(self.lines_of(switch, link), Some(lines) if lines.has_base)
    }
}

/// Where is kept what there is of an input, or of a switch's inputs that have no rows of their own; past all of it where there
/// is none such.
fn place_of(switch: usize, link: Option<usize>) -> usize {
    let link = link.unwrap_or(LINKS);
    if switch < MAX_SWITCHES && link < INPUTS {
        switch * INPUTS + link
    } else {
        MAX_SWITCHES * INPUTS
    }
}
