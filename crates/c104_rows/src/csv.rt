//! Rows of cells as CSV: with commas between the cells, and a carriage return and a line feed behind each row, as RFC 4180 has it.
//!
//! No cell has a character that CSV would mark: names of a description have none.

use c104_plan::{Plan, Port};
use std::alloc::{AllocError, Global};

/// Rows of cells, which are taken one by one.
#[derive(Drop)]
pub(crate) struct Csv {
    alloc: Global,
    text: String,
    // Whether the next cell is the first of its row.
    is_first: bool,
}

impl Csv {
    /// No row yet but the names of the columns. The only error of each function is out of memory.
    pub(crate) fn new(alloc: Global, columns: &str) -> Result<Self, AllocError> {
        let mut csv = Csv {
            alloc,
            text: String::new(alloc),
            is_first: true,
        };
        csv.word(columns)?;
        csv.end_row()?;
        Ok(csv)
    }

    /// A name, or a word of this emulator's own.
    pub(crate) fn word(&mut self, word: &str) -> Result<(), AllocError> {
        self.begin_cell()?;
        self.text.push_str(word)
    }

    /// A number.
    pub(crate) fn number(&mut self, number: u64) -> Result<(), AllocError> {
        self.begin_cell()?;
        write!(self.text, "{number}")
    }

    /// A number that may not be there.
    pub(crate) fn number_if(&mut self, number: Option<u32>) -> Result<(), AllocError> {
        match number {
            Some(number) => self.number(u64::from(number)),
            None => self.nothing(),
        }
    }

    /// Whether something is so: 1 or 0.
    pub(crate) fn flag(&mut self, is: bool) -> Result<(), AllocError> {
        self.word(if is { "1" } else { "0" })
    }

    /// A port of a plan.
    pub(crate) fn port(&mut self, plan: &Plan, port: Port) -> Result<(), AllocError> {
        let name = plan.port_text(self.alloc, port)?;
        self.word(name.as_str())
    }

    /// A port that may not be there.
    pub(crate) fn port_if(&mut self, plan: &Plan, port: Option<Port>) -> Result<(), AllocError> {
        match port {
            Some(port) => self.port(plan, port),
            None => self.nothing(),
        }
    }

    /// A cell in which nothing is.
    pub(crate) fn nothing(&mut self) -> Result<(), AllocError> {
        self.begin_cell()
    }

    /// The row ends.
    pub(crate) fn end_row(&mut self) -> Result<(), AllocError> {
        self.is_first = true;
        self.text.push_str("\r\n")
    }

    /// The text of all rows.
    pub(crate) fn finish(self) -> String {
        self.text
    }

    /// A cell begins: behind a comma, if it isn't the first.
    fn begin_cell(&mut self) -> Result<(), AllocError> {
        if self.is_first {
            self.is_first = false;
            return Ok(());
        }
        self.text.push(',')
    }
}
