//! The rows of a plan's interval tables.
ghost use Rattle.std.specs.Prelude.{IfOk, OnErr, OnOk, [], length, ◌++◌, ◌<◌, ◌∷◌, ◌≡◌};
ghost use Rattle.{c104_interval.specs.declared.intervals.TheConstants.ROWS, c104_plan.specs.{PlanIndex.input_place, Plans.most_switches}};
ghost use Rattle.c104_plan.specs.{Plans.rows_of, Ports.IsSwitchPort};

use crate::limits::MAX_SWITCHES;
use crate::plans::PlanRow;
use crate::ports::Port;
use c104_regs::LINKS;
use std::alloc::{AllocError, Global};
use std::fmt::{self, Debug, Formatter, Write};
use std::marker::Model;

/// How many inputs a network may have: one at each link of a switch.
const INPUTS: usize = MAX_SWITCHES * LINKS;

/// Rows, in order, and how many there are of each input.
#[derive(Drop)]
pub struct RowList {
    list: Vec<PlanRow>,
    /// That of link l of switch s is at `LINKS` * s + l.
    counts: Vec<u8>,
}

impl Model for RowList {
    ghost use Rattle.std.specs.Prelude.{List, length, ◌≡◌};
    ghost use Rattle.c104_plan.specs.{PlanIndex.AreCounted, Plans.PlanRow as TheRow};

    ghost Value = { List TheRow };

    ghost view = { λ rows. rows.list.items };

    ghost invariant = { λ rows. AreCounted rows.counts.items rows.list.items };
}

impl Debug for RowList {
    fn fmt<W: Write>(&self, f: &mut Formatter<W>) -> Result<(), fmt::Error> {
        self.list.fmt(f)
    }
}

impl RowList {
    /// No row yet.
    pub(crate) fn new(alloc: Global) -> Result<Self, AllocError>
        ensures { IfOk result (λ rows. rows ≡ []) }
    {
        let counts = Vec::from_elem(alloc, 0, INPUTS)?;
        Ok(RowList {
            list: Vec::new(alloc),
            counts,
        })
    }

    /// One more row, of an input that has room for it.
    pub fn push(&mut self, row: PlanRow) -> Result<(), AllocError>
        requires input { IsSwitchPort most_switches row.port }
        requires room { length (rows_of row.port self.old) < ROWS }
        ensures rows { OnOk result (self.new ≡ self.old ++ row ∷ []) }
        ensures unchanged { OnErr result (self.new ≡ self.old) }
    {
        self.list.push(row)?;
        let place = place_of(row.port);
        self.counts[place] += 1;
        Ok(())
    }

    /// The rows, in order.
    pub(crate) fn as_slice(&self) -> &[PlanRow]
        ensures { result.now ≡ self.now }
    {
        self.list.as_slice()
    }

    /// How many rows an input has.
    pub(crate) fn count(&self, port: Port) -> usize
        requires { IsSwitchPort most_switches port }
        ensures { result ≡ length (rows_of port self.now) }
    {
        usize::from(self.counts[place_of(port)])
    }

    /// A copy of the rows.
    pub(crate) fn copy(&self) -> Result<Self, AllocError>
        ensures { IfOk result (λ copy. copy ≡ self.now) }
    {
        let list = self.list.clone()?;
        let counts = self.counts.clone()?;
        Ok(RowList { list, counts })
    }
}

/// Where an input's count is.
fn place_of(port: Port) -> usize
    requires { IsSwitchPort most_switches port }
    ensures place { result ≡ input_place port }
    ensures inside { result < INPUTS }
{
    match port {
        Port::Switch(switch, link) => LINKS * switch + link,
        Port::Terminal(_) => unreachable!(),
    }
}
