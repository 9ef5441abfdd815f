//! What is told of labels by which packets go up and then down.

use crate::exits::Plot;
use crate::fabric::Fabric;
use crate::forests::Forest;
use crate::loads::{Load, Tables, load_of};
use crate::orders::{Choice, Visit};
use c104_interval::Table;
use c104_plan::{Image, Plan};
use c104_token::NoMemory;
use std::alloc::{AllocError, Global};

/// Over which ways labels go.
#[derive(Clone, Copy, Debug, PartialEq, Eq)]
pub enum UpDownWay {
    /// Those of the form that the network has, as a torus or a folded Clos network.
    Form,
    /// The shortest that go up and then down.
    Shortest,
    /// Also others that go up and then down.
    Any,
    /// Those of the tree alone.
    Tree,
}

/// Which labels were made by which packets go up and then down, and what they come to.
#[derive(Clone, Copy, Debug, PartialEq, Eq)]
pub struct UpDownReport {
    /// The switch from which they were made.
    pub root: usize,
    /// How switches are visited from it: packets go up to those that are visited first.
    pub visit: Visit,
    /// The ways that were taken.
    pub way: UpDownWay,
    /// What they come to.
    pub load: Load,
}

/// The tables and groups of an image.
#[derive(Drop)]
struct Registers {
    tables: Vec<Table>,
    continues: Vec<u32>,
}

/// The report of an image that was made by a choice, with ways of this kind.
pub(crate) fn report_of(
    alloc: Global,
    plan: &Plan,
    choice: Choice,
    way: UpDownWay,
    forest: &Forest,
    image: &Image,
) -> Result<UpDownReport, NoMemory> {
    let visit = match way {
        UpDownWay::Form | UpDownWay::Tree => Visit::DepthFirst,
        UpDownWay::Shortest | UpDownWay::Any => choice.visit,
    };
    let root = choice.root;
    let load = image_load(alloc, plan, Choice { root, visit }, forest, image)?;
    Ok(UpDownReport {
        root,
        visit,
        way,
        load,
    })
}

/// What the labels of an image come to.
fn image_load(
    alloc: Global,
    plan: &Plan,
    choice: Choice,
    forest: &Forest,
    image: &Image,
) -> Result<Load, AllocError> {
    let fabric = Fabric::new(alloc, plan)?;
    let plot = Plot::new(alloc, &fabric, choice, forest)?;
    registers_load(alloc, &fabric, &plot, image)
}

/// The same by the ways of its choice.
fn registers_load(
    alloc: Global,
    fabric: &Fabric,
    plot: &Plot,
    image: &Image,
) -> Result<Load, AllocError> {
    let registers = registers_of(alloc, image)?;
    load_of(
        alloc,
        Tables {
            fabric,
            order: plot.ways.order(),
            visit: plot.visit.as_slice(),
            tables: registers.tables.as_slice(),
            continues: registers.continues.as_slice(),
        },
    )
}

/// The tables and groups of an image.
fn registers_of(alloc: Global, image: &Image) -> Result<Registers, AllocError> {
    let mut tables = Vec::new(alloc);
    let mut continues = Vec::new(alloc);
    for switch in image.switches() {
        let mut bits = 0u32;
        let mut bit = 1u32;
        for settings in switch.settings() {
            tables.push(settings.table())?;
            if settings.continue_group() {
                bits |= bit;
            }
            bit = bit.wrapping_add(bit);
        }
        continues.push(bits)?;
    }
    Ok(Registers { tables, continues })
}
