//! The table of subcommands: of each what it asks for, what it takes, its name and its help.

use crate::arguments::{
    ALL, COMMANDS, DESCRIPTION, EACH, FIRST_SCRIPT, HEADER, HEADER_ROWS, LEAN, NAMES,
    OPTIONAL_DESCRIPTION, OUT, ROWS, SCRIPT, SEED, WHAT, WITHOUT, WORKERS, listed,
};
use crate::help;
use clap::Arg;
use std::alloc::{AllocError, Global};

/// What a subcommand asks for.
#[derive(Clone, Copy)]
pub enum Subcommand {
    /// A run of a description and a script.
    Run,
    /// The same, whose script comes line by line from standard input.
    Debug,
    /// A storm: a script's packets, carried by worker threads.
    Storm,
    /// The rows of a run.
    Rows,
    /// A check of a description's labels.
    Check,
    /// The search for a cycle of channel dependencies.
    Cycles,
    /// The labels of a description.
    Label,
}

impl Subcommand {
    /// What it takes, in the order of help. The only error is out of memory.
    pub fn arguments<'a>(self, alloc: Global) -> Result<Vec<Arg<'a>>, AllocError> {
        match self {
            Subcommand::Run => listed(alloc, &[OPTIONAL_DESCRIPTION, SCRIPT]),
            Subcommand::Debug => listed(alloc, &[DESCRIPTION]),
            Subcommand::Storm => listed(alloc, &[DESCRIPTION, SCRIPT, WORKERS, LEAN, SEED]),
            Subcommand::Rows => listed(alloc, &[DESCRIPTION, SCRIPT, WHAT, OUT, EACH]),
            Subcommand::Check => {
                listed(alloc, &[DESCRIPTION, FIRST_SCRIPT, HEADER, HEADER_ROWS])
            }
            Subcommand::Cycles => listed(alloc, &[DESCRIPTION, ALL]),
            Subcommand::Label => {
                listed(
                    alloc,
                    &[DESCRIPTION, FIRST_SCRIPT, NAMES, ROWS, WITHOUT, COMMANDS],
                )
            }
        }
    }
}

/// A row of the table.
#[derive(Clone, Copy)]
pub struct Row {
    /// What it asks for.
    pub subcommand: Subcommand,
    /// Its name, by which it is called.
    pub name: &'static str,
    /// What it is for, in one line.
    pub about: &'static str,
    /// What its help says below its options.
    pub teaching: &'static str,
}

/// The subcommands, in the order of help.
pub const SUBCOMMANDS: [Row; 7] = [
    Row {
        subcommand: Subcommand::Run,
        name: "run",
        about: "Runs a script on the network of a description, and shows what arrived",
        teaching: help::RUN,
    },
    Row {
        subcommand: Subcommand::Debug,
        name: "debug",
        about: "Runs a script that is typed, or that a program sends, line by line",
        teaching: help::DEBUG,
    },
    Row {
        subcommand: Subcommand::Storm,
        name: "storm",
        about: "Lets worker threads carry the packets that a script sends",
        teaching: help::STORM,
    },
    Row {
        subcommand: Subcommand::Rows,
        name: "rows",
        about: "Runs a script, and prints what its packets, links and rounds did, as rows for programs",
        teaching: help::ROWS,
    },
    Row {
        subcommand: Subcommand::Check,
        name: "check",
        about: "Checks the labels of a description: whether every way of each header ends at its terminal",
        teaching: help::CHECK,
    },
    Row {
        subcommand: Subcommand::Cycles,
        name: "cycles",
        about: "Looks for a cycle of channel dependencies, without which no accepted network locks up",
        teaching: help::CYCLES,
    },
    Row {
        subcommand: Subcommand::Label,
        name: "label",
        about: "Shows the labels of a description, and the register values they produce",
        teaching: help::LABEL,
    },
];
