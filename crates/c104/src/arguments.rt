//! The words that commands take: a table of them, and how `clap` is told.

use c104_storm::MAX_WORKERS;
use clap::{Arg, ArgAction, value_parser};
use std::alloc::{AllocError, Global};

/// A word that a command takes, or an option.
#[derive(Clone, Copy)]
pub struct Argument {
    /// Its name: what help shows of a word, and of an option what stands behind `--`.
    pub name: &'static str,
    takes: Takes,
    help: &'static str,
    rule: Rule,
}

/// What else may be said with an argument.
#[derive(Clone, Copy)]
enum Rule {
    Anything,
    /// This has to be, and a script can't.
    With(&'static str),
    /// This can't be.
    Without(&'static str),
    /// None of these can.
    WithoutAny(&'static str, &'static str, &'static str),
}

/// What an argument takes. The texts show an option's value in help.
#[derive(Clone, Copy)]
enum Takes {
    /// It is a word, which is known by its place.
    Word,
    /// The same, which has to be there.
    DueWord,
    /// An option without a value.
    Nothing,
    Text(&'static str),
    /// Several, each behind the option said again.
    Texts(&'static str),
    /// A number of workers.
    Workers(&'static str),
    /// A number of 16 bits.
    Short(&'static str),
    /// A number of 64 bits.
    Long(&'static str),
}

/// `[DESC]`
pub const OPTIONAL_DESCRIPTION: Argument = Argument {
    name: "DESC",
    takes: Takes::Word,
    help: "The description: a file, or - for standard input",
    rule: Rule::Anything,
};

/// `DESC`
pub const DESCRIPTION: Argument = Argument {
    name: "DESC",
    takes: Takes::DueWord,
    help: "The description: a file, or - for standard input",
    rule: Rule::Anything,
};

/// `[SCRIPT]`
pub const SCRIPT: Argument = Argument {
    name: "SCRIPT",
    takes: Takes::Word,
    help: "The script: a file, or - for standard input;
by default what follows a line `script` in DESC",
    rule: Rule::Anything,
};

/// `[SCRIPT]`, where the description has labels of its own.
pub const FIRST_SCRIPT: Argument = Argument {
    name: "SCRIPT",
    takes: Takes::Word,
    help: "A script that is run first: a file, or - for standard input",
    rule: Rule::Anything,
};

/// `[--workers N]`
pub const WORKERS: Argument = Argument {
    name: "workers",
    takes: Takes::Workers("N"),
    help: "How many threads carry the packets, 1 to 64, by default 2",
    rule: Rule::Anything,
};

/// `[--lean]`
pub const LEAN: Argument = Argument {
    name: "lean",
    takes: Takes::Nothing,
    help: "Workers may do more than 1,048,576 events each",
    rule: Rule::Anything,
};

/// `[--seed S]`
pub const SEED: Argument = Argument {
    name: "seed",
    takes: Takes::Long("S"),
    help: "Where the generator begins that picks random headers, 0 to
18446744073709551615; without it each input takes its first",
    rule: Rule::Anything,
};

/// `[--what W ..]`
pub const WHAT: Argument = Argument {
    name: "what",
    takes: Takes::Texts("W"),
    help: "Of which table: packets, links, rounds, run, holds, ways or wishes",
    rule: Rule::Anything,
};

/// `[--out PREFIX]`
pub const OUT: Argument = Argument {
    name: "out",
    takes: Takes::Text("PREFIX"),
    help: "Write each table to a file of its own, all or those of several --what, by one run",
    rule: Rule::Anything,
};

/// `[--each]`
pub const EACH: Argument = Argument {
    name: "each",
    takes: Takes::Nothing,
    help: "Tell ways and wishes of all rounds: what differs from the round before",
    rule: Rule::Anything,
};

/// `[--header N --rows]`: neither stands without the other.
pub const HEADER: Argument = Argument {
    name: "header",
    takes: Takes::Short("N"),
    help: "Of which header, 0 to 255, or 65535 with two bytes",
    rule: Rule::With("rows"),
};

/// The second of these.
pub const HEADER_ROWS: Argument = Argument {
    name: "rows",
    takes: Takes::Nothing,
    help: "List the links by which a header may leave, and its portals",
    rule: Rule::With("header"),
};

/// `[--all]`
pub const ALL: Argument = Argument {
    name: "all",
    takes: Takes::Nothing,
    help: "List each dependency first",
    rule: Rule::Anything,
};

/// `[--names]`
pub const NAMES: Argument = Argument {
    name: "names",
    takes: Takes::Nothing,
    help: "Print the names of registers in place of their addresses",
    rule: Rule::Without("SCRIPT"),
};

/// `[--rows]`
pub const ROWS: Argument = Argument {
    name: "rows",
    takes: Takes::Nothing,
    help: "Print a description with the labels as row lines",
    rule: Rule::Without("names"),
};

/// `[--without P ..]`
pub const WITHOUT: Argument = Argument {
    name: "without",
    takes: Takes::Texts("P"),
    help: "Leave out the wire at this port, as at A.0, once or more often",
    rule: Rule::With("rows"),
};

/// `[--commands]`
pub const COMMANDS: Argument = Argument {
    name: "commands",
    takes: Takes::Nothing,
    help: "Print a script of control commands that load and start the switches",
    rule: Rule::WithoutAny("names", "rows", "SCRIPT"),
};

/// A list of arguments, as `clap` takes it. The only error is out of memory.
pub fn listed<'a>(alloc: Global, arguments: &[Argument]) -> Result<Vec<Arg<'a>>, AllocError> {
    let mut list = Vec::new(alloc);
    for argument in arguments {
        list.push(bound(alloc, *argument)?)?;
    }
    Ok(list)
}

/// An argument, bound to those that have to be there with it, or can't.
fn bound<'a>(alloc: Global, argument: Argument) -> Result<Arg<'a>, AllocError> {
    let alone = unbound(alloc, argument);
    match argument.rule {
        Rule::Anything => Ok(alone),
        Rule::With(other) => alone.requires_arg(other)?.conflicts_with(SCRIPT.name),
        Rule::Without(other) => alone.conflicts_with(other),
        Rule::WithoutAny(first, second, third) => alone
            .conflicts_with(first)?
            .conflicts_with(second)?
            .conflicts_with(third),
    }
}

/// An argument by itself.
fn unbound<'a>(alloc: Global, argument: Argument) -> Arg<'a> {
    let Argument { name, help, .. } = argument;
    let plain = Arg::new(alloc, name).help(help);
    match argument.takes {
        Takes::Word => plain,
        Takes::DueWord => plain.required(true),
        Takes::Nothing => plain.long(name).action(ArgAction::SetTrue),
        Takes::Text(value) => plain.long(name).value_name(value),
        Takes::Texts(value) => plain.long(name).value_name(value).action(ArgAction::Append),
        Takes::Workers(value) => {
            plain
                .long(name)
                .value_name(value)
                .value_parser(value_parser!(u8).range(1..=i64::from(MAX_WORKERS)))
        }
        Takes::Short(value) => {
            plain
                .long(name)
                .value_name(value)
                .value_parser(value_parser!(u16))
        }
        Takes::Long(value) => {
            plain
                .long(name)
                .value_name(value)
                .value_parser(value_parser!(u64))
        }
    }
}

/// The option that asks for messages.
pub const EXPLAIN: &str = "explain";

const EXPLAIN_HELP: &str = "Explain on standard error what is wrong, and what wasn't delivered;
the default on a terminal";

/// `--explain`, before or after any command, once or more often.
pub fn explain_option<'a>(alloc: Global) -> Result<Arg<'a>, AllocError> {
    Arg::new(alloc, EXPLAIN)
        .long(EXPLAIN)
        .help(EXPLAIN_HELP)
        .action(ArgAction::SetTrue)
        .global(true)
        .overrides_with(EXPLAIN)
}
