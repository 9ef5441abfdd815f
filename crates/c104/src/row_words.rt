//! What the command line says of the rows of a run.

use crate::arguments::{EACH, OUT, WHAT};
use crate::command_line::{Task, WrongWords};
use crate::script_files::ScriptTask;
use c104_session::Table;
use clap::ArgMatches;

/// How many tables there are.
const TABLES: usize = 7;

/// All of them, in the order of help.
const ALL_TABLES: [Option<Table>; TABLES] = [
    Some(Table::Packets),
    Some(Table::Links),
    Some(Table::Rounds),
    Some(Table::Run),
    Some(Table::Holds),
    Some(Table::Ways),
    Some(Table::Wishes),
];

const UNKNOWN: &str = "the tables are packets, links, rounds, run, holds, ways and wishes";

const SEVERAL: &str = "several tables want --out PREFIX, since each goes to a file of its own";

const NO_TABLE: &str = "--what W prints a table, and --out PREFIX writes tables to files";

/// Which rows of a run are saved in files.
#[derive(Clone, Copy)]
pub struct Saving<'a> {
    /// How the paths of the files begin.
    pub prefix: &'a str,
    /// The tables in their order, each once, and nothing behind them.
    pub tables: [Option<Table>; TABLES],
    /// Whether what stands is told round by round.
    pub each: bool,
}

/// What words that were matched ask for. A table that there isn't is wrong, and so is one that is named twice, several
/// tables without files for them, or none.
pub fn row_task<'a>(given: &ArgMatches<'a>) -> Task<'a> {
    let mut tables = [None; TABLES];
    if let Err(wrong) = add_tables(given, &mut tables) {
        return Task::Refuse(wrong);
    }
    let [first, second, ..] = tables;
    let each = given.get_flag(EACH.name);
    if let Some(prefix) = given.get_str(OUT.name) {
        return Task::Save(Saving {
            prefix,
            tables: if first.is_some() { tables } else { ALL_TABLES },
            each,
        });
    }
    match first {
        Some(_) if second.is_some() => Task::Refuse(WrongWords::Told(SEVERAL)),
        Some(table) => Task::Script(ScriptTask::Rows(table, each)),
        None => Task::Refuse(WrongWords::Told(NO_TABLE)),
    }
}

/// The tables that words name go to their places.
fn add_tables(given: &ArgMatches<'_>, tables: &mut [Option<Table>]) -> Result<(), WrongWords> {
    let Some(words) = given.get_strs(WHAT.name) else {
        return Ok(());
    };
    for (place, word) in words.iter().enumerate() {
        let Some(table) = table_of(word) else {
            return Err(WrongWords::Told(UNKNOWN));
        };
        if words.iter().take(place).any(|before| before == word) {
            return Err(WrongWords::Twice(name_of(table)));
        }
        if let Some(named) = tables.get_mut(place) {
            *named = Some(table);
        }
    }
    Ok(())
}

/// The table of this name.
fn table_of(word: &str) -> Option<Table> {
    for named in ALL_TABLES {
        if let Some(table) = named
            && name_of(table) == word
        {
            return named;
        }
    }
    None
}

/// The name of a table.
pub fn name_of(table: Table) -> &'static str {
    match table {
        Table::Packets => "packets",
        Table::Links => "links",
        Table::Rounds => "rounds",
        Table::Run => "run",
        Table::Holds => "holds",
        Table::Ways => "ways",
        Table::Wishes => "wishes",
    }
}
