//! What the command line says of labels.

use crate::arguments::{COMMANDS, NAMES, ROWS, SCRIPT, WITHOUT};
use crate::command_line::{Task, WrongWords};
use crate::described::DescriptionTask;
use crate::script_files::ScriptTask;
use c104_readback::Form;
use clap::ArgMatches;

/// At how many ports wires are left out at most.
pub const MOST: usize = 64;

const TOO_MANY: &str = "at most 64 --without";

/// The ports at which wires are left out of a network, and nothing behind them.
pub type Ports<'a> = [Option<&'a str>; MOST];

/// What words that were matched ask for: labels of a description, or those that a script leaves in the registers, which
/// have fewer forms.
pub fn label_task<'a>(given: &ArgMatches<'a>) -> Task<'a> {
    let rows = given.get_flag(ROWS.name);
    if given.get_str(SCRIPT.name).is_some() {
        let form = if rows { Form::Rows } else { Form::Registers };
        return Task::Script(ScriptTask::ReadBack(form));
    }
    match given.get_strs(WITHOUT.name) {
        Some(words) if words.len() > MOST => Task::Refuse(WrongWords::Told(TOO_MANY)),
        Some(_) => Task::Left,
        None if rows => Task::Describe(DescriptionTask::LabelRows),
        None if given.get_flag(NAMES.name) => Task::Describe(DescriptionTask::LabelNames),
        None if given.get_flag(COMMANDS.name) => Task::Describe(DescriptionTask::BootScript),
        None => Task::Describe(DescriptionTask::Labels),
    }
}

/// The ports that words name, the first of them.
pub fn ports_of<'a>(given: &ArgMatches<'a>) -> Ports<'a> {
    let mut ports = [None; MOST];
    let Some(words) = given.get_strs(WITHOUT.name) else {
        return ports;
    };
    for (place, word) in words.iter().enumerate() {
        if let Some(port) = ports.get_mut(place) {
            *port = Some(*word);
        }
    }
    ports
}
