//! The commands of the program's command line that take a description alone, as functions over a reader and a writer.
//!
//! `check_command` checks its labels, `header_rows_command` lists where one header may come, and `cycles_command` looks for a
//! cycle of channel dependencies; `label_command` shows the labels, `label_names_command` the same with the names of registers,
//! `label_rows_command` by `row` lines, `rows_without_command` those of what is left of the network without some wires, and
//! `boot_script_command` by control commands. Each begins as c104_setup says, and reads no further than the limit of a
//! description, 1 MiB.
//!
//! Each of them reports what is faulty or refused to what takes `Messages`; what it writes and answers is the same
//! whatever that does. Give `Silent` to report to nobody. Of labels people are told what c104_fixes finds.
#![tactic(auto)]

mod advice;
mod boot_lines;
mod boot_scripts;
mod boots;
mod checked;
mod checks;
mod cycle_texts;
mod cycles;
mod header_rows;
mod images;
mod label_names;
mod label_rows;
mod labels;
mod left_rows;
mod plan_copies;
mod plans_without;
mod reports;
mod rows_without;
mod sentences;
mod shape_lines;
mod shows;
mod texts;

pub use advice::{check_advice, cycle_advice};
pub use boot_scripts::boot_script_command;
pub use boots::{SwitchCommand, boot_commands};
pub use checked::checked_text;
pub use checks::check_command;
pub use cycles::cycles_command;
pub use header_rows::{HeaderRow, header_rows_command};
pub use images::image_text;
pub use label_names::label_names_command;
pub use label_rows::{Shown, label_rows_command, shown_rows};
pub use labels::label_command;
pub use left_rows::rows_without_command;
pub use plans_without::plan_without;
pub use texts::check_fault_text;
