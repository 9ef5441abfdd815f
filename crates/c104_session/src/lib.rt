//! Scripts that are answered by a network, and the commands that run one.
//!
//! A `Session` is a network in the midst of a script: it keeps the `TracedNet`, what was loaded there, and whether a
//! line was faulty so far. It can't be dropped, and neither can what `finish` gives at its end, an `Ended` with the
//! `EndedNet` that tells what arrived.
//! `answer_script` answers the lines of a script as they are read, `summary_lines` tells what arrived
//! at each terminal, and `run_plan` does both on the network of a plan.
//!
//! The commands are functions over readers and a writer: `run` takes a description and a script from two readers,
//! `debug_command` a script line by line, `run_text` both from one text; `rows_command` prints a table of a run, and `rows_plan`
//! keeps what several tables of one run need. Each reads no further than the limits of a description, 1 MiB, and of a
//! script, 16 MiB, and reports what is faulty, refused, not ready or didn't arrive to what takes `Messages`; what it writes
//! and answers is the same whatever that does. Give `Silent` to report to nobody. A `Status` (c104_setup) is how a command
//! ended.
//!
//! Lines are answered as they are read, and all answers are written before the reader is asked for
//! more. A faulty line changes nothing but that there was one; running out of memory ends the script,
//! and so does a failing reader or writer.
//!
//! A person who types a script may ask questions among its lines. To the script these are unknown words, and are
//! answered as such; the messages give what was asked for.
#![tactic(auto)]

mod answering;
mod driven;
mod driver;
mod ended;
mod explaining;
mod found_registers;
mod keepers;
mod probing;
mod recording;
mod refusals;
mod resets;
mod row_runs;
mod rows;
mod run_commands;
mod runs;
mod session;
mod settling;
mod starting;
mod summary;
mod summary_text;
mod tally;
mod telling;
mod text_runs;
mod tools;

pub use answering::{answer_script, do_script};
pub use c104_rows::{Table, Wanted};
pub use ended::EndedNet;
pub use row_runs::{RowsRun, Still, rows_plan};
pub use rows::rows_command;
pub use run_commands::{debug_command, run, run_text};
pub use runs::run_plan;
pub use session::{Ended, Session};
pub use starting::start_net;
pub use summary::summary_lines;
pub use summary_text::SummaryLine;
pub use text_runs::{RunText, write_run};
