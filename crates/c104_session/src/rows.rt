//! The command that prints a table of a run.
ghost use Rattle.std.specs.Prelude.{[], ℕ, ◌∷◌, ◌≡◌};
ghost use Rattle.{c104_plan.specs.PlanImage.Fits, c104_rows.specs.Tables.wanted_of, c104_session.specs.RowRuns.IsRefusedRows};
ghost use Rattle.c104_session.specs.TextRuns.{TextEnds, WritesRun};
ghost use Rattle.c104_setup.specs.declared.status.Status.TheVariants as status;

use crate::row_runs::{RowsRun, rows_plan};
use crate::text_runs::write_run;
use c104_mistakes::Messages;
use c104_plan::{Image, Plan};
use c104_rows::{Table, Wanted};
use c104_setup::{Setup, Status, read_setup};
use std::alloc::Global;
use std::io::{Read, Write};

/// Reads a description, and then reads a script and does on its network, started with the image of its labels, what the
/// script's lines ask, as `run` does; and writes, in place of the answers and of what arrived, a table of that: of its end, or
/// where `each` is said and the table tells how the network stands, behind each round.
///
/// Behind the first line that is refused since a trace or an inbox is full nothing is done; that is told even where no messages
/// are wanted, and the status is Refused.
///
/// It tells people of each line that is faulty, refused or not ready, and at the end of what didn't arrive. A network that
/// stands still with tokens in it is told of even where no messages are wanted, as far as there is memory for that. How the
/// command ends is the same whatever takes the messages does.
///
/// Reading ends at 1 MiB of a description and at 16 MiB of a script, whatever the reader. Each error of a reader or a
/// writer is a fault at once.
pub fn rows_command<D: Read, S: Read, W: Write, M: Messages>(
    alloc: Global,
    table: Table,
    each: bool,
    description: &mut D,
    script: &mut S,
    writer: &mut W,
    messages: &mut M,
) -> Status
    ensures ends { TextEnds (IsRefusedRows (wanted_of each (table ∷ [])) (S.remaining script.old)) (D.remaining description.old)
        (W.contents writer.old) (W.contents writer.new) result }
    ensures of_description { result ≡ status.CannotRead 0 → script.new ≡ script.old }
{
    let Setup { plan, image, .. } = match read_setup(alloc, description, writer, messages) {
        Ok(setup) => setup,
        Err(status) => return status,
    };
    rows_setup(alloc, table, each, &plan, image, script, writer, messages)
}

/// The same of the network of a plan, with an image that fits it.
#[tactic(auto, using(crate::proofs::TextRuns::text_halts))]
fn rows_setup<S: Read, W: Write, M: Messages>(
    alloc: Global,
    table: Table,
    each: bool,
    plan: &Plan,
    image: Image,
    script: &mut S,
    writer: &mut W,
    messages: &mut M,
) -> Status
    requires { Fits image plan.now }
    ensures runs { WritesRun (IsRefusedRows (wanted_of each (table ∷ [])) (S.remaining script.old) plan.now image)
        (W.contents writer.old) (W.contents writer.new) result }
    ensures of_script { (n : ℕ) → result ≡ status.CannotRead n → n ≡ 1 }
{
    let wanted = Wanted::of(&[table], each);
    let run = match rows_plan(alloc, plan, image, wanted, script, messages) {
        Ok(run) => run,
        Err(halt) => return Status::of_halt(halt, 1),
    };
    write_table(alloc, table, plan, &run, writer, messages)
}

/// Writes a table of a run, and tells how the run ended.
fn write_table<W: Write, M: Messages>(
    alloc: Global,
    table: Table,
    plan: &Plan,
    run: &RowsRun,
    writer: &mut W,
    messages: &mut M,
) -> Status
    ensures runs { WritesRun (λ text refused. refused ≡ run.now.is_refused) (W.contents writer.old) (W.contents writer.new) result }
    ensures of_run { (n : ℕ) → result ≡ status.CannotRead n → n ≡ 1 }
{
    let Ok(text) = run.text(alloc, plan, table) else {
        return Status::NoMemory;
    };
    let status = write_run(text.as_bytes(), run.is_refused, writer);
    if let Status::Done | Status::Refused = status {
        run.tell_end(alloc, messages);
    }
    status
}
