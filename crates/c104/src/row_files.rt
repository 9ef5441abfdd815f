//! Rows of a run of a description and a script that are saved, each table in a file of its own.
//!
//! All files are of one run, and are made before it.

ghost use Rattle.c104_plan.specs.PlanImage.{Fits};

use crate::command_line::Order;
use crate::row_words::{Saving, name_of};
use crate::texts::{Script, open_texts, script_fault};
use crate::told::Told;
use c104_host::Recorded;
use c104_plan::{Image, Plan};
use c104_session::{RowsRun, Table, Wanted, rows_plan};
use c104_setup::{Setup, Status, read_setup};
use c104_token::NoMemory;
use std::alloc::Global;
use std::fs::File;
use std::io::Write;
use std::{fs, mem};

/// The file of a table, and its path.
#[derive(Drop)]
struct RowFile {
    table: Table,
    path: String,
    file: File,
}

/// Writes the rows of each table to a file.
pub fn save_rows<'a, W: Write + Drop>(
    rt: &HostRuntime,
    order: Order<'a>,
    saving: Saving<'_>,
    output: &mut Recorded<W>,
    told: &mut Told<'a>,
) -> Status {
    let mut texts = match open_texts(rt, order, told) {
        Ok(texts) => texts,
        Err(status) => return status,
    };
    let mut description = texts.description.as_slice();
    let Setup { plan, image, .. } = match read_setup(rt.alloc(), &mut description, output, told) {
        Ok(setup) => setup,
        Err(status) => return status,
    };
    save_network(rt, saving, &plan, image, &mut texts.script, told)
}

/// The same of the network of a plan, with an image that fits it.
fn save_network(
    rt: &HostRuntime,
    saving: Saving<'_>,
    plan: &Plan,
    image: Image,
    script: &mut Script,
    told: &mut Told<'_>,
) -> Status
    requires { Fits image plan.now }
{
    match make_files(rt, saving, told) {
        Ok(mut files) => save_run(
            rt.alloc(),
            saving.each,
            plan,
            image,
            script,
            &mut files,
            told,
        ),
        Err(status) => status,
    }
}

/// Makes the files of tables. The error is how the command ends.
fn make_files(
    rt: &HostRuntime,
    saving: Saving<'_>,
    told: &mut Told<'_>,
) -> Result<Vec<RowFile>, Status> {
    let mut files = Vec::new(rt.alloc());
    for table in saving.tables {
        if let Some(table) = table {
            let file = make_file(rt, saving.prefix, table, told)?;
            if files.push(file).is_err() {
                return Err(Status::NoMemory);
            }
        }
    }
    Ok(files)
}

/// Makes the file of a table.
fn make_file(
    rt: &HostRuntime,
    prefix: &str,
    table: Table,
    told: &mut Told<'_>,
) -> Result<RowFile, Status> {
    let name = name_of(table);
    let Ok(path) = format!(in rt.alloc(); "{prefix}-{name}.csv") else {
        return Err(Status::NoMemory);
    };
    match fs::create(rt, path.as_str()) {
        Ok(file) => Ok(RowFile { table, path, file }),
        Err(error) => Err(told.unwritten(path, &error)),
    }
}

/// Does a run, and writes its rows to these files.
fn save_run(
    alloc: Global,
    each: bool,
    plan: &Plan,
    image: Image,
    script: &mut Script,
    files: &mut Vec<RowFile>,
    told: &mut Told<'_>,
) -> Status
    requires { Fits image plan.now }
{
    let Ok(wanted) = wanted_of(alloc, each, files.as_slice()) else {
        return Status::NoMemory;
    };
    match rows_plan(alloc, plan, image, wanted, script, told) {
        Ok(run) => {
            run.tell_end(alloc, told);
            write_files(alloc, plan, &run, files, told)
        }
        Err(halt) => {
            told.fault = script_fault(script);
            Status::of_halt(halt, 1)
        }
    }
}

/// What is wanted of a run for these files. The only error is out of memory.
fn wanted_of(alloc: Global, each: bool, files: &[RowFile]) -> Result<Wanted, NoMemory> {
    let mut tables = Vec::new(alloc);
    for file in files {
        tables.push(file.table)?;
    }
    Ok(Wanted::of(tables.as_slice(), each))
}

/// Writes the rows of a run to files.
fn write_files(
    alloc: Global,
    plan: &Plan,
    run: &RowsRun,
    files: &mut Vec<RowFile>,
    told: &mut Told<'_>,
) -> Status {
    for file in files.iter_mut() {
        let status = write_file(alloc, plan, run, file, told);
        if status != Status::Done {
            return status;
        }
    }
    if run.is_refused {
        Status::Refused
    } else {
        Status::Done
    }
}

/// Writes the rows of a run to the file of their table.
fn write_file(
    alloc: Global,
    plan: &Plan,
    run: &RowsRun,
    file: &mut RowFile,
    told: &mut Told<'_>,
) -> Status {
    let Ok(text) = run.text(alloc, plan, file.table) else {
        return Status::NoMemory;
    };
    match file.file.write_all(text.as_bytes()) {
        Ok(()) => Status::Done,
        Err(error) => told.unwritten(mem::replace(&mut file.path, String::new(alloc)), &error),
    }
}
