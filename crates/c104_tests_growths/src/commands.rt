//! The commands: out of memory what a run wrote is the beginning of what it writes else, and of the others nothing is
//! written.
use crate::calls::PLAN;
use crate::ground::{Ground, growths_on};
use crate::growths::{Growing, Refusal, Sharing, is_right, is_told};
use crate::outcomes::Outcome;
use crate::written::{ANSWERS, Page, SCRIPT, SENDS, STORM_END, SUMMARY, TWO_ANSWERS};
use c104_commands::{
    boot_script_command, check_command, cycles_command, header_rows_command, label_command,
    label_names_command, label_rows_command, rows_without_command,
};
use c104_mistakes::Silent;
use c104_readback::{Form, read_back_command};
use c104_session::{Table, debug_command, rows_command, run, run_text};
use c104_setup::Status;
use c104_storm::{Allowance, Words, storm_command};
use std::alloc::Global;
use std::sync::Wait;
use std::thread::Threads;

/// A description and a script in one text.
const TEXT: &[u8] =
    b"switch A\nterminal a A.0\nterminal b A.1\nrow A.0 2 1\nscript\nsend a 01 aa eop\n\
    rounds 9\n";

/// Two switches with a terminal each, and two wires between them of which either will do.
const TWO_WIRES: &[u8] = b"switch A\nswitch B\nterminal a A.0\nterminal b B.0\n\
    wire A.1 B.1\nwire A.2 B.2\ncontinue A.2\ncontinue B.2\n\
    row A 1 0\nrow A 2 1\nrow B 1 1\nrow B 2 0\n";

/// Whence a run reads.
#[derive(Clone, Copy)]
enum Source {
    Parts,
    Lines,
    Text,
}

impl Source {
    fn run(self, alloc: Global, page: &mut Page) -> Status {
        let (mut description, mut script, mut text) = (PLAN, SCRIPT, TEXT);
        match self {
            Source::Parts => run(alloc, &mut description, &mut script, page, &mut Silent),
            Source::Lines => debug_command(alloc, &mut description, &mut script, page, &mut Silent),
            Source::Text => run_text(alloc, &mut text, page, &mut Silent),
        }
    }

    fn answers(self) -> &'static [u8] {
        match self {
            Source::Parts | Source::Lines => ANSWERS,
            Source::Text => TWO_ANSWERS,
        }
    }
}

/// A run. Out of memory whole answers were written, to the first lines or to all, and no summary.
#[derive(Drop)]
struct Running(Source);

impl Growing for Running {
    fn call(&self, alloc: Global, refusal: Refusal) -> Outcome {
        let Some(mut page) = Page::new(alloc) else {
            return Outcome::Wrong;
        };
        refusal.begin(alloc);
        let status = self.0.run(alloc, &mut page);
        refusal.end(alloc);
        page.judge(Outcome::of_status(status), self.0.answers(), SUMMARY)
    }
}

/// A command over the description of the first run, or over two switches.
#[derive(Clone, Copy)]
enum Command {
    Check,
    Header,
    Cycles(bool),
    Label,
    Rows,
    Without,
    Names,
    BootScript,
    Table(Table),
}

impl Command {
    fn run(self, alloc: Global, page: &mut Page) -> Status {
        let (mut text, mut script, mut wired) = (PLAN, SCRIPT, TWO_WIRES);
        match self {
            Command::Check => check_command(alloc, &mut text, page, &mut Silent),
            Command::Header => header_rows_command(alloc, 1, &mut wired, page, &mut Silent),
            Command::Cycles(all) => cycles_command(alloc, &mut text, all, page, &mut Silent),
            Command::Label => label_command(alloc, &mut text, page, &mut Silent),
            Command::Rows => label_rows_command(alloc, &mut text, page, &mut Silent),
            Command::Without => {
                rows_without_command(alloc, &["A.1"], &mut wired, page, &mut Silent)
            }
            Command::Names => label_names_command(alloc, &mut text, page, &mut Silent),
            Command::BootScript => boot_script_command(alloc, &mut text, page, &mut Silent),
            Command::Table(table) => {
                rows_command(
                    alloc,
                    table,
                    true,
                    &mut text,
                    &mut script,
                    page,
                    &mut Silent,
                )
            }
        }
    }
}

/// A command is done. Out of memory nothing was written.
#[derive(Drop)]
struct Commanding(Command);

impl Growing for Commanding {
    fn call(&self, alloc: Global, refusal: Refusal) -> Outcome {
        let Some(mut page) = Page::new(alloc) else {
            return Outcome::Wrong;
        };
        refusal.begin(alloc);
        let status = self.0.run(alloc, &mut page);
        refusal.end(alloc);
        Outcome::of_status(status).if_kept(page.written().is_empty())
    }
}

/// The labels that a script leaves in registers. Out of memory nothing was written.
#[derive(Drop)]
struct ReadingBack(Form);

impl Growing for ReadingBack {
    fn call(&self, alloc: Global, refusal: Refusal) -> Outcome {
        let Some(mut page) = Page::new(alloc) else {
            return Outcome::Wrong;
        };
        let (mut text, mut script) = (PLAN, SCRIPT);
        refusal.begin(alloc);
        let status = read_back_command(
            alloc,
            self.0,
            &mut text,
            &mut script,
            &mut page,
            &mut Silent,
        );
        refusal.end(alloc);
        Outcome::of_status(status).if_kept(page.written().is_empty())
    }
}

/// A storm by two workers. Out of memory answers to lines were written, and nothing of the storm.
#[derive(Drop)]
struct Storming;

impl Sharing for Storming {
    fn call<R: Threads + Wait + Sync>(
        &self,
        rt: &R,
        alloc: Global,
        _ground: Ground<'_>,
        refusal: Refusal,
    ) -> Outcome {
        let Some(mut page) = Page::new(alloc) else {
            return Outcome::Wrong;
        };
        refusal.begin(alloc);
        let status = storm(rt, alloc, &mut page);
        refusal.end(alloc);
        page.judge(Outcome::of_status(status), TWO_ANSWERS, STORM_END)
    }
}

fn storm<R: Threads + Wait + Sync>(rt: &R, alloc: Global, page: &mut Page) -> Status {
    let (mut description, mut sends) = (PLAN, SENDS);
    storm_command(
        alloc,
        rt,
        2,
        Words::Zero,
        Allowance::Listed,
        &mut description,
        &mut sends,
        page,
        &mut Silent,
    )
}

#[test]
fn runs(rt: HostRuntime) {
    assert!(rt; is_right(&rt, "run", &Running(Source::Parts)));
    assert!(rt; is_right(&rt, "debug_command", &Running(Source::Lines)));
    assert!(rt; is_right(&rt, "run_text", &Running(Source::Text)));
}

#[test]
fn commands(rt: HostRuntime) {
    for (name, command) in [
        ("check_command", Command::Check),
        ("header_rows_command", Command::Header),
        ("cycles_command", Command::Cycles(false)),
        ("cycles_command", Command::Cycles(true)),
        ("label_command", Command::Label),
        ("label_rows_command", Command::Rows),
        ("rows_without_command", Command::Without),
        ("label_names_command", Command::Names),
        ("boot_script_command", Command::BootScript),
        ("rows_command", Command::Table(Table::Links)),
        ("rows_command", Command::Table(Table::Holds)),
        ("rows_command", Command::Table(Table::Ways)),
    ] {
        assert!(rt; is_right(&rt, name, &Commanding(command)));
    }
}

#[test]
fn labels_of_registers(rt: HostRuntime) {
    for form in [Form::Registers, Form::Rows, Form::Check] {
        assert!(rt; is_right(&rt, "read_back_command", &ReadingBack(form)));
    }
}

#[test]
fn storms(rt: HostRuntime) {
    let growths = growths_on(&rt, rt.alloc(), PLAN, &Storming);
    assert!(rt; is_told(&rt, "storm_command", growths));
}
