//! What people are told of labels: of refused ones what is wrong and what mends it, and of accepted ones whether packets
//! can wait for one another forever. How it is worded has no clause.
//!
//! An advice is told line by line, each a message of its own, so that every line of standard error begins with the
//! program's name and the file. A line that is to be added or replaced comes after one word and a colon.
ghost use Rattle.{c104_check.specs.Routes.{IsAccepted, routes_of}, c104_plan.specs.PlanImage.Fits};

use crate::cycle_texts::cycle_text;
use crate::sentences::{cycle_sentences, label_line, no_cycle_text, refusal_text, row_lines};
use c104_check::{
    ChannelDependency, CheckFault, Misstep, RanksOrCycle, SwitchPort, find_cycle, find_misstep,
};
use c104_fixes::{Fix, RowChange, RowFix, RowLines, TriedFix, Waiting, find_fix_of, find_waiting};
use c104_interval::Row;
use c104_mistakes::typed_header;
use c104_plan::{Image, Plan, Port, Terminal};
use c104_token::NoMemory;
use std::alloc::{AllocError, Global};

/// What is told of labels that a script left, if there is no cycle. Which packets arrive isn't told: of those that are under way
/// headers may have been read by other labels.
const NO_CYCLE: &str = "no cycle of channel dependencies\n";

/// The same before the line of a cycle, if there is one.
const IN_CYCLE: &str =
    "packets can wait for one another forever, though with groups of links they need not:\n";

/// Tells people why the labels of a plan's own image are refused, by the names of the plan: a line that says what
/// is wrong and at which input, and then the lines of a fix, if one is found. These are `add: LINE`, for lines to be
/// put behind the description's own, or `replace: LINE` with `by: LINE` after it, once or more, and again for other inputs. Where the check ran out
/// of memory, nothing is told. It fails only when out of memory.
pub fn check_advice(
    alloc: Global,
    plan: &Plan,
    image: &Image,
    fault: &CheckFault,
) -> Result<String, NoMemory>
    requires { Fits image.now plan.now }
{
    refusal_advice(alloc, None, plan, image, fault)
}

/// The same; where the text of the description is known, the lines are for this text, and those to be taken out have their
/// numbers: `replace line NUMBER: LINE`.
pub(crate) fn refusal_advice(
    alloc: Global,
    description: Option<&[u8]>,
    plan: &Plan,
    image: &Image,
    fault: &CheckFault,
) -> Result<String, NoMemory>
    requires { Fits image.now plan.now }
{
    let mut text = refusal_sentences(alloc, plan, image, fault)?;
    if !text.is_empty() {
        add_mend(alloc, description, plan, image, fault, &mut text)?;
    }
    Ok(text)
}

/// What is told of refused labels that no line of a description made: what is wrong and at which input, and no lines that mend
/// it. Where the check ran out of memory, nothing. It fails only when out of memory.
pub(crate) fn refusal_sentences(
    alloc: Global,
    plan: &Plan,
    image: &Image,
    fault: &CheckFault,
) -> Result<String, NoMemory>
    requires { Fits image.now plan.now }
{
    let step = find_misstep(alloc, plan, image, fault)?;
    let text = wrong_text(alloc, plan, fault, step)?;
    Ok(text)
}

/// What is wrong with labels that are refused for a fault, whose walk takes a wrong step, if it has one.
fn wrong_text(
    alloc: Global,
    plan: &Plan,
    fault: &CheckFault,
    step: Option<Misstep>,
) -> Result<String, AllocError> {
    let header = header_of(alloc, plan, fault)?;
    refusal_text(alloc, plan, fault, header.as_str(), step)
}

/// The lines that mend labels which are refused for a fault join a text, if any are found.
fn add_mend(
    alloc: Global,
    description: Option<&[u8]>,
    plan: &Plan,
    image: &Image,
    fault: &CheckFault,
    text: &mut String,
) -> Result<(), NoMemory>
    requires { Fits image.now plan.now }
{
    let lines = lines_of(alloc, description, plan)?;
    let fix = find_fix_of(alloc, lines.as_ref(), plan, image, fault)?;
    add_fix(alloc, lines.as_ref(), plan, &fix, text)
}

/// The header of a fault of a walk, as it is typed.
fn header_of(alloc: Global, plan: &Plan, fault: &CheckFault) -> Result<String, AllocError> {
    match fault {
        CheckFault::WrongEnd(shown)
        | CheckFault::DeadEnd(shown)
        | CheckFault::Loop(shown)
        | CheckFault::Stray(shown) => typed_header(alloc, plan, shown.header),
        _ => Ok(String::new(alloc)),
    }
}

/// Tells people whether packets can wait for one another forever with accepted labels, by the names of the plan: a line
/// says that they can't, since there is no cycle of channel dependencies; or lines say that they can, and by which
/// cycle, followed by those that break it, if changing one row was found to. These are `replace: LINE` and then
/// `by: LINE`, once or more. It fails only when out of memory.
pub fn cycle_advice(alloc: Global, plan: &Plan, image: &Image) -> Result<String, NoMemory>
    requires fits { Fits image.now plan.now }
    requires accepted { IsAccepted (routes_of plan.now image.now) }
{
    waiting_advice(alloc, None, plan, image)
}

/// The same; where the text of the description is known, the lines are for this text.
pub(crate) fn waiting_advice(
    alloc: Global,
    description: Option<&[u8]>,
    plan: &Plan,
    image: &Image,
) -> Result<String, NoMemory>
    requires fits { Fits image.now plan.now }
    requires accepted { IsAccepted (routes_of plan.now image.now) }
{
    match find_waiting(alloc, plan, image)? {
        Waiting::Never(randomized) => {
            let text = no_cycle_text(randomized.is_some());
            Ok(String::from_str(alloc, text)?)
        }
        Waiting::InCycle(cycle, fix) => {
            broken_text(
                alloc,
                description,
                plan,
                cycle.dependencies.as_slice(),
                &fix,
            )
        }
    }
}

/// What is told of accepted labels that no line of a description made: whether there is a cycle, and which, and no lines that
/// break it. It fails only when out of memory.
pub(crate) fn waiting_sentences(
    alloc: Global,
    plan: &Plan,
    image: &Image,
) -> Result<String, NoMemory>
    requires fits { Fits image.now plan.now }
    requires accepted { IsAccepted (routes_of plan.now image.now) }
{
    let found = find_cycle(alloc, plan, image)?;
    match found {
        RanksOrCycle::Ranks(_) => Ok(String::from_str(alloc, NO_CYCLE)?),
        RanksOrCycle::Cycle(cycle) => {
            let mut text = String::from_str(alloc, IN_CYCLE)?;
            let line = cycle_text(alloc, plan, cycle.dependencies.as_slice())?;
            text.push_str(line.as_str())?;
            Ok(text)
        }
    }
}

/// What is told of a cycle, and the lines that break it, if any do.
fn broken_text(
    alloc: Global,
    description: Option<&[u8]>,
    plan: &Plan,
    cycle: &[ChannelDependency],
    fix: &Option<TriedFix>,
) -> Result<String, NoMemory> {
    let mut text = waiting_text(alloc, plan, cycle, fix.is_some())?;
    let lines = lines_of(alloc, description, plan)?;
    add_fix(alloc, lines.as_ref(), plan, fix, &mut text)?;
    Ok(text)
}

/// The sentences on a cycle.
fn waiting_text(
    alloc: Global,
    plan: &Plan,
    cycle: &[ChannelDependency],
    is_broken: bool,
) -> Result<String, NoMemory> {
    let line = cycle_text(alloc, plan, cycle)?;
    Ok(cycle_sentences(alloc, line.as_str(), is_broken)?)
}

/// The lines of a description, where its text is known.
fn lines_of<'a>(
    alloc: Global,
    description: Option<&'a [u8]>,
    plan: &Plan,
) -> Result<Option<RowLines<'a>>, NoMemory> {
    match description {
        Some(description) => Ok(Some(RowLines::read(alloc, description, plan)?)),
        None => Ok(None),
    }
}

/// The lines of a fix join a text, if there is one.
fn add_fix(
    alloc: Global,
    lines: Option<&RowLines<'_>>,
    plan: &Plan,
    tried: &Option<TriedFix>,
    text: &mut String,
) -> Result<(), NoMemory> {
    let Some(tried) = tried else {
        return Ok(());
    };
    match &tried.fix {
        Fix::Labels(terminal, first) => add_labels(alloc, lines, plan, *terminal, *first, text),
        Fix::Rows(fixes) => add_tables(alloc, lines, plan, fixes.as_slice(), &tried.image, text),
    }
}

/// The lines by which inputs have other rows join a text.
fn add_tables(
    alloc: Global,
    lines: Option<&RowLines<'_>>,
    plan: &Plan,
    fixes: &[RowFix],
    image: &Image,
    text: &mut String,
) -> Result<(), NoMemory> {
    for fix in fixes {
        add_table(alloc, lines, plan, fix, image, text)?;
    }
    Ok(())
}

/// The lines by which a terminal has as many labels from another on; the first of them with its number, and as it is spelled,
/// where the text is known.
fn add_labels(
    alloc: Global,
    lines: Option<&RowLines<'_>>,
    plan: &Plan,
    terminal: usize,
    first: u32,
    text: &mut String,
) -> Result<(), NoMemory> {
    let Some(own) = plan.terminals().get(terminal) else {
        return Ok(());
    };
    let counts = add_old_labels(alloc, lines, plan, own, terminal, text)?;
    let by = label_line(alloc, plan, terminal, counts, first)?;
    add_line(text, "by", by.as_str())
}

/// The line of a terminal's labels joins a text, as one that is to be taken out. Says whether it tells how many there are.
fn add_old_labels(
    alloc: Global,
    lines: Option<&RowLines<'_>>,
    plan: &Plan,
    own: &Terminal,
    terminal: usize,
    text: &mut String,
) -> Result<bool, NoMemory> {
    if let Some(lines) = lines
        && let Some((line, says_count)) = lines.terminal_line(alloc, own.name.as_bytes())?
    {
        add_spelled(alloc, lines, line, text)?;
        return Ok(says_count);
    }
    let old = label_line(alloc, plan, terminal, true, own.first)?;
    add_line(text, "replace", old.as_str())?;
    Ok(true)
}

/// A line joins a text behind a word and a colon.
fn add_line(text: &mut String, word: &str, line: &str) -> Result<(), NoMemory> {
    write!(text, "{word}: {line}\n")?;
    Ok(())
}

/// The line of this number joins a text, as one that is to be taken out.
fn add_spelled(
    alloc: Global,
    lines: &RowLines<'_>,
    line: usize,
    text: &mut String,
) -> Result<(), NoMemory> {
    let spelled = lines.spelled(alloc, line)?;
    write!(text, "replace line {line}: {spelled}\n")?;
    Ok(())
}

/// The lines by which an input has other rows join a text. The image has them already.
fn add_table(
    alloc: Global,
    lines: Option<&RowLines<'_>>,
    plan: &Plan,
    rows: &RowFix,
    image: &Image,
    text: &mut String,
) -> Result<(), NoMemory> {
    let inputs = inputs_text(alloc, plan, rows)?;
    let inputs = inputs.as_str();
    if let Some(lines) = lines
        && !rows.is_shared
        && lines.is_shared(rows.at.switch, rows.at.link)
    {
        return add_own_table(alloc, lines, rows, inputs, image, text);
    }
    for change in rows.changes.as_slice() {
        add_change(alloc, lines, rows, inputs, change, text)?;
    }
    Ok(())
}

/// How the lines of a fix name its inputs.
fn inputs_text(alloc: Global, plan: &Plan, rows: &RowFix) -> Result<String, AllocError> {
    let at = rows.at;
    if rows.is_shared {
        return String::from_str(alloc, plan.switch_name(at.switch));
    }
    plan.port_text(alloc, Port::Switch(at.switch, at.link))
}

/// The lines of a change of rows join a text.
fn add_change(
    alloc: Global,
    lines: Option<&RowLines<'_>>,
    rows: &RowFix,
    inputs: &str,
    change: &RowChange,
    text: &mut String,
) -> Result<(), NoMemory> {
    let mut word = "add";
    if let Some(replaced) = change.replaced {
        word = "by";
        add_replaced(alloc, lines, rows, inputs, replaced, text)?;
    }
    add_rows(alloc, word, inputs, change.by.as_slice(), text)?;
    Ok(())
}

/// The line of a row that is taken out, by its number and its row, joins a text; with the line's number, and as it is spelled
/// there, where the description's text is known.
fn add_replaced(
    alloc: Global,
    lines: Option<&RowLines<'_>>,
    rows: &RowFix,
    inputs: &str,
    replaced: (usize, Row),
    text: &mut String,
) -> Result<(), NoMemory> {
    let link = if rows.is_shared {
        None
    } else {
        Some(rows.at.link)
    };
    if let Some(lines) = lines
        && let Some(line) = lines.line_of(rows.at.switch, link, replaced.0)
    {
        return add_spelled(alloc, lines, line, text);
    }
    add_rows(alloc, "replace", inputs, &[replaced.1], text)?;
    Ok(())
}

/// The lines of all rows of an input that has its switch's table join a text, and that of the base if it needs one, since a row
/// of its own takes that table from an input.
fn add_own_table(
    alloc: Global,
    lines: &RowLines<'_>,
    rows: &RowFix,
    inputs: &str,
    image: &Image,
    text: &mut String,
) -> Result<(), NoMemory> {
    let at = rows.at;
    let base = base_at(image, at);
    if base != 0 && !lines.has_base(at.switch, Some(at.link)) {
        write!(text, "add: base {inputs} {base}\n")?;
    }
    add_rows(alloc, "add", inputs, rows.rows.as_slice(), text)?;
    Ok(())
}

/// The lines of rows join a text.
fn add_rows(
    alloc: Global,
    word: &str,
    inputs: &str,
    rows: &[Row],
    text: &mut String,
) -> Result<(), AllocError> {
    let told = row_lines(alloc, word, inputs, rows)?;
    text.push_str(told.as_str())?;
    Ok(())
}

/// Where the first interval of an input's table begins; 0 where there is no such input.
fn base_at(image: &Image, at: SwitchPort) -> u32 {
    let Some(settings) = image.settings(at.switch) else {
        return 0;
    };
    match settings.get(at.link) {
        Some(settings) => settings.table().base,
        None => 0,
    }
}
