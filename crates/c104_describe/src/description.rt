//! Descriptions: whole texts.
ghost use Rattle.std.specs.Prelude.{Err, IfErr, IfOk, Ok, length, map, ◌<◌, ◌≡◌};
ghost use Rattle.c104_describe.specs.{PlanDrafts.draft_of, PlanFaults.fault_at, PlanText.{AreFaultless, GivesDraftOrNoMemory}};
ghost use Rattle.c104_describe.specs.PlanText.{GivesPlanOrNoMemory, IsDue, ReadsLines, empty_draft, read_description, read_plan_lines};
ghost use Rattle.{c104_describe.specs.declared.faults.PlanFaultKind.TheVariants.TooLong, c104_plan.specs.{Plans.IsPlan, TextCut.lines}};
ghost use Rattle.c104_plan.specs.TextCut.{most_bytes};

use crate::drafts::Draft;
use crate::faults::{PlanFault, PlanFaultKind};
use crate::lines::read_line;
use c104_plan::{MAX_DESCRIPTION, Plan, cut_lines};
use std::alloc::Global;

/// Reads the description of a network, by this emulator's own grammar.
///
/// Its lines are `switch N`, `terminal N S.l [labels n] [from f]`, `wire S.l S.l`, `header n`,
/// `buffer n`, `continue S.l`, `delete T`, `base S.l n`, `row S.l limit select`, `base S n`,
/// `row S limit select`, `random S.l base range`, `label tree S`, `label up-down S`, `mesh w h p [k]`, `cube d p [k]`, `torus w h p [k]`
/// and `clos m s p [k]`; `#` begins a comment.
///
/// TooLong at line 0 where the text has more than 1 MiB, whatever its lines say; else the first
/// faulty line, with the least of its faults; or NoMemory at line 0 when out of memory.
pub fn read_description(alloc: Global, text: &[u8]) -> Result<Plan, PlanFault>
    ensures described { GivesPlanOrNoMemory result (read_description text.now) }
    ensures too_long { most_bytes < length text.now → result ≡ Err (fault_at 0 TooLong) }
    ensures kept { IfOk result IsPlan }

    // The first faulty line and its least fault, in the sense of the words: each fault's condition is said
    // by itself. The lines before have none, a fault of a lesser number isn't the line's, and where a
    // plan is answered no line has a fault.
    ensures due { IfErr result (IsDue text.now) }
    ensures faultless { IfOk result (λ _. AreFaultless (lines text.now)) }
{
    if text.len() > MAX_DESCRIPTION {
        return Err(fault_at(0, PlanFaultKind::TooLong));
    }
    let lines = cut_lines(alloc, text)?;
    let draft = read_lines(alloc, lines.as_slice())?;
    let plan = draft.finish()?;
    Ok(plan)
}

/// Reads the lines of a description, the first of which is line 1.
fn read_lines(alloc: Global, lines: &[&[u8]]) -> Result<Draft, PlanFault>
    ensures { GivesDraftOrNoMemory result
        (read_plan_lines 1 (map (λ line. line.now) lines.now) empty_draft) }
{
    let mut draft = Draft::new(alloc)?;
    add_lines(alloc, &mut draft, lines)?;
    Ok(draft)
}

/// What the lines of a description say, the first of which is line 1, joins the draft of no line.
fn add_lines(alloc: Global, draft: &mut Draft, lines: &[&[u8]]) -> Result<(), PlanFault>
    requires { draft_of draft.old ≡ empty_draft }
    ensures { ReadsLines result (draft_of draft.new)
        (read_plan_lines 1 (map (λ line. line.now) lines.now) empty_draft) }
{
    for (index, line) in lines.iter().enumerate() {
        match read_line(alloc, draft, line) {
            Ok(()) => {}
            Err(kind) => return Err(fault_at(index + 1, kind)),
        }
    }
    Ok(())
}

/// A fault of a line. Out of memory belongs to no line.
fn fault_at(line: usize, kind: PlanFaultKind) -> PlanFault
    ensures { result ≡ fault_at line kind }
{
    match kind {
        PlanFaultKind::NoMemory => PlanFault { line: 0, kind },
        _ => PlanFault { line, kind },
    }
}
