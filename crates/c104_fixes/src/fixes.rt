//! Fixes: other lines of a description for labels that are refused, each tried by the check.
//!
//! How a fix is found has no clause. What it has to be is a clause: with it the labels are accepted, or refused for another
//! fault.
//!
//! An input that discards one header is a portal for all others: so a row that discards a random header is told only where
//! the labels are accepted with it, and the random headers of the terminal that follow are discarded with it.
ghost use Rattle.std.specs.Prelude.{IfOk, IfSome};
ghost use Rattle.{c104_fixes.specs.Fixes.{IsMended, LeavesAccepted}, c104_plan.specs.PlanImage.Fits};

use crate::header_ranges::{end_of_randoms, free_first, next_label, next_random};
use crate::joint_fixes::joint_rows;
use crate::row_changes::{Change, RowFix, row_fix};
use crate::row_lines::RowLines;
use crate::trials::{are_accepted, fixed_image, is_mended, most_trials};
use c104_check::{CheckFault, Mend, Shown, WalkKind, find_mend};
use c104_interval::Select;
use c104_plan::{Image, Plan};
use c104_token::NoMemory;
use std::alloc::Global;

/// Other lines of a description.
#[derive(Drop)]
pub enum Fix {
    /// The terminal of this number has as many labels as it has, from this one on.
    Labels(usize, u32),
    /// Inputs have other rows.
    Rows(Vec<RowFix>),
}

/// A fix, and the image of the description's lines with it, which was tried.
#[derive(Drop)]
pub struct TriedFix {
    /// The lines that change.
    pub fix: Fix,
    /// What links and labels are with them.
    pub image: Image,
}

/// A fix of labels that are refused for a fault, by which they are accepted, or refused for another.
///
/// A fault of a walk is mended by rows of all inputs that send headers wrong; where these are more than a screen has lines
/// for, or can't be found, by rows of some of them; for a random header it is a row that discards it at an input of its
/// walk, if the labels are accepted with that row; where the ranges of two terminals overlap or a label is no header it is
/// another range. None is told where nothing of the kind is found, or where an input would have more than 36 rows. It fails
/// only when out of memory. Where the lines of the description are known, the rows are for these.
pub fn find_fix_of(
    alloc: Global,
    lines: Option<&RowLines<'_>>,
    plan: &Plan,
    image: &Image,
    fault: &CheckFault,
) -> Result<Option<TriedFix>, NoMemory>
    requires { Fits image.now plan.now }
    ensures { IfOk result (λ found. IfSome found (λ tried. IsMended plan.now fault.now tried.image)) }
{
    match fault {
        CheckFault::RangesOverlap(_, terminal) | CheckFault::LabelTooLarge(terminal) => {
            match free_first(plan, *terminal) {
                Some(first) => try_fix(alloc, plan, fault, Fix::Labels(*terminal, first)),
                None => Ok(None),
            }
        }
        CheckFault::WrongEnd(shown)
        | CheckFault::DeadEnd(shown)
        | CheckFault::Loop(shown)
        | CheckFault::Stray(shown) => find_rows(alloc, lines, plan, image, fault, shown),
        _ => Ok(None),
    }
}

/// The same by other rows of an input of a walk.
fn find_rows(
    alloc: Global,
    lines: Option<&RowLines<'_>>,
    plan: &Plan,
    image: &Image,
    fault: &CheckFault,
    shown: &Shown,
) -> Result<Option<TriedFix>, NoMemory>
    requires { Fits image.now plan.now }
    ensures { IfOk result (λ found. IfSome found (λ tried. IsMended plan.now fault.now tried.image)) }
{
    if let Some(rows) = joint_rows(alloc, lines, plan, image, shown.header)? {
        let joint = try_fix(alloc, plan, fault, Fix::Rows(rows))?;
        if joint.is_some() {
            return Ok(joint);
        }
    }
    find_row(alloc, plan, image, fault, shown)
}

/// The same by one row of an input of a walk.
fn find_row(
    alloc: Global,
    plan: &Plan,
    image: &Image,
    fault: &CheckFault,
    shown: &Shown,
) -> Result<Option<TriedFix>, NoMemory>
    requires { Fits image.now plan.now }
    ensures { IfOk result (λ found. IfSome found (λ tried. IsMended plan.now fault.now tried.image)) }
{
    let Some(mend) = find_mend(alloc, plan, image, shown)? else {
        return Ok(None);
    };
    if matches!(mend.select, Select::Discard) {
        return match find_discarding(alloc, plan, shown)? {
            Some(tried) => Ok(Some(tried)),
            None => Ok(None),
        };
    }
    match row_fix(alloc, plan, change_by(plan, shown.header, mend))? {
        Some(rows) => try_fix(alloc, plan, fault, Fix::Rows(vec![in alloc; rows]?)),
        None => Ok(None),
    }
}

/// A fix, if it mends the labels.
fn try_fix(
    alloc: Global,
    plan: &Plan,
    fault: &CheckFault,
    fix: Fix,
) -> Result<Option<TriedFix>, NoMemory>
    ensures { IfOk result (λ found. IfSome found (λ tried. IsMended plan.now fault.now tried.image)) }
{
    let Some(image) = fixed_image(alloc, plan, &fix)? else {
        return Ok(None);
    };
    if is_mended(alloc, plan, fault, &image)? {
        Ok(Some(TriedFix { fix, image }))
    } else {
        Ok(None)
    }
}

/// The change by which a header selects at an input what mends its walk. Where it is sunk, those above it are sunk with
/// it, up to the next label that begins a range, and behind a random header to the next with which random ones begin.
fn change_by(plan: &Plan, header: u32, mend: Mend) -> Change {
    let end = match (mend.select, mend.kind) {
        (Select::Sink, WalkKind::Behind(_)) => {
            next_label(plan, header).min(next_random(plan, header))
        }
        (Select::Sink, _) => next_label(plan, header),
        _ => header.saturating_add(1),
    };
    Change {
        at: mend.at,
        first: header,
        end,
        select: mend.select,
    }
}

/// Rows by which a random header is discarded at an input of its walk, so that the labels are accepted: at the last such
/// input, and where it has to be with it, all that follow it of the terminal's. None where no change that was tried does
/// it.
fn find_discarding(alloc: Global, plan: &Plan, shown: &Shown) -> Result<Option<TriedFix>, NoMemory>
    ensures { IfOk result (λ found. IfSome found (λ tried. LeavesAccepted plan.now tried.image)) }
{
    let walk = shown.walk.as_slice();
    let first = shown.header;
    let alone = first.saturating_add(1);
    let all = end_of_randoms(plan, shown.entry, first);
    for followers in 0..most_trials(plan).min(walk.len()) {
        let at = walk[walk.len() - 1 - followers];
        for end in [alone, all] {
            let select = Select::Discard;
            let change = Change {
                at,
                first,
                end,
                select,
            };
            let tried = try_change(alloc, plan, change)?;
            if tried.is_some() {
                return Ok(tried);
            }
        }
    }
    Ok(None)
}

/// Rows by which headers select something else at an input, if the labels are accepted with them.
pub(crate) fn try_change(
    alloc: Global,
    plan: &Plan,
    change: Change,
) -> Result<Option<TriedFix>, NoMemory>
    ensures { IfOk result (λ found. IfSome found (λ tried. LeavesAccepted plan.now tried.image)) }
{
    let Some(rows) = row_fix(alloc, plan, change)? else {
        return Ok(None);
    };
    let fix = Fix::Rows(vec![in alloc; rows]?);
    let Some(image) = fixed_image(alloc, plan, &fix)? else {
        return Ok(None);
    };
    if are_accepted(alloc, plan, &image)? {
        Ok(Some(TriedFix { fix, image }))
    } else {
        Ok(None)
    }
}
