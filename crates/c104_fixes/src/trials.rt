//! Fixes of a description, tried before people are told of them.
ghost use Rattle.std.specs.Prelude.{◌≡◌, true, IfOk};
ghost use Rattle.c104_fixes.specs.Fixes.{IsMended, LeavesAccepted};

use crate::fixes::Fix;
use crate::row_changes::RowFix;
use crate::sameness::is_same_fault;
use c104_check::{CheckFault, SwitchPort, check};
use c104_interval::{ROWS, Row, Select};
use c104_plan::{Image, ImageFault, Plan, hand_image};
use c104_regs::{Address, LINKS, Register};
use c104_token::NoMemory;
use std::alloc::Global;

/// How many changes are tried in a network of one switch and one terminal.
const MOST_TRIALS: usize = 16384;

/// How many changes are tried: as many times fewer as there are pairs of a switch and a terminal, since the whole network
/// is checked with each.
pub(crate) fn most_trials(plan: &Plan) -> usize {
    let pairs = plan.switches().len().saturating_mul(plan.terminals().len());
    MOST_TRIALS / pairs.max(1)
}

/// The image of a plan's own lines with a fix. None where the fix can't be set.
pub(crate) fn fixed_image(
    alloc: Global,
    plan: &Plan,
    fix: &Fix,
) -> Result<Option<Image>, NoMemory> {
    let mut image = hand_image(alloc, plan)?;
    let set = match fix {
        Fix::Labels(terminal, first) => {
            let count = match plan.terminals().get(*terminal) {
                Some(terminal) => terminal.count,
                None => 0,
            };
            image.set_range(*terminal, *first, count)
        }
        Fix::Rows(fixes) => set_all(&mut image, fixes.as_slice()),
    };
    match set {
        Ok(()) => Ok(Some(image)),
        Err(ImageFault::NoMemory) => Err(NoMemory),
        Err(_) => Ok(None),
    }
}

/// Whether the check accepts the labels of an image, or refuses them for another fault than this.
pub(crate) fn is_mended(
    alloc: Global,
    plan: &Plan,
    fault: &CheckFault,
    image: &Image,
) -> Result<bool, NoMemory>
    ensures { IfOk result (λ is. is ≡ true → IsMended plan.now fault.now image.now) }
{
    if !image.fits(plan) {
        return Ok(false);
    }
    match check(alloc, plan, image) {
        Ok(_) => Ok(true),
        Err(CheckFault::NoMemory) => Err(NoMemory),
        Err(other) => Ok(!is_same_fault(&other, fault)),
    }
}

/// Whether the labels of an image are accepted.
pub(crate) fn are_accepted(alloc: Global, plan: &Plan, image: &Image) -> Result<bool, NoMemory>
    ensures { IfOk result (λ are. are ≡ true → LeavesAccepted plan.now image.now) }
{
    if !image.fits(plan) {
        return Ok(false);
    }
    match check(alloc, plan, image) {
        Ok(_) => Ok(true),
        Err(CheckFault::NoMemory) => Err(NoMemory),
        Err(_) => Ok(false),
    }
}

/// Sets all rows of these inputs.
fn set_all(image: &mut Image, fixes: &[RowFix]) -> Result<(), ImageFault> {
    for fix in fixes {
        for link in fix.links.as_slice() {
            let switch = fix.at.switch;
            let link = *link;
            set_rows(image, SwitchPort { switch, link }, fix.rows.as_slice())?;
        }
    }
    Ok(())
}

/// Sets all rows of an input; behind the last it has none.
fn set_rows(image: &mut Image, at: SwitchPort, rows: &[Row]) -> Result<(), ImageFault> {
    if at.link >= LINKS {
        return Err(ImageFault::NoNode);
    }
    for number in 0..ROWS {
        let row = match rows.get(number) {
            Some(row) => *row,
            None => Row::RESET,
        };
        let limit_at = Address::AtLink(at.link, Register::Limit(number)).number();
        let select_at = Address::AtLink(at.link, Register::Select(number)).number();
        image.set(at.switch, limit_at, row.limit)?;
        image.set(at.switch, select_at, number_of(row.select))?;
    }
    Ok(())
}

/// What the register of a select reads.
fn number_of(select: Select) -> u32 {
    match select {
        Select::Link(link) => u32::from(link),
        Select::Discard => 32,
        Select::Sink => 64,
    }
}
