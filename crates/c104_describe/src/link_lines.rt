//! The lines of a description that set something at a link.
//!
//! A row may be of a link with no wire: a header can't come in there, so it says nothing. Such a link may continue a
//! group too. A packet that claims it stays there, as one does that selects it by a row.
ghost use Rattle.std.specs.Prelude.{OnOk, [], ◌++◌, ◌∷◌, ◌≡◌};
ghost use Rattle.{c104_describe.specs.{LineFaults.{keyword_line, read_parts}, PlanDrafts.draft_of}, c104_plan.specs.Plans.IsPlan};
ghost use Rattle.c104_describe.specs.{PlanLines.{own_base_parts, own_row_parts, shared_base_parts, shared_row_parts}, PlanText.ReadsLine};
ghost use Rattle.c104_describe.specs.declared.words.Keyword.TheVariants as keyword;

use crate::drafts::Draft;
use crate::faults::PlanFaultKind;
use crate::shared::{SharedBase, SharedRow};
use crate::words::{
    cut_port, names_switch, read_limit, read_link, read_number_within, read_select,
};
use c104_interval::ROWS;
use c104_plan::{LABELS, PlanBase, PlanRandom, PlanRow, Port, is_name};
use std::alloc::AllocError;

/// Reads `continue S.l`. Link 0 has no link before it.
pub(crate) fn add_continue(draft: &mut Draft, port: &[u8]) -> Result<(), PlanFaultKind>
    ensures { ReadsLine result (draft_of draft.new)
        (keyword_line (draft_of draft.old) keyword.Continue (port.now ∷ [])) }
{
    let port = cut_port(port)?;
    let link = read_link(port.link)?;
    if link == 0 {
        return Err(PlanFaultKind::BadNumber);
    }
    if !is_name(port.name) {
        return Err(PlanFaultKind::BadName);
    }
    let Some(switch) = draft.parts.switch_number(port.name) else {
        return Err(PlanFaultKind::UnknownName);
    };
    let port = Port::Switch(switch, link);
    if draft.parts.is_continued(port) {
        return Err(PlanFaultKind::Twice);
    }
    add(&mut draft.parts.continues, port)?;
    Ok(())
}

/// Reads `base S.l n` or `base S n`.
pub(crate) fn add_base(draft: &mut Draft, at: &[u8], base: &[u8]) -> Result<(), PlanFaultKind>
    ensures { ReadsLine result (draft_of draft.new)
        (keyword_line (draft_of draft.old) keyword.Base (at.now ∷ base.now ∷ [])) }
{
    if names_switch(at) {
        add_shared_base(draft, at, base)
    } else {
        add_own_base(draft, at, base)
    }
}

/// Reads `base S.l n`.
fn add_own_base(draft: &mut Draft, port: &[u8], base: &[u8]) -> Result<(), PlanFaultKind>
    ensures { ReadsLine result (draft_of draft.new)
        (read_parts (draft_of draft.old).plan (own_base_parts (draft_of draft.old) port.now base.now)) }
{
    let port = cut_port(port)?;
    let link = read_link(port.link)?;
    let base = read_number_within(0, LABELS - 1, base)?;
    if !is_name(port.name) {
        return Err(PlanFaultKind::BadName);
    }
    let Some(switch) = draft.parts.switch_number(port.name) else {
        return Err(PlanFaultKind::UnknownName);
    };
    let port = Port::Switch(switch, link);
    if draft.parts.has_base(port) {
        return Err(PlanFaultKind::Twice);
    }
    add(&mut draft.parts.bases, PlanBase { port, base })?;
    Ok(())
}

/// Reads `base S n`.
fn add_shared_base(draft: &mut Draft, name: &[u8], base: &[u8]) -> Result<(), PlanFaultKind>
    ensures { ReadsLine result (draft_of draft.new)
        (read_parts (draft_of draft.old).plan (shared_base_parts (draft_of draft.old) name.now base.now)) }
{
    let base = read_number_within(0, LABELS - 1, base)?;
    if !is_name(name) {
        return Err(PlanFaultKind::BadName);
    }
    let Some(switch) = draft.parts.switch_number(name) else {
        return Err(PlanFaultKind::UnknownName);
    };
    if draft.shared.has_base(switch) {
        return Err(PlanFaultKind::Twice);
    }
    add(&mut draft.shared.bases, SharedBase { switch, base })?;
    Ok(())
}

/// Reads `row S.l limit select` or `row S limit select`.
pub(crate) fn add_row(
    draft: &mut Draft,
    at: &[u8],
    limit: &[u8],
    select: &[u8],
) -> Result<(), PlanFaultKind>
    requires { IsPlan (draft_of draft.old).plan }
    ensures { ReadsLine result (draft_of draft.new)
        (keyword_line (draft_of draft.old) keyword.Row (at.now ∷ limit.now ∷ select.now ∷ [])) }
{
    if names_switch(at) {
        add_shared_row(draft, at, limit, select)
    } else {
        add_own_row(draft, at, limit, select)
    }
}

/// Reads `row S limit select`.
fn add_shared_row(
    draft: &mut Draft,
    name: &[u8],
    limit: &[u8],
    select: &[u8],
) -> Result<(), PlanFaultKind>
    ensures { ReadsLine result (draft_of draft.new)
        (read_parts (draft_of draft.old).plan (shared_row_parts (draft_of draft.old) name.now limit.now select.now)) }
{
    let limit = read_limit(limit)?;
    let select = read_select(select)?;
    if !is_name(name) {
        return Err(PlanFaultKind::BadName);
    }
    let Some(switch) = draft.parts.switch_number(name) else {
        return Err(PlanFaultKind::UnknownName);
    };
    if draft.shared.row_count(switch) >= ROWS {
        return Err(PlanFaultKind::TooMany);
    }
    let row = SharedRow {
        switch,
        limit,
        select,
    };
    add(&mut draft.shared.rows, row)?;
    Ok(())
}

/// Reads `row S.l limit select`.
fn add_own_row(
    draft: &mut Draft,
    port: &[u8],
    limit: &[u8],
    select: &[u8],
) -> Result<(), PlanFaultKind>
    requires { IsPlan (draft_of draft.old).plan }
    ensures { ReadsLine result (draft_of draft.new)
        (read_parts (draft_of draft.old).plan (own_row_parts (draft_of draft.old) port.now limit.now select.now)) }
{
    let port = cut_port(port)?;
    let link = read_link(port.link)?;
    let limit = read_limit(limit)?;
    let select = read_select(select)?;
    if !is_name(port.name) {
        return Err(PlanFaultKind::BadName);
    }
    let Some(switch) = draft.parts.switch_number(port.name) else {
        return Err(PlanFaultKind::UnknownName);
    };
    let port = Port::Switch(switch, link);
    if draft.parts.row_count(port) >= ROWS {
        return Err(PlanFaultKind::TooMany);
    }
    let row = PlanRow {
        port,
        limit,
        select,
    };
    draft.parts.rows.push(row)?;
    Ok(())
}

/// Reads `random S.l base range`.
pub(crate) fn add_random(
    draft: &mut Draft,
    port: &[u8],
    base: &[u8],
    range: &[u8],
) -> Result<(), PlanFaultKind>
    ensures { ReadsLine result (draft_of draft.new)
        (keyword_line (draft_of draft.old) keyword.Random (port.now ∷ base.now ∷ range.now ∷ [])) }
{
    let port = cut_port(port)?;
    let link = read_link(port.link)?;
    let base = read_number_within(0, LABELS - 1, base)?;
    let range = read_limit(range)?;
    if !is_name(port.name) {
        return Err(PlanFaultKind::BadName);
    }
    let Some(switch) = draft.parts.switch_number(port.name) else {
        return Err(PlanFaultKind::UnknownName);
    };
    let port = Port::Switch(switch, link);
    if draft.parts.has_random(port) {
        return Err(PlanFaultKind::Twice);
    }
    add(&mut draft.parts.randoms, PlanRandom { port, base, range })?;
    Ok(())
}

/// A value joins a list at its end.
pub(crate) fn add<T: Drop>(list: &mut Vec<T>, value: T) -> Result<(), AllocError>
    ensures { OnOk result (list.new.items ≡ list.old.items ++ value ∷ []) }
{
    list.push(value)?;
    Ok(())
}
