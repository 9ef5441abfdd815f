//! Descriptions, line by line.
ghost use Rattle.std.specs.Prelude.{Ok, Some, [], map, option_map, true, ◌∷◌, ◌≡◌};
ghost use Rattle.c104_describe.specs.{LineFaults.{keyword_line, read_parts, read_plan_line, read_plan_words}, PlanDrafts.draft_of};
ghost use Rattle.c104_describe.specs.{PlanLines.{first_word_parts, is_labeller, labelled_shape, terminal_parts}, PlanText.ReadsLine};
ghost use Rattle.c104_plan.specs.Plans.{IsPlan};
ghost use Rattle.c104_describe.specs.declared.words.Keyword.TheVariants as variant;

use crate::drafts::Draft;
use crate::faults::PlanFaultKind;
use crate::fills::{set_cube, set_mesh};
use crate::link_lines::{add, add_base, add_continue, add_random, add_row};
use crate::shape_lines::{set_clos, set_torus, set_wide_cube, set_wide_mesh};
use crate::words::{
    Keyword, RangeWords, cut_port, read_keyword, read_link, read_number_or, read_number_within,
    read_range,
};
use c104_plan::{
    LABELS, MAX_HEADER_BYTES, MAX_SWITCHES, MAX_TERMINALS, Name, Port, Shape, Terminal, Wire,
    cut_words, is_buffer_size, is_name, is_plain, read_number, uncommented,
};
use std::alloc::Global;

/// Reads a line after those before it.
pub(crate) fn read_line(alloc: Global, draft: &mut Draft, line: &[u8]) -> Result<(), PlanFaultKind>
    requires { IsPlan (draft_of draft.old).plan }
    ensures { ReadsLine result (draft_of draft.new) (read_plan_line (draft_of draft.old) line.now) }
{
    let line = uncommented(line);
    let words = cut_words(alloc, line)?;
    read_words(alloc, draft, is_plain(line), words.as_slice())
}

/// Reads the words of a line, whose bytes are all plain or not.
fn read_words(
    alloc: Global,
    draft: &mut Draft,
    is_plain: bool,
    words: &[&[u8]],
) -> Result<(), PlanFaultKind>
    requires { IsPlan (draft_of draft.old).plan }
    ensures { ReadsLine result (draft_of draft.new)
        (read_plan_words (draft_of draft.old) is_plain (map (λ word. word.now) words.now)) }
{
    let [first, rest @ ..] = words else {
        return Ok(());
    };
    let Some(keyword) = read_keyword(first) else {
        return Err(PlanFaultKind::UnknownWord);
    };
    if !is_plain {
        return Err(PlanFaultKind::BadShape);
    }
    read_known_line(alloc, draft, keyword, rest)
}

/// Reads a plain line by what its first word says, and the words after it. That it doesn't go with the lines before is
/// the last of its faults.
fn read_known_line(
    alloc: Global,
    draft: &mut Draft,
    keyword: Keyword,
    rest: &[&[u8]],
) -> Result<(), PlanFaultKind>
    requires { IsPlan (draft_of draft.old).plan }
    ensures { ReadsLine result (draft_of draft.new)
        (read_parts (draft_of draft.old).plan (record (first_word_parts (draft_of draft.old) (Some keyword)
        (map (λ word. word.now) rest.now)) { is_plain = true })) }
{
    let is_mixed = draft.is_mixed(keyword, rest);
    match read_keyword_line(alloc, draft, keyword, rest) {
        Ok(()) if is_mixed => Err(PlanFaultKind::MixedStyle),
        Ok(()) => Ok(()),
        Err(kind) => Err(kind),
    }
}

/// Reads such a line, whether it goes with the lines before or not.
fn read_keyword_line(
    alloc: Global,
    draft: &mut Draft,
    keyword: Keyword,
    rest: &[&[u8]],
) -> Result<(), PlanFaultKind>
    requires { IsPlan (draft_of draft.old).plan }
    ensures { ReadsLine result (draft_of draft.new)
        (keyword_line (draft_of draft.old) keyword (map (λ word. word.now) rest.now)) }
{
    if matches!(keyword, Keyword::Terminal) {
        return read_terminal_line(alloc, draft, rest);
    }
    match rest {
        [word] => read_word(alloc, draft, keyword, word),
        [first, second] => read_two_words(alloc, draft, keyword, first, second),
        [first, second, third] => read_three_words(alloc, draft, keyword, first, second, third),
        [first, second, third, fourth] => {
            read_four_words(alloc, draft, keyword, first, second, third, fourth)
        }
        _ => Err(PlanFaultKind::BadShape),
    }
}

/// Reads the words behind `terminal`.
fn read_terminal_line(alloc: Global, draft: &mut Draft, rest: &[&[u8]]) -> Result<(), PlanFaultKind>
    requires { IsPlan (draft_of draft.old).plan }
    ensures { ReadsLine result (draft_of draft.new)
        (keyword_line (draft_of draft.old) variant.Terminal (map (λ word. word.now) rest.now)) }
{
    let [name, port, rest @ ..] = rest else {
        return Err(PlanFaultKind::BadShape);
    };
    let range = read_range(rest)?;
    add_terminal(alloc, draft, name, port, range)
}

/// Reads a line of one word behind its first.
fn read_word(
    alloc: Global,
    draft: &mut Draft,
    keyword: Keyword,
    word: &[u8],
) -> Result<(), PlanFaultKind>
    ensures { ReadsLine result (draft_of draft.new)
        (keyword_line (draft_of draft.old) keyword (word.now ∷ [])) }
{
    match keyword {
        Keyword::Switch => add_switch(alloc, draft, word),
        Keyword::Header => set_header(draft, word),
        Keyword::Buffer => set_buffer(draft, word),
        Keyword::Continue => add_continue(draft, word),
        Keyword::Delete => add_delete(draft, word),
        Keyword::Label => ask_labels(draft, word),
        _ => Err(PlanFaultKind::BadShape),
    }
}

/// Reads a line of two words behind its first, which isn't `terminal`.
fn read_two_words(
    alloc: Global,
    draft: &mut Draft,
    keyword: Keyword,
    first: &[u8],
    second: &[u8],
) -> Result<(), PlanFaultKind>
    requires { keyword ≡ variant.Terminal → ⊥ }
    ensures { ReadsLine result (draft_of draft.new)
        (keyword_line (draft_of draft.old) keyword (first.now ∷ second.now ∷ [])) }
{
    match keyword {
        Keyword::Wire => add_wire(draft, first, second),
        Keyword::Base => add_base(draft, first, second),
        Keyword::Label => set_labels(draft, first, second),
        Keyword::Cube => set_cube(alloc, draft, first, second),
        _ => Err(PlanFaultKind::BadShape),
    }
}

/// Reads a line of three words behind its first, which isn't `terminal`.
fn read_three_words(
    alloc: Global,
    draft: &mut Draft,
    keyword: Keyword,
    first: &[u8],
    second: &[u8],
    third: &[u8],
) -> Result<(), PlanFaultKind>
    requires plan { IsPlan (draft_of draft.old).plan }
    requires kind { keyword ≡ variant.Terminal → ⊥ }
    ensures { ReadsLine result (draft_of draft.new)
        (keyword_line (draft_of draft.old) keyword (first.now ∷ second.now ∷ third.now ∷ [])) }
{
    match keyword {
        Keyword::Row => add_row(draft, first, second, third),
        Keyword::Random => add_random(draft, first, second, third),
        Keyword::Mesh => set_mesh(alloc, draft, first, second, third),
        Keyword::Cube => set_wide_cube(alloc, draft, first, second, third),
        Keyword::Torus => set_torus(alloc, draft, first, second, third, b"1".as_slice()),
        Keyword::Clos => set_clos(alloc, draft, first, second, third, b"1".as_slice()),
        _ => Err(PlanFaultKind::BadShape),
    }
}

/// Reads a line of four words behind its first, which isn't `terminal`.
fn read_four_words(
    alloc: Global,
    draft: &mut Draft,
    keyword: Keyword,
    first: &[u8],
    second: &[u8],
    third: &[u8],
    fourth: &[u8],
) -> Result<(), PlanFaultKind>
    requires { keyword ≡ variant.Terminal → ⊥ }
    ensures { ReadsLine result (draft_of draft.new)
        (keyword_line (draft_of draft.old) keyword (first.now ∷ second.now ∷ third.now ∷ fourth.now ∷ [])) }
{
    match keyword {
        Keyword::Mesh => set_wide_mesh(alloc, draft, first, second, third, fourth),
        Keyword::Torus => set_torus(alloc, draft, first, second, third, fourth),
        Keyword::Clos => set_clos(alloc, draft, first, second, third, fourth),
        _ => Err(PlanFaultKind::BadShape),
    }
}

/// Reads `switch N`.
fn add_switch(alloc: Global, draft: &mut Draft, name: &[u8]) -> Result<(), PlanFaultKind>
    ensures { ReadsLine result (draft_of draft.new)
        (keyword_line (draft_of draft.old) variant.Switch (name.now ∷ [])) }
{
    if !is_name(name) {
        return Err(PlanFaultKind::BadName);
    }
    if draft.parts.is_taken(name) {
        return Err(PlanFaultKind::NameTaken);
    }
    if draft.parts.switches.len() >= MAX_SWITCHES {
        return Err(PlanFaultKind::TooMany);
    }
    draft.parts.switches.push(alloc, name)?;
    Ok(())
}

/// Reads `terminal N S.l`, with `labels n` and `from f` where these were said.
fn add_terminal(
    alloc: Global,
    draft: &mut Draft,
    name: &[u8],
    port: &[u8],
    range: RangeWords<'_>,
) -> Result<(), PlanFaultKind>
    requires { IsPlan (draft_of draft.old).plan }
    ensures { ReadsLine result (draft_of draft.new)
        (read_parts (draft_of draft.old).plan (terminal_parts (draft_of draft.old) name.now port.now
        (Ok (option_map (λ w. w.now) range.entry.labels, option_map (λ w. w.now) range.entry.from)))) }
{
    let port = cut_port(port)?;
    let link = read_link(port.link)?;
    let count = read_number_or(1, 1, LABELS, range.labels)?;
    let first = read_number_or(draft.parts.next_first(), 0, LABELS - 1, range.from)?;
    if !(is_name(name) && is_name(port.name)) {
        return Err(PlanFaultKind::BadName);
    }
    if draft.parts.is_taken(name) {
        return Err(PlanFaultKind::NameTaken);
    }
    let Some(switch) = draft.parts.switch_number(port.name) else {
        return Err(PlanFaultKind::UnknownName);
    };
    if draft.parts.is_linked(Port::Switch(switch, link)) {
        return Err(PlanFaultKind::LinkTaken);
    }
    if draft.parts.terminals.len() >= MAX_TERMINALS || first + count > LABELS {
        return Err(PlanFaultKind::TooMany);
    }
    let name = Name::new(alloc, name)?;
    let terminal = Terminal {
        name,
        switch,
        link,
        first,
        count,
    };
    draft.parts.terminals.push(alloc, terminal)?;
    draft.from_said = draft.from_said || range.from.is_some();
    Ok(())
}

/// Reads `wire S.l S.l`.
fn add_wire(draft: &mut Draft, here: &[u8], there: &[u8]) -> Result<(), PlanFaultKind>
    ensures { ReadsLine result (draft_of draft.new)
        (keyword_line (draft_of draft.old) variant.Wire (here.now ∷ there.now ∷ [])) }
{
    let from = cut_port(here)?;
    let to = cut_port(there)?;
    let link = read_link(from.link)?;
    let far_link = read_link(to.link)?;
    if !(is_name(from.name) && is_name(to.name)) {
        return Err(PlanFaultKind::BadName);
    }
    let Some(switch) = draft.parts.switch_number(from.name) else {
        return Err(PlanFaultKind::UnknownName);
    };
    let Some(far_switch) = draft.parts.switch_number(to.name) else {
        return Err(PlanFaultKind::UnknownName);
    };
    let wire = Wire {
        here: Port::Switch(switch, link),
        there: Port::Switch(far_switch, far_link),
    };
    if wire.is_self_wire() {
        return Err(PlanFaultKind::SelfWire);
    }
    if draft.parts.is_linked(wire.here) || draft.parts.is_linked(wire.there) {
        return Err(PlanFaultKind::LinkTaken);
    }
    add(&mut draft.parts.wires, wire)?;
    Ok(())
}

/// Reads `delete T`.
fn add_delete(draft: &mut Draft, name: &[u8]) -> Result<(), PlanFaultKind>
    ensures { ReadsLine result (draft_of draft.new)
        (keyword_line (draft_of draft.old) variant.Delete (name.now ∷ [])) }
{
    if !is_name(name) {
        return Err(PlanFaultKind::BadName);
    }
    let Some(terminal) = draft.parts.terminal_number(name) else {
        return Err(PlanFaultKind::UnknownName);
    };
    if draft.parts.is_deleted(terminal) {
        return Err(PlanFaultKind::Twice);
    }
    add(&mut draft.parts.deletes, terminal)?;
    Ok(())
}

/// Reads `label tree S` or `label up-down S`.
fn set_labels(draft: &mut Draft, style: &[u8], name: &[u8]) -> Result<(), PlanFaultKind>
    ensures { ReadsLine result (draft_of draft.new)
        (keyword_line (draft_of draft.old) variant.Label (style.now ∷ name.now ∷ [])) }
{
    if !is_labeller(style) {
        return Err(PlanFaultKind::BadShape);
    }
    if !is_name(name) {
        return Err(PlanFaultKind::BadName);
    }
    let Some(root) = draft.parts.switch_number(name) else {
        return Err(PlanFaultKind::UnknownName);
    };
    if draft.labels.is_some() {
        return Err(PlanFaultKind::Twice);
    }
    draft.labels = Some(labelled_shape(style, root));
    Ok(())
}

/// Reads `label up-down`.
fn ask_labels(draft: &mut Draft, style: &[u8]) -> Result<(), PlanFaultKind>
    ensures { ReadsLine result (draft_of draft.new)
        (keyword_line (draft_of draft.old) variant.Label (style.now ∷ [])) }
{
    if style != b"up-down".as_slice() {
        return Err(PlanFaultKind::BadShape);
    }
    if draft.labels.is_some() {
        return Err(PlanFaultKind::Twice);
    }
    draft.labels = Some(Shape::UpDown(None));
    Ok(())
}

/// Whether labels may be asked for by this word.
fn is_labeller(style: &[u8]) -> bool
    ensures { result ≡ is_labeller style.now }
{
    style == b"tree".as_slice() || style == b"up-down".as_slice()
}

/// The shape that is asked for by such a word, with this root.
fn labelled_shape(style: &[u8], root: usize) -> Shape
    ensures { result ≡ labelled_shape style.now root }
{
    if style == b"tree".as_slice() {
        Shape::Tree(root)
    } else {
        Shape::UpDown(Some(root))
    }
}

/// Reads `header n`.
fn set_header(draft: &mut Draft, bytes: &[u8]) -> Result<(), PlanFaultKind>
    ensures { ReadsLine result (draft_of draft.new)
        (keyword_line (draft_of draft.old) variant.Header (bytes.now ∷ [])) }
{
    let bytes = read_number_within(1, MAX_HEADER_BYTES, bytes)?;
    if draft.header_said {
        return Err(PlanFaultKind::Twice);
    }
    draft.parts.header = bytes as usize;
    draft.header_said = true;
    Ok(())
}

/// Reads `buffer n`.
fn set_buffer(draft: &mut Draft, size: &[u8]) -> Result<(), PlanFaultKind>
    ensures { ReadsLine result (draft_of draft.new)
        (keyword_line (draft_of draft.old) variant.Buffer (size.now ∷ [])) }
{
    let size = match read_number(size) {
        Some(size) if is_buffer_size(size) => size,
        _ => return Err(PlanFaultKind::BadNumber),
    };
    if draft.buffer_said {
        return Err(PlanFaultKind::Twice);
    }
    draft.parts.cap = size as usize;
    draft.buffer_said = true;
    Ok(())
}
