//! The words of a description's line.
//!
//! A name that is no name is BadName also where it is used, since it can't have been given. A wrong byte in a line's
//! first word is UnknownWord, since that is the lesser number.
ghost use Rattle.std.specs.{Map.lookup, Prelude.{Err, IfOk, MatchResult, Ok, Some, bytes_eq, codes, false, map, option_map, true, ◌&&◌}};
ghost use Rattle.std.specs.Prelude.{◌+◌, ◌≡◌, ◌≤◌};
ghost use Rattle.c104_describe.specs.{LineFaults.ReadsNumber, PlanLines.{is_bad_number, is_from_to, is_one_dot, names_switch, port_link, port_name}};
ghost use Rattle.c104_describe.specs.{PlanLines.{select_said, selected_link}, PlanWords.{keyword_of, range_words}};
ghost use Rattle.c104_plan.specs.{Plans.{label_count, last_link}, TextWords.dots};
ghost use Rattle.c104_describe.specs.declared.faults.PlanFaultKind.TheVariants as variant;

use crate::faults::PlanFaultKind;
use c104_interval::Select;
use c104_plan::{Dots, LABELS, find_dots, read_number};
use c104_regs::LINKS;

/// The last link of a switch.
const LAST_LINK: u32 = LINKS as u32 - 1;

/// What the first word of a line says.
#[derive(Clone, Copy)]
pub(crate) enum Keyword {
    Switch,
    Terminal,
    Wire,
    Header,
    Buffer,
    Continue,
    Delete,
    Base,
    Row,
    Random,
    Label,
    Mesh,
    Cube,
    Torus,
    Clos,
}

/// The words with which lines begin, the most frequent first.
const KEYWORDS: [(&[u8], Keyword); 15] = [
    (b"row", Keyword::Row),
    (b"base", Keyword::Base),
    (b"wire", Keyword::Wire),
    (b"terminal", Keyword::Terminal),
    (b"switch", Keyword::Switch),
    (b"continue", Keyword::Continue),
    (b"delete", Keyword::Delete),
    (b"header", Keyword::Header),
    (b"buffer", Keyword::Buffer),
    (b"label", Keyword::Label),
    (b"mesh", Keyword::Mesh),
    (b"cube", Keyword::Cube),
    (b"torus", Keyword::Torus),
    (b"clos", Keyword::Clos),
    (b"random", Keyword::Random),
];

/// What a word asks for. None where no line begins with it.
pub(crate) fn read_keyword(word: &[u8]) -> Option<Keyword>
    ensures { result ≡ keyword_of word.now }
{
    keyword_among(KEYWORDS.as_slice(), word)
}

/// What a word asks for, by the first of these that is the same word.
fn keyword_among(known: &[(&[u8], Keyword)], word: &[u8]) -> Option<Keyword>
    ensures { result ≡ lookup (λ text. bytes_eq text word.now)
        (map (λ row. (row.0.now, row.1)) known.now) }
{
    for (text, keyword) in known {
        if *text == word {
            return Some(*keyword);
        }
    }
    None
}

/// A number from `least` to `most`, both included, or BadNumber.
pub(crate) fn read_number_within(least: u32, most: u32, word: &[u8]) -> Result<u32, PlanFaultKind>
    ensures number { ReadsNumber result 0 (Some word.now) (is_from_to least most) }
    ensures range { IfOk result (λ value. (least ≤ value) × (value ≤ most)) }
{
    match read_number(word) {
        Some(value) if least <= value && value <= most => Ok(value),
        _ => Err(PlanFaultKind::BadNumber),
    }
}

/// The value of a number of a range, or, where the number is left out, the value that is meant then.
pub(crate) fn read_number_or(
    other: u32,
    least: u32,
    most: u32,
    word: Option<&[u8]>,
) -> Result<u32, PlanFaultKind>
    ensures number { ReadsNumber result other (option_map (λ w. w.now) word.entry) (is_from_to least most) }
    ensures range { IfOk result (λ value. value ≤ other + most) }
{
    match word {
        Some(word) => read_number_within(least, most, word),
        None => Ok(other),
    }
}

/// A row's limit, or how many random headers there are: 0 to 65536, or BadNumber.
pub(crate) fn read_limit(word: &[u8]) -> Result<u32, PlanFaultKind>
    ensures { ReadsNumber result 0 (Some word.now) (is_from_to 0 label_count) }
{
    read_number_within(0, LABELS, word)
}

/// What a row selects: the number of a link, `discard` or `sink`.
pub(crate) fn read_select(word: &[u8]) -> Result<Select, PlanFaultKind>
    ensures { MatchResult result
        (λ select. (select_said word.now ≡ select) × (is_bad_number (selected_link word.now) (is_from_to 0 last_link) ≡ false))
        (λ kind. (kind ≡ variant.BadNumber) × (is_bad_number (selected_link word.now) (is_from_to 0 last_link) ≡ true)) }
{
    if word == b"sink".as_slice() {
        return Ok(Select::Sink);
    }
    if word == b"discard".as_slice() {
        return Ok(Select::Discard);
    }
    let link = read_number_within(0, LAST_LINK, word)?;
    Ok(Select::Link(link as u8))
}

/// The two sides of a port's dot.
#[derive(Clone, Copy)]
pub(crate) struct PortSides<'a> {
    /// What stands for the switch's name.
    pub(crate) name: &'a [u8],
    /// What stands for the link's number.
    pub(crate) link: &'a [u8],
}

/// Cuts `NAME.NUMBER` at its dot: BadShape without exactly one dot. What stands on its sides is not
/// tested.
pub(crate) fn cut_port(word: &[u8]) -> Result<PortSides<'_>, PlanFaultKind>
    ensures { MatchResult result
        (λ sides. (is_one_dot (dots word.now) ≡ true) × (sides.name.now ≡ port_name word.now) × (sides.link.now ≡ port_link word.now))
        (λ kind. (kind ≡ variant.BadShape) × (is_one_dot (dots word.now) ≡ false)) }
{
    let Dots::At(dot) = find_dots(word) else {
        return Err(PlanFaultKind::BadShape);
    };
    Ok(PortSides {
        name: &word[..dot],
        link: &word[dot + 1..],
    })
}

/// Whether a word has no dot: where a port may stand, it names a switch and no link of it.
pub(crate) fn names_switch(word: &[u8]) -> bool
    ensures { result ≡ names_switch (dots word.now) }
{
    matches!(find_dots(word), Dots::Without)
}

/// The number of a link, or BadNumber where no switch has such a link.
pub(crate) fn read_link(word: &[u8]) -> Result<usize, PlanFaultKind>
    ensures { ReadsNumber result 0 (Some word.now) (is_from_to 0 last_link) }
{
    let link = read_number_within(0, LAST_LINK, word)?;
    Ok(link as usize)
}

/// The words that give a terminal's range.
#[derive(Clone, Copy)]
pub(crate) struct RangeWords<'a> {
    /// What follows `labels`, if it was said.
    pub(crate) labels: Option<&'a [u8]>,
    /// What follows `from`, if it was said.
    pub(crate) from: Option<&'a [u8]>,
}

/// Reads `[labels n] [from f]`, the words of a `terminal` line behind its port, or BadShape. Whether
/// these are numbers is not tested.
pub(crate) fn read_range<'a>(words: &[&'a [u8]]) -> Result<RangeWords<'a>, PlanFaultKind>
    ensures { MatchResult result
        (λ range. range_words (map (λ word. word.now) words.now)
        ≡ Ok (option_map (λ w. w.now) range.labels, option_map (λ w. w.now) range.from))
        (λ kind. range_words (map (λ word. word.now) words.now) ≡ Err kind) }
{
    match words {
        [] => Ok(RangeWords {
            labels: None,
            from: None,
        }),
        [word, number] => {
            if *word == b"labels".as_slice() {
                Ok(RangeWords {
                    labels: Some(number),
                    from: None,
                })
            } else if *word == b"from".as_slice() {
                Ok(RangeWords {
                    labels: None,
                    from: Some(number),
                })
            } else {
                Err(PlanFaultKind::BadShape)
            }
        }
        [word, number, other, further] => {
            if is_labels_and_from(word, other) {
                Ok(RangeWords {
                    labels: Some(number),
                    from: Some(further),
                })
            } else {
                Err(PlanFaultKind::BadShape)
            }
        }
        _ => Err(PlanFaultKind::BadShape),
    }
}

/// Whether these are the words of a range of which both numbers are said.
fn is_labels_and_from(word: &[u8], other: &[u8]) -> bool
    ensures { result ≡ (bytes_eq word.now (codes "labels") && bytes_eq other.now (codes "from")) }
{
    word == b"labels".as_slice() && other == b"from".as_slice()
}
