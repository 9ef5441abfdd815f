//! What the lines of descriptions and of scripts are, by the words with which they begin.

use crate::description_mistakes::{
    BASE_LINE, BUFFER_LINE, CLOS_LINE, CONTINUE_LINE, CUBE_LINE, DELETE_LINE, HEADER_LINE,
    LABEL_LINE, MESH_LINE, RANDOM_LINE, ROW_LINE, SWITCH_LINE, TERMINAL_LINE, TORUS_LINE,
    WIRE_LINE,
};
use crate::nearest::Search;
use crate::script_mistakes::{
    CLAIM_LINE, CONTROL_LINE, CREDIT_LINE, CROSS_LINE, DRAIN_LINE, DUMP_LINE, INPUT_LINE,
    LINK_LINE, PEEK_LINE, POKE_LINE, ROUNDS_LINE, SEND_LINE, SETTLE_LINE, TABLE_LINE, VERIFY_LINE,
};
use crate::words::word_at;

/// Where a line may have any number of words.
const ANY: usize = usize::MAX;

/// The word with which a line begins, what the line is, and how many words it has at least and at most.
pub(crate) type Form = (&'static [u8], &'static str, usize, usize);

/// The lines of a description.
pub(crate) const DESCRIPTION_FORMS: [Form; 15] = [
    (b"switch", SWITCH_LINE, 2, 2),
    (b"terminal", TERMINAL_LINE, 3, ANY),
    (b"wire", WIRE_LINE, 3, 3),
    (b"row", ROW_LINE, 4, 4),
    (b"random", RANDOM_LINE, 4, 4),
    (b"base", BASE_LINE, 3, 3),
    (b"continue", CONTINUE_LINE, 2, 2),
    (b"delete", DELETE_LINE, 2, 2),
    (b"header", HEADER_LINE, 2, 2),
    (b"buffer", BUFFER_LINE, 2, 2),
    (b"label", LABEL_LINE, 2, 3),
    (b"mesh", MESH_LINE, 4, 5),
    (b"cube", CUBE_LINE, 3, 4),
    (b"torus", TORUS_LINE, 4, 5),
    (b"clos", CLOS_LINE, 4, 5),
];

/// The lines of a script.
pub(crate) const SCRIPT_FORMS: [Form; 15] = [
    (b"send", SEND_LINE, 2, ANY),
    (b"drain", DRAIN_LINE, 2, 2),
    (b"cross", CROSS_LINE, 2, 2),
    (b"credit", CREDIT_LINE, 2, 2),
    (b"input", INPUT_LINE, 2, 3),
    (b"claim", CLAIM_LINE, 4, 4),
    (b"control", CONTROL_LINE, 2, 10),
    (b"rounds", ROUNDS_LINE, 2, 5),
    (b"settle", SETTLE_LINE, 1, 1),
    (b"peek", PEEK_LINE, 3, 4),
    (b"poke", POKE_LINE, 4, 5),
    (b"link", LINK_LINE, 2, 2),
    (b"table", TABLE_LINE, 2, 2),
    (b"verify", VERIFY_LINE, 1, 2),
    (b"dump", DUMP_LINE, 2, 2),
];

/// The form of a line of these words.
pub(crate) fn form_of(forms: &[Form], words: &[&[u8]]) -> Option<Form> {
    let first = word_at(words, 0)?;
    forms.iter().copied().find(|form| form.0 == first)
}

/// The word with which a line begins that is nearest.
pub(crate) fn nearest_form(forms: &[Form], word: &[u8]) -> Option<&'static [u8]> {
    let mut search = Search::new(word);
    for form in forms {
        search.offer(form.0);
    }
    search.found
}
