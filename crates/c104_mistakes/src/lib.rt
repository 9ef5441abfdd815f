//! What users are told of their mistakes.
//!
//! An answer names a fault by its number and name. A message says what was wanted, and about which word:
//! `description_message` of a faulty description, `fault_message` of a faulty line of a script and
//! `refusal_message` of a refused one, `register_message` of one whose register is refused and `command_message` of one
//! whose command a switch refuses. The sentences are constants: of descriptions, of scripts, and of both.
//!
//! `Messages` is what takes messages, with the line that each is `About`; `Silent` takes none. Nothing
//! depends on a message: it is left out where memory is short. What messages say isn't proved.
#![tactic(auto)]

mod addressed;
mod commands;
mod common_mistakes;
mod description_mistakes;
mod descriptions;
mod forms;
mod headers;
mod messages;
mod nearest;
mod register_names;
mod register_ranges;
mod script_mistakes;
mod scripts;
mod words;

pub use commands::{command_message, is_refusal};
pub use common_mistakes::{NO_LINK, NOT_A_TERMINAL};
pub use descriptions::description_message;
pub use headers::{header_text, typed_header};
pub use messages::{About, Behind, Messages, Silent, Work, tell_if_long, tell_lines};
pub use nearest::{nearest_node, nearest_switch, nearest_terminal};
pub use script_mistakes::{NO_NODE, NO_NUMBER, TERMINALS_LINK};
pub use scripts::{fault_message, owner_message, refusal_message, register_message};
pub use words::{
    LAST_LINK, Mistake, counted, has_dot, link_of, name_of, names_switch, names_terminal,
};
