//! Plans of networks, and images: what a network has, and what is set at its links.
//!
//! A `Plan` is made of `Parts` that keep what each plan does: names differ, each port is a link of one of the
//! plan's switches, no link has two terminals or wires, no wire joins a switch to itself, nothing is said twice, and
//! each number is in its range. `Plan::peer` tells which `Port` is wired to which. A `Name` is a letter and then
//! letters, digits, `_` and `-`, at most 32 bytes.
//!
//! An `Image` holds the labels of each terminal, and for each switch what is set at its 32 links,
//! within the ranges of the registers. `Image::new` gives one with the plan's labels and nothing
//! set, and `hand_image` that of the plan's own `base`, `row`, `random`, `continue` and `delete`
//! lines; both fit the plan. `Image::set` sets a register by its address, and `Image::values` are
//! the values that aren't those after a reset. Each switch is a `SwitchImage`, and an `ImageFault`
//! is why a value or a range isn't set.
//!
//! How a text is cut into lines and words, and what a number, a name and a port's dot are, stands
//! here too (`cut_lines`, `read_number`, `find_dots`, ..): descriptions and scripts are cut by the same functions.
#![tactic(auto)]

mod hand;
mod image;
mod image_faults;
mod labelled;
mod limits;
mod name_index;
mod names;
mod parts;
mod plans;
mod port_texts;
mod ports;
mod row_list;
mod row_plan;
mod same_image;
mod switch_image;
mod switch_list;
mod terminal_list;
mod text;
mod wiring;

pub use hand::hand_image;
pub use image::Image;
pub use image_faults::ImageFault;
pub use limits::{
    LABELS, MAX_DESCRIPTION, MAX_HEADER_BYTES, MAX_SWITCHES, MAX_TERMINALS, header_values,
    is_buffer_size,
};
pub use names::Name;
pub use parts::{Network, Parts};
pub use plans::{Plan, PlanBase, PlanRandom, PlanRow, Shape, Terminal};
pub use port_texts::select_text;
pub use ports::{Port, Wire};
pub use row_list::RowList;
pub use switch_image::SwitchImage;
pub use switch_list::SwitchList;
pub use terminal_list::TerminalList;
pub use text::{
    Dots, cut_lines, cut_words, find_dots, first_word, is_name, is_plain, read_number, uncommented,
};

// Contracts name these: their values are a part of what they say, so a change of one alone is refused.
const _: () = prove!(limits::MAX_SWITCHES == 64);

const _: () = prove!(limits::MAX_TERMINALS == 256);

const _: () = prove!(limits::MAX_HEADER_BYTES == 2);

const _: () = prove!(limits::LABELS == 0x10000);
