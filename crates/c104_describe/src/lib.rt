//! Descriptions of networks: the plan that one gives, and the description that a plan is printed as.
//!
//! `read_description` makes a `Plan` of a text, or tells a `PlanFault`: the first faulty line and the least of its
//! faults, of kind `PlanFaultKind`. `print_plan` prints a plan as a description, which gives that plan.
//!
//! Plans and images are those of `c104_plan`, which this crate re-exports.
#![tactic(auto)]

mod description;
mod drafts;
mod fault_texts;
mod faults;
mod fills;
mod forms;
mod lines;
mod link_lines;
mod print;
mod print_tables;
mod shape_lines;
mod shared;
mod words;

pub use c104_plan::{
    Dots, Image, ImageFault, MAX_DESCRIPTION, Name, Plan, PlanBase, PlanRandom, PlanRow, Port,
    Shape, SwitchImage, Terminal, Wire, cut_lines, cut_words, find_dots, first_word, hand_image,
    is_name, is_plain, read_number, uncommented,
};
pub use description::read_description;
pub use fault_texts::description_text;
pub use faults::{PlanFault, PlanFaultKind};
pub use print::print_plan;
