//! Interval labels for trees, meshes and cubes, and for packets that go up towards a root and then down: the image of a
//! plan, and the tables of its switches.
//!
//! `label_tree`, `label_up_down`, `label_mesh` and `label_cube` give the image of a plan of their own shape, and
//! `image_of` that of a plan of any. The tables and groups of `label_up_down` aren't proved to be right: they are checked,
//! and where the check refuses them, the tree's tables take their place. `image_with_report` tells by an `UpDownReport`
//! which they are and what they come to. `mesh_tables` and `cube_tables` are the tables of a mesh's and a
//! cube's switches, `spanning_tree` the depth-first tree of a plan's switches, a `Forest` below its root.
//! A `LabelFault` is why a network isn't labelled.
#![tactic(auto)]

mod choices;
mod cubes;
mod exits;
mod fabric;
mod faults;
mod forests;
mod form_tables;
mod form_ways;
mod forms;
mod groups;
mod images;
mod loads;
mod meshes;
mod numbers;
mod orders;
mod places;
mod port_tables;
mod reports;
mod rows;
mod trees;
mod up_down;
mod watch;
mod way_rows;
mod ways;

pub use cubes::{cube_tables, is_cube};
pub use faults::LabelFault;
pub use forests::{Forest, spanning_tree};
pub use images::{image_of, image_with_report, label_cube, label_mesh, label_tree, label_up_down};
pub use loads::Load;
pub use meshes::{is_mesh, mesh_tables};
pub use orders::Visit;
pub use reports::{UpDownReport, UpDownWay};
pub use watch::{RootWatch, Unwatched};
