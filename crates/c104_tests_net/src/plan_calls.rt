//! The calls that tests make of plans and images, with nothing promised. What their contracts say would be facts of
//! every later goal of a test, and the prover would compute with literal texts. A test fails where a call does.
use crate::calls::drop_plan;
use c104_describe::{print_plan, read_description};
use c104_label::{LabelFault, image_of, label_cube, label_mesh, label_tree, label_up_down};
use c104_plan::{Image, Plan, Port, hand_image};
use c104_regs::PackedSettings;
use std::alloc::Global;

/// The plan of a description.
pub fn plan_of(alloc: Global, text: &[u8]) -> Option<Plan> {
    read_description(alloc, text).ok()
}

/// What is printed of a plan.
pub fn printed(alloc: Global, plan: &Plan) -> Option<String> {
    print_plan(alloc, plan).ok()
}

/// The far end of a link.
pub fn peer(plan: &Plan, port: Port) -> Option<Port> {
    plan.peer(port)
}

/// What makes an image of a plan.
#[derive(Clone, Copy)]
pub enum Maker {
    /// Nothing is set.
    Empty,
    /// The plan's own lines.
    Lines,
    /// The labels of a tree, up and down, of a mesh or of a cube.
    Tree,
    UpDown,
    Mesh,
    Cube,
    /// The labels of what it is.
    Any,
}

/// The image of a plan.
pub fn image(alloc: Global, plan: &Plan, maker: Maker) -> Result<Image, LabelFault> {
    match maker {
        Maker::Empty => Ok(Image::new(alloc, plan)?),
        Maker::Lines => Ok(hand_image(alloc, plan)?),
        Maker::Tree => label_tree(alloc, plan),
        Maker::UpDown => label_up_down(alloc, plan),
        Maker::Mesh => label_mesh(alloc, plan),
        Maker::Cube => label_cube(alloc, plan),
        Maker::Any => image_of(alloc, plan),
    }
}

/// The same with nothing said of why there is none.
fn some_image(alloc: Global, plan: &Plan, maker: Maker) -> Option<Image> {
    image(alloc, plan, maker).ok()
}

/// The image of a description.
pub fn described(alloc: Global, text: &[u8], maker: Maker) -> Option<Image> {
    let plan = plan_of(alloc, text)?;
    let image = some_image(alloc, &plan, maker);
    drop_plan(plan);
    image
}

/// What is set at a link.
pub fn settings(image: &Image, switch: usize, link: usize) -> Option<&PackedSettings> {
    image.settings(switch)?.get(link)
}

/// Whether a plan by hand has an image, where the image fits the plan.
pub fn has_row_plan(alloc: Global, plan: &Plan, image: &Image) -> Option<bool> {
    if !image.fits(plan) {
        return None;
    }
    match image.row_plan(alloc, plan) {
        Ok(Some(rows)) => {
            drop_plan(rows);
            Some(true)
        }
        Ok(None) => Some(false),
        Err(_) => None,
    }
}
