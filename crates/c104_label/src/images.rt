//! The image of a plan: of its own lines, or with tables of labels.
ghost use Rattle.std.specs.Prelude.{All, IfErr, IfOk, IsErrOf, [], false, length, map, true, ◌↔◌, ◌≡◌};
ghost use Rattle.c104_check.specs.{ChannelDependencies.{IsAcyclic, IsNeverRandomized}, Routes.{IsAccepted, routes_of}};
ghost use Rattle.c104_label.specs.{Crossings.AreCrossings, Images.{IsImageCause, IsImageOf, IsShapeCause, is_cube_shape}};
ghost use Rattle.c104_label.specs.Images.{is_labelled_shape, is_mesh_shape, is_tree_shape, is_up_down_shape};
ghost use Rattle.{c104_plan.specs.{LabelledImages.labelled_image, PlanImage.{Fits, range_of}}, c104_regs.specs.Ranges.IsTableInRange};
ghost use Rattle.c104_label.specs.declared.faults.LabelFault.TheVariants as fault;

use crate::cubes::cube_image;
use crate::faults::LabelFault;
use crate::meshes::mesh_image;
use crate::reports::UpDownReport;
use crate::trees::tree_image;
use crate::up_down::up_down_image;
use crate::watch::{RootWatch, Unwatched};
use c104_interval::Table;
use c104_plan::{Image, Plan, Shape, hand_image};
use c104_token::NoMemory;
use std::alloc::Global;

/// The image of a plan: that of its own lines where its labels are made by hand, and else that of the labels of its
/// shape, a tree, up and down from a root, a mesh or a cube.
///
/// What is labelled from a root alone may be refused: NotConnected where wires don't lead from its root to each switch,
/// then TooManyLabels where its terminals have more labels than there are headers, and BadGroups where up and down no labels
/// go with groups of its own lines. Any plan may fail with NoMemory. Such labels need no check, nor do those of a mesh and
/// a cube, and by them no inputs depend on one another in a cycle. No link puts random headers before packets where no
/// line of the plan says so.
pub fn image_of(alloc: Global, plan: &Plan) -> Result<Image, LabelFault>
    ensures image { IfOk result (λ image. IsImageOf plan.now image) }
    ensures fits { IfOk result (λ image. Fits image plan.now) }
    ensures accepted { is_labelled_shape plan.now.shape ≡ true → IfOk result (λ image. IsAccepted (routes_of plan.now image)) }
    ensures acyclic { is_labelled_shape plan.now.shape ≡ true → IfOk result (λ image. IsAcyclic (routes_of plan.now image)) }
    ensures never_randomized { plan.now.randoms ≡ [] → IfOk result (λ image. IsNeverRandomized (routes_of plan.now image)) }
    ensures crossings { IfOk result (λ image. AreCrossings plan.now.shape (routes_of plan.now image)) }
    ensures refused { IfErr result (IsImageCause plan.now) }
{
    let mut report = None;
    image_with_report(alloc, plan, &mut report, &mut Unwatched)
}

/// The same, with a report of labels by which packets go up and then down, if such are made. What watches is told how
/// many roots were tried, where the plan names none.
pub fn image_with_report<T: RootWatch>(
    alloc: Global,
    plan: &Plan,
    report: &mut Option<UpDownReport>,
    watch: &mut T,
) -> Result<Image, LabelFault>
    ensures image { IfOk result (λ image. IsImageOf plan.now image) }
    ensures fits { IfOk result (λ image. Fits image plan.now) }
    ensures accepted { is_labelled_shape plan.now.shape ≡ true → IfOk result (λ image. IsAccepted (routes_of plan.now image)) }
    ensures acyclic { is_labelled_shape plan.now.shape ≡ true → IfOk result (λ image. IsAcyclic (routes_of plan.now image)) }
    ensures never_randomized { plan.now.randoms ≡ [] → IfOk result (λ image. IsNeverRandomized (routes_of plan.now image)) }
    ensures crossings { IfOk result (λ image. AreCrossings plan.now.shape (routes_of plan.now image)) }
    ensures refused { IfErr result (IsImageCause plan.now) }
{
    match plan.shape() {
        Shape::Hand => {
            let image = hand_image(alloc, plan)?;
            Ok(image)
        }
        Shape::Tree(_) => label_tree(alloc, plan),
        Shape::UpDown(_) => up_down_labels(alloc, plan, report, watch),
        Shape::Mesh(_, _, _) => label_mesh(alloc, plan),
        Shape::Cube(_, _) => label_cube(alloc, plan),
    }
}

/// The image of a plan that is to be labelled as a tree.
///
/// Depth first from the root, each switch's own terminals have the next labels in ascending order of links, each
/// as many as its count, and then come those of the switches behind its links. A label leaves a switch by the
/// link of its terminal, else by that to the subtree that has it, else by that to the parent, and what is no label
/// by none. All ports of a switch that have a wire have the same rows, at most 36, in ascending order and without
/// empty intervals. All else is as the plan's own lines say. The labels need no check: they are accepted, whatever
/// else the plan says.
///
/// WrongShape exactly where the plan is to be labelled otherwise; then NotConnected where wires don't lead from
/// the root to each switch; then TooManyLabels where the terminals have more labels than there are headers, 256, or
/// 65536 of two bytes; and NoMemory.
pub fn label_tree(alloc: Global, plan: &Plan) -> Result<Image, LabelFault>
    ensures image { IfOk result (λ image. IsImageOf plan.now image) }
    ensures fits { IfOk result (λ image. Fits image plan.now) }
    ensures accepted { IfOk result (λ image. IsAccepted (routes_of plan.now image)) }
    ensures acyclic { IfOk result (λ image. IsAcyclic (routes_of plan.now image)) }
    ensures never_randomized { IfOk result (λ image. IsNeverRandomized (routes_of plan.now image)) }
    ensures shape { IsErrOf result fault.WrongShape ↔ (is_tree_shape plan.now.shape ≡ false) }
    ensures refused { IfErr result (IsShapeCause (is_tree_shape plan.now.shape) plan.now) }
{
    match plan.shape() {
        Shape::Tree(root) => tree_image(alloc, plan, root),
        Shape::UpDown(_) => Err(LabelFault::WrongShape),
        Shape::Hand => Err(LabelFault::WrongShape),
        Shape::Mesh(_, _, _) => Err(LabelFault::WrongShape),
        Shape::Cube(_, _) => Err(LabelFault::WrongShape),
    }
}

/// The image of a plan that is to be labelled so that packets go up towards a root, and then down, over any of the wires.
///
/// The labels of terminals are those that `label_tree` gives them by the same root: the switch that the plan names, or that
/// from which links are loaded least. A wire leads up to the switch that a visit met first, depth first, or without a name
/// also breadth first, and each port that has a wire has a table of its own: what came down goes down, and all else goes
/// up or down, by a shortest such way where the tables have room for it. Neighbouring links that are equally good for all
/// labels are a group, unless the plan's own lines group links of their switch: then its groups are these, and labels
/// take each as a whole. Where tables have no room, or aren't accepted, they are those of the tree. All else is as the
/// plan's own lines say. The labels need no check: they are accepted, whatever else the plan says, and by them no inputs
/// depend on one another in a cycle.
///
/// If the plan names its first switch as the root and groups no links, and the wires are those of a torus, of a folded
/// Clos network, or of a mesh or a cube with several wires to each neighbour, packets go as that form says instead, where
/// such labels are accepted too. Then the wires that are equally good for all labels are a group.
///
/// WrongShape exactly where the plan is to be labelled otherwise; then NotConnected where wires don't lead from
/// the root to each switch, or there is none; then TooManyLabels where the terminals have more labels than there are
/// headers, 256, or 65536 of two bytes; then BadGroups where the plan's own lines group links, and no labels are accepted
/// with these groups; and NoMemory.
pub fn label_up_down(alloc: Global, plan: &Plan) -> Result<Image, LabelFault>
    ensures image { IfOk result (λ image. IsImageOf plan.now image) }
    ensures fits { IfOk result (λ image. Fits image plan.now) }
    ensures accepted { IfOk result (λ image. IsAccepted (routes_of plan.now image)) }
    ensures acyclic { IfOk result (λ image. IsAcyclic (routes_of plan.now image)) }
    ensures never_randomized { IfOk result (λ image. IsNeverRandomized (routes_of plan.now image)) }
    ensures shape { IsErrOf result fault.WrongShape ↔ (is_up_down_shape plan.now.shape ≡ false) }
    ensures refused { IfErr result (IsShapeCause (is_up_down_shape plan.now.shape) plan.now) }
{
    let mut report = None;
    up_down_labels(alloc, plan, &mut report, &mut Unwatched)
}

/// The same, with a report.
fn up_down_labels<T: RootWatch>(
    alloc: Global,
    plan: &Plan,
    report: &mut Option<UpDownReport>,
    watch: &mut T,
) -> Result<Image, LabelFault>
    ensures image { IfOk result (λ image. IsImageOf plan.now image) }
    ensures fits { IfOk result (λ image. Fits image plan.now) }
    ensures accepted { IfOk result (λ image. IsAccepted (routes_of plan.now image)) }
    ensures acyclic { IfOk result (λ image. IsAcyclic (routes_of plan.now image)) }
    ensures never_randomized { IfOk result (λ image. IsNeverRandomized (routes_of plan.now image)) }
    ensures shape { IsErrOf result fault.WrongShape ↔ (is_up_down_shape plan.now.shape ≡ false) }
    ensures refused { IfErr result (IsShapeCause (is_up_down_shape plan.now.shape) plan.now) }
{
    match plan.shape() {
        Shape::UpDown(named) => up_down_image(alloc, plan, named, report, watch),
        Shape::Hand => Err(LabelFault::WrongShape),
        Shape::Tree(_) => Err(LabelFault::WrongShape),
        Shape::Mesh(_, _, _) => Err(LabelFault::WrongShape),
        Shape::Cube(_, _) => Err(LabelFault::WrongShape),
    }
}

/// The image of a mesh's plan: labels go along the column first, and then along the row. All ports of a switch
/// that have a wire have the table of `mesh_tables`, and all else is as the plan's own lines say.
///
/// The labels need no check: they are accepted, whatever else the plan says. From each terminal each label comes to
/// its own over as many wires between switches as the two are rows and columns apart.
///
/// WrongShape exactly where the plan is no mesh's; and NoMemory.
#[tactic(auto, using(crate::proofs::ShapePlans::mesh_switches))]
pub fn label_mesh(alloc: Global, plan: &Plan) -> Result<Image, LabelFault>
    ensures image { IfOk result (λ image. IsImageOf plan.now image) }
    ensures fits { IfOk result (λ image. Fits image plan.now) }
    ensures accepted { IfOk result (λ image. IsAccepted (routes_of plan.now image)) }
    ensures acyclic { IfOk result (λ image. IsAcyclic (routes_of plan.now image)) }
    ensures never_randomized { IfOk result (λ image. IsNeverRandomized (routes_of plan.now image)) }
    ensures crossings { IfOk result (λ image. AreCrossings plan.now.shape (routes_of plan.now image)) }
    ensures shape { IsErrOf result fault.WrongShape ↔ (is_mesh_shape plan.now.shape ≡ false) }
    ensures refused { IfErr result (IsShapeCause (is_mesh_shape plan.now.shape) plan.now) }
{
    match plan.shape() {
        Shape::Mesh(width, height, terminals) => {
            let image = mesh_image(alloc, plan, width, height, terminals)?;
            Ok(image)
        }
        Shape::Hand => Err(LabelFault::WrongShape),
        Shape::Tree(_) => Err(LabelFault::WrongShape),
        Shape::UpDown(_) => Err(LabelFault::WrongShape),
        Shape::Cube(_, _) => Err(LabelFault::WrongShape),
    }
}

/// The image of a cube's plan: labels go by the highest bit at which the number of the switch that they are for
/// differs. All ports of a switch that have a wire have the table of `cube_tables`, and all else is as the plan's
/// own lines say.
///
/// The labels need no check: they are accepted, whatever else the plan says. From each terminal each label comes to
/// its own over as many wires between switches as bits of the two numbers differ.
///
/// WrongShape exactly where the plan is no cube's; and NoMemory.
#[tactic(auto, using(crate::proofs::ShapePlans::cube_switches))]
pub fn label_cube(alloc: Global, plan: &Plan) -> Result<Image, LabelFault>
    ensures image { IfOk result (λ image. IsImageOf plan.now image) }
    ensures fits { IfOk result (λ image. Fits image plan.now) }
    ensures accepted { IfOk result (λ image. IsAccepted (routes_of plan.now image)) }
    ensures acyclic { IfOk result (λ image. IsAcyclic (routes_of plan.now image)) }
    ensures never_randomized { IfOk result (λ image. IsNeverRandomized (routes_of plan.now image)) }
    ensures crossings { IfOk result (λ image. AreCrossings plan.now.shape (routes_of plan.now image)) }
    ensures shape { IsErrOf result fault.WrongShape ↔ (is_cube_shape plan.now.shape ≡ false) }
    ensures refused { IfErr result (IsShapeCause (is_cube_shape plan.now.shape) plan.now) }
{
    match plan.shape() {
        Shape::Cube(dimensions, terminals) => {
            let image = cube_image(alloc, plan, dimensions, terminals)?;
            Ok(image)
        }
        Shape::Hand => Err(LabelFault::WrongShape),
        Shape::Tree(_) => Err(LabelFault::WrongShape),
        Shape::UpDown(_) => Err(LabelFault::WrongShape),
        Shape::Mesh(_, _, _) => Err(LabelFault::WrongShape),
    }
}

/// The image of a plan with a table for each switch, and the plan's own ranges.
pub(crate) fn image_with(alloc: Global, plan: &Plan, tables: &[Table]) -> Result<Image, NoMemory>
    requires switches { length tables.now ≡ length plan.now.switches }
    requires tables { All IsTableInRange tables.now }
    ensures image { IfOk result (λ image. image
        ≡ labelled_image plan.now (map range_of plan.now.terminals) tables.now) }
    ensures fits { IfOk result (λ image. Fits image plan.now) }
{
    let ranges = plan.ranges(alloc)?;
    Image::with_tables(alloc, plan, ranges, tables)
}
