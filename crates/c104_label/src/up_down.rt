//! Labels by which packets go up towards a root and then down, over any of the wires.
//!
//! What is up is told by an order of the switches: that in which the tree is visited, by which the tree's ways are among
//! those that go up and then down, and neighbouring labels more often share a row; or one by how far switches are from the
//! root. What came down may only go down, so each input has a table of its own.
//!
//! Where the wires tell that the network is a torus or the like, tables by its own ways are tried first.
ghost use Rattle.std.specs.Prelude.{IfErr, IfOk, IfSome, Option, false, length, true, ℕ, ◌<◌, ◌≡◌, ◌≤◌, ◌⊎◌};
ghost use Rattle.{c104_check.specs.Routes.{IsAccepted, routes_of}, c104_label.specs.Forests.{Forest as TheForest, IsSpanning}};
ghost use Rattle.c104_label.specs.{Images.{IsRootCause, IsRootOf, IsUpDownCause, IsUpDownImage, IsUpDownMade}, TreeImages.most_labels};
ghost use Rattle.c104_label.specs.{TreeImages.total_count, Trees.forest_of, UpDownLabels.{ArePortLabels, IsRelabelled, IsSound}};
ghost use Rattle.c104_plan.specs.{PlanImage.Fits, Plans.{IsPlan, IsUpDownPlan}};

use crate::choices::choice_of;
use crate::exits::Plot;
use crate::fabric::Fabric;
use crate::faults::LabelFault;
use crate::forests::{Forest, spanning_tree};
use crate::form_tables::form_labels;
use crate::numbers::label_sum;
use crate::orders::Choice;
use crate::port_tables::{PortLabels, group_flags, port_tables};
use crate::reports::{UpDownReport, UpDownWay, report_of};
use crate::trees::{forest_image, most_labels};
use crate::watch::RootWatch;
use c104_check::{CheckFault, RanksOrCycle, check, find_cycle};
use c104_plan::{Image, Plan};
use c104_token::NoMemory;
use std::alloc::{AllocError, Global};

/// The image of a plan whose packets go up towards a root and then down: a switch of the plan that is named, or that from
/// which links are loaded least. What was made is told by the report.
///
/// The labels are those of the root's tree, and where no tables could be made by which they go over other wires too,
/// or such tables aren't accepted, the tables are the tree's.
///
/// NotConnected where wires don't lead from the root to each switch, or there is no switch; then TooManyLabels where the
/// terminals have more labels than there are headers, 256, or 65536 of two bytes; BadGroups where lines of the plan group
/// links and no tables are accepted with these; and NoMemory.
#[tactic(auto, using(crate::proofs::UpDownImages::root_cause))]
pub(crate) fn up_down_image<T: RootWatch>(
    alloc: Global,
    plan: &Plan,
    named: Option<usize>,
    report: &mut Option<UpDownReport>,
    watch: &mut T,
) -> Result<Image, LabelFault>
    requires plan { IsUpDownPlan named plan.now }
    ensures image { IfOk result (IsUpDownMade plan.now named) }
    ensures fits { IfOk result (λ image. Fits image plan.now) }
    ensures refused { IfErr result (IsUpDownCause plan.now named) }
{
    if plan.switches().len() == 0 {
        return Err(LabelFault::NotConnected);
    }
    let choice = choice_of(alloc, plan, named, watch)?;
    let image = chosen_image(alloc, plan, named, choice, report)?;
    Ok(image)
}

/// The image of a plan by a choice.
#[tactic(auto, using(crate::proofs::UpDownImages::tree_cause))]
fn chosen_image(
    alloc: Global,
    plan: &Plan,
    named: Option<usize>,
    choice: Choice,
    report: &mut Option<UpDownReport>,
) -> Result<Image, LabelFault>
    requires plan { IsUpDownPlan named plan.now }
    requires root { IsRootOf plan.now named choice.root }
    ensures image { IfOk result (λ image. (forest : TheForest) × IsUpDownImage plan.now choice.root forest image) }
    ensures fits { IfOk result (λ image. Fits image plan.now) }
    ensures refused { IfErr result (IsRootCause plan.now choice.root) }
{
    let forest = spanning_tree(alloc, plan, choice.root)?;
    if label_sum(plan) > most_labels(plan) {
        return Err(LabelFault::TooManyLabels);
    }
    let image = told_image(alloc, plan, choice, &forest, report)?;
    Ok(image)
}

/// The image of a plan by a choice, and its report.
fn told_image(
    alloc: Global,
    plan: &Plan,
    choice: Choice,
    forest: &Forest,
    report: &mut Option<UpDownReport>,
) -> Result<Image, LabelFault>
    requires kept { IsPlan plan.now }
    requires plan { (named : Option ℕ) × IsUpDownPlan named plan.now }
    requires root { choice.root < length plan.now.switches }
    requires tree { IsSpanning plan.now choice.root (forest_of forest.now) }
    requires few { total_count plan.now.terminals ≤ most_labels plan.now }
    ensures image { IfOk result (IsUpDownImage plan.now choice.root (forest_of forest.now)) }
    ensures fits { IfOk result (λ image. Fits image plan.now) }
    ensures refused { IfErr result (IsRootCause plan.now choice.root) }
{
    let mut way = UpDownWay::Tree;
    let image = best_image(alloc, plan, choice, forest, &mut way)?;
    *report = Some(report_of(alloc, plan, choice, way, forest, &image)?);
    Ok(image)
}

/// The image of a plan by its tree, or by shorter ways where these are accepted.
fn best_image(
    alloc: Global,
    plan: &Plan,
    choice: Choice,
    forest: &Forest,
    way: &mut UpDownWay,
) -> Result<Image, LabelFault>
    requires kept { IsPlan plan.now }
    requires plan { (named : Option ℕ) × IsUpDownPlan named plan.now }
    requires root { choice.root < length plan.now.switches }
    requires tree { IsSpanning plan.now choice.root (forest_of forest.now) }
    requires few { total_count plan.now.terminals ≤ most_labels plan.now }
    ensures image { IfOk result (IsUpDownImage plan.now choice.root (forest_of forest.now)) }
    ensures fits { IfOk result (λ image. Fits image plan.now) }
    ensures refused { IfErr result (IsRootCause plan.now choice.root) }
{
    let tree = forest_image(alloc, plan, choice.root, forest)?;
    let stands = stands_with_groups(alloc, plan, &tree)?;
    let found = shorter_image(alloc, plan, choice, forest, &tree, way)?;
    if let Some(image) = found {
        return Ok(image);
    }
    if !stands {
        return Err(LabelFault::BadGroups);
    }
    Ok(tree)
}

/// Whether a tree's image stands beside the groups of the plan's own lines: there are none, or it is accepted with them.
fn stands_with_groups(alloc: Global, plan: &Plan, tree: &Image) -> Result<bool, NoMemory>
    requires { Fits tree.now plan.now }
    ensures stands { IfOk result (λ stands. stands ≡ true → (length plan.now.continues ≡ 0) ⊎ IsSound plan.now tree.now) }
    ensures falls { IfOk result (λ stands. stands ≡ false → 0 < length plan.now.continues) }
{
    if plan.continues().len() == 0 {
        Ok(true)
    } else {
        is_sound(alloc, plan, tree)
    }
}

/// The image by which labels go as the form of the network says, or up and then down. None where there is none that is
/// accepted.
fn shorter_image(
    alloc: Global,
    plan: &Plan,
    choice: Choice,
    forest: &Forest,
    tree: &Image,
    way: &mut UpDownWay,
) -> Result<Option<Image>, NoMemory>
    requires { Fits tree.now plan.now }
    ensures { IfOk result (λ found. IfSome found (IsRelabelled plan.now tree.now)) }
{
    let labels = form_labels(alloc, plan, forest)?;
    match sound_image(alloc, plan, tree, labels, way)? {
        Some(image) => Ok(Some(image)),
        None => {
            let labels = port_labels(alloc, plan, choice, forest)?;
            sound_image(alloc, plan, tree, labels, way)
        }
    }
}

/// The image with these labels. None where there are none, or they aren't accepted.
fn sound_image(
    alloc: Global,
    plan: &Plan,
    tree: &Image,
    labels: Option<PortLabels>,
    way: &mut UpDownWay,
) -> Result<Option<Image>, NoMemory>
    requires fits { Fits tree.now plan.now }
    requires labels { IfSome labels (λ labels. ArePortLabels plan.now labels.tables.items labels.groups.items) }
    ensures { IfOk result (λ found. IfSome found (IsRelabelled plan.now tree.now)) }
{
    let Some(labels) = labels else {
        return Ok(None);
    };
    let image = tree.with_port_tables(
        alloc,
        plan,
        labels.tables.as_slice(),
        labels.groups.as_slice(),
    )?;
    if !is_sound(alloc, plan, &image)? {
        return Ok(None);
    }
    *way = labels.way;
    Ok(Some(image))
}

/// Whether labels are accepted, and no inputs depend on one another in a cycle.
fn is_sound(alloc: Global, plan: &Plan, image: &Image) -> Result<bool, NoMemory>
    requires { Fits image.now plan.now }
    ensures { IfOk result (λ sound. sound ≡ true → IsSound plan.now image.now) }
{
    match check(alloc, plan, image) {
        Ok(_) => is_acyclic(alloc, plan, image),
        Err(CheckFault::NoMemory) => Err(NoMemory),
        Err(_) => Ok(false),
    }
}

/// Whether no inputs depend on one another in a cycle, where labels are accepted.
fn is_acyclic(alloc: Global, plan: &Plan, image: &Image) -> Result<bool, NoMemory>
    requires fits { Fits image.now plan.now }
    requires accepted { IsAccepted (routes_of plan.now image.now) }
    ensures { IfOk result (λ acyclic. acyclic ≡ true → IsSound plan.now image.now) }
{
    match find_cycle(alloc, plan, image)? {
        RanksOrCycle::Ranks(_) => Ok(true),
        RanksOrCycle::Cycle(_) => Ok(false),
    }
}

/// The table of each link, and whether it continues a group. None where a table needs more rows than it has.
fn port_labels(
    alloc: Global,
    plan: &Plan,
    choice: Choice,
    forest: &Forest,
) -> Result<Option<PortLabels>, AllocError>
    ensures { IfOk result (λ found. IfSome found (λ labels. ArePortLabels plan.now labels.tables.items labels.groups.items)) }
{
    let fabric = Fabric::new(alloc, plan)?;
    let plot = Plot::new(alloc, &fabric, choice, forest)?;
    plotted_labels(alloc, plan, &fabric, &plot)
}

/// The same by what they are made by.
fn plotted_labels(
    alloc: Global,
    plan: &Plan,
    fabric: &Fabric,
    plot: &Plot,
) -> Result<Option<PortLabels>, AllocError>
    ensures { IfOk result (λ found. IfSome found (λ labels. ArePortLabels plan.now labels.tables.items labels.groups.items)) }
{
    let groups = group_flags(alloc, plan, plot.continues.as_slice())?;
    let Some(made) = port_tables(alloc, plan, fabric, plot)? else {
        return Ok(None);
    };
    Ok(Some(PortLabels {
        tables: made.tables,
        groups,
        way: way_of(made.is_shortest),
    }))
}

/// The ways of tables that go up and then down.
fn way_of(are_shortest: bool) -> UpDownWay {
    if are_shortest {
        UpDownWay::Shortest
    } else {
        UpDownWay::Any
    }
}
