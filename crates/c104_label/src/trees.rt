//! The labels of a plan's tree.
//!
//! A labeller of one shape asks for that first, before any memory: a plan of another shape is WrongShape, whatever else
//! is wrong with it. The program labels each plan by its own shape and so never says it.
ghost use Rattle.std.specs.{List.range_with_len, Prelude.{IfErr, IfOk, length, map, ◌+◌, ◌<◌, ◌≡◌, ◌≤◌}};
ghost use Rattle.c104_label.specs.{Forests.{Forest as TheForest, IsConnected, IsSpanning}, LabelRows.with_rows, TreeImages.IsLabelCause};
ghost use Rattle.c104_label.specs.{TreeImages.{IsTreeImage, most_labels, switch_place, total_count}, TreeLabels.{AreLinks, child_pieces}};
ghost use Rattle.c104_label.specs.TreeLabels.{count_at, first_at, forest_labels, net_of, own_labels, place, place_end, rows_from};
ghost use Rattle.c104_label.specs.{TreeLabels.{switch_table, tree_labels, tree_range, tree_rows}, Trees.forest_of};
ghost use Rattle.c104_plan.specs.{PlanImage.Fits, Plans.IsPlan};

use crate::faults::LabelFault;
use crate::forests::{Forest, spanning_tree};
use crate::numbers::{
    count_at, forest_labels, label_sum, labels_before, labels_behind, own_counts,
};
use crate::places::{Place, place_of};
use crate::rows::{add_row, table_of};
use c104_interval::{Row, Table};
use c104_plan::{Image, Plan};
use c104_regs::LINKS;
use c104_token::NoMemory;
use std::alloc::{AllocError, Global};

/// The image of a plan that is labelled as a tree from a root, a switch of the plan.
///
/// NotConnected where wires don't lead from the root to each switch; then TooManyLabels where the
/// terminals have more labels than there are headers, 256, or 65536 of two bytes; and NoMemory.
pub(crate) fn tree_image(alloc: Global, plan: &Plan, root: usize) -> Result<Image, LabelFault>
    requires { root < length plan.now.switches }
    ensures image { IfOk result (λ image. (forest : TheForest) × IsTreeImage plan.now root forest image) }
    ensures fits { IfOk result (λ image. Fits image plan.now) }
    ensures connected { IfOk result (λ _. IsConnected plan.now root) }
    ensures few { IfOk result (λ _. total_count plan.now.terminals ≤ most_labels plan.now) }
    ensures refused { IfErr result (IsLabelCause plan.now root) }
{
    let forest = spanning_tree(alloc, plan, root)?;
    if label_sum(plan) > most_labels(plan) {
        return Err(LabelFault::TooManyLabels);
    }
    let image = forest_image(alloc, plan, root, &forest)?;
    Ok(image)
}

/// How many labels a plan may have: as many as there are headers.
pub(crate) fn most_labels(plan: &Plan) -> u32
    ensures value { result ≡ most_labels plan.now }
    ensures kept { IsPlan plan.now }
{
    if plan.header() == 2 { 65536 } else { 256 }
}

/// A plan's tree, and how many labels each of its switches has of its own.
#[derive(Clone, Copy)]
struct Tree<'a> {
    /// The switch at its root.
    root: usize,
    /// The subtrees below the root.
    below: &'a Forest,
    /// The counts, by switch.
    counts: &'a [u32],
}

/// The image of a plan that is labelled by its tree.
pub(crate) fn forest_image(
    alloc: Global,
    plan: &Plan,
    root: usize,
    forest: &Forest,
) -> Result<Image, NoMemory>
    requires tree { IsSpanning plan.now root (forest_of forest.now) }
    requires few { total_count plan.now.terminals ≤ 65536 }
    ensures image { IfOk result (IsTreeImage plan.now root (forest_of forest.now)) }
    ensures fits { IfOk result (λ image. Fits image plan.now) }
{
    let counts = own_counts(alloc, plan)?;
    let tree = Tree {
        root,
        below: forest,
        counts: counts.as_slice(),
    };
    let tables = tree_tables(alloc, plan, tree)?;
    let ranges = tree_ranges(alloc, plan, tree)?;
    Image::with_tables(alloc, plan, ranges, tables.as_slice())
}

/// The table of each switch.
fn tree_tables(alloc: Global, plan: &Plan, tree: Tree<'_>) -> Result<Vec<Table>, AllocError>
    requires tree { IsSpanning plan.now tree.root (forest_of tree.below.now) }
    requires counts { count_at tree.counts.now ≡ own_labels (net_of plan.now) }
    requires few { tree_labels (count_at tree.counts.now) tree.root (forest_of tree.below.now) ≤ 65536 }
    ensures { IfOk result (λ tables. tables.items
        ≡ map (switch_table plan.now tree.entry.root (forest_of tree.entry.below.now))
        (range_with_len 0 (length plan.now.switches))) }
{
    let mut tables = Vec::new(alloc);
    for switch in 0..plan.switches().len() {
        tables.push(switch_table(alloc, plan, tree, switch)?)?;
    }
    Ok(tables)
}

/// The table of a switch.
fn switch_table(
    alloc: Global,
    plan: &Plan,
    tree: Tree<'_>,
    switch: usize,
) -> Result<Table, AllocError>
    requires kept { IsPlan plan.now }
    requires tree { IsSpanning plan.now tree.root (forest_of tree.below.now) }
    requires counts { count_at tree.counts.now ≡ own_labels (net_of plan.now) }
    requires few { tree_labels (count_at tree.counts.now) tree.root (forest_of tree.below.now) ≤ 65536 }
    requires inside { switch < length plan.now.switches }
    ensures { IfOk result (λ table. table
        ≡ switch_table plan.now tree.entry.root (forest_of tree.entry.below.now) switch) }
{
    let Some(place) = place_of(tree.counts, tree.root, tree.below, switch) else {
        unreachable!()
    };
    let total = count_at(tree.counts, tree.root) + forest_labels(tree.counts, tree.below);
    let rows = tree_rows(alloc, plan, tree.counts, total, switch, place)?;
    Ok(table_of(rows.as_slice()))
}

/// The rows of a switch that stands in its tree so: the labels before those of its subtree, its own, those of
/// the subtrees below it, and those past them.
fn tree_rows(
    alloc: Global,
    plan: &Plan,
    counts: &[u32],
    total: u32,
    switch: usize,
    at: Place<'_>,
) -> Result<Vec<Row>, AllocError>
    requires counts { count_at counts.now ≡ own_labels (net_of plan.now) }
    requires up { at.up < 32 }
    requires links { AreLinks (forest_of at.below.now) }
    requires room { place_end (count_at counts.now) switch (place at.up at.first (forest_of at.below.now)) ≤ total }
    requires few { total ≤ 65536 }
    ensures { IfOk result (λ rows. rows.items ≡ tree_rows (net_of plan.now) total switch
        (place at.entry.up at.entry.first (forest_of at.entry.below.now))) }
{
    let mut rows = Vec::new(alloc);
    add_row(&mut rows, at.first, at.up as u8)?;
    let mut end = at.first;
    for link in 0..LINKS {
        end += labels_behind(plan, switch, link);
        add_row(&mut rows, end, link as u8)?;
    }
    add_children(&mut rows, counts, end, at.below)?;
    add_row(&mut rows, total, at.up as u8)?;
    Ok(rows)
}

/// Adds the rows of subtrees whose labels begin at this one.
fn add_children(
    rows: &mut Vec<Row>,
    counts: &[u32],
    first: u32,
    forest: &Forest,
) -> Result<(), AllocError>
    requires links { AreLinks (forest_of forest.now) }
    requires room { first + forest_labels (count_at counts.now) (forest_of forest.now) ≤ 65536 }
    ensures { IfOk result (λ _. rows.new.items ≡ with_rows rows.old.items
        (rows_from first (child_pieces (count_at counts.now) (forest_of forest.now)))) }
{
    match forest {
        Forest::Empty => Ok(()),
        Forest::Child(link, switch, _, below, rest) => {
            let labels = count_at(counts, *switch) + forest_labels(counts, below.as_ref());
            let end = first + labels;
            add_row(rows, end, *link as u8)?;
            add_children(rows, counts, end, rest.as_ref())
        }
    }
}

/// The range of each terminal.
fn tree_ranges(alloc: Global, plan: &Plan, tree: Tree<'_>) -> Result<Vec<(u32, u32)>, AllocError>
    requires counts { count_at tree.counts.now ≡ own_labels (net_of plan.now) }
    requires few { tree_labels (count_at tree.counts.now) tree.root (forest_of tree.below.now) ≤ 65536 }
    ensures { IfOk result (λ ranges. ranges.items
        ≡ map (tree_range plan.now tree.entry.root (forest_of tree.entry.below.now)) plan.now.terminals) }
{
    let mut ranges = Vec::new(alloc);
    for terminal in plan.terminals() {
        let first = first_label(plan, tree, terminal.switch, terminal.link);
        ranges.push((first, terminal.count))?;
    }
    Ok(ranges)
}

/// The first label of a terminal on this link of a switch.
fn first_label(plan: &Plan, tree: Tree<'_>, switch: usize, link: usize) -> u32
    requires counts { count_at tree.counts.now ≡ own_labels (net_of plan.now) }
    requires few { tree_labels (count_at tree.counts.now) tree.root (forest_of tree.below.now) ≤ 65536 }
    requires link { link ≤ 32 }
    ensures { result ≡ first_at (net_of plan.now) switch link
        (switch_place plan.now tree.entry.root (forest_of tree.entry.below.now) switch) }
{
    match place_of(tree.counts, tree.root, tree.below, switch) {
        Some(place) => place.first + labels_before(plan, switch, link),
        None => 0,
    }
}
