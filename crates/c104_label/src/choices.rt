//! The root by which labels that go up and then down load links least.
//!
//! Each switch is tried as the root, with each order in which switches may be visited from it. Nothing is proved of the
//! choice but that it is one of the plan's switches.
ghost use Rattle.std.specs.Prelude.{IfOk, length, ◌<◌};
ghost use Rattle.{c104_label.specs.Images.IsRootOf, c104_plan.specs.Plans.IsNamedIn};

use crate::exits::Plot;
use crate::fabric::Fabric;
use crate::faults::LabelFault;
use crate::forests::{Forest, spanning_tree};
use crate::loads::{Load, Tables, load_of};
use crate::numbers::label_sum;
use crate::orders::{Choice, Visit};
use crate::port_tables::port_tables;
use crate::trees::most_labels;
use crate::watch::RootWatch;
use c104_plan::Plan;
use c104_token::NoMemory;
use std::alloc::{AllocError, Global};

/// A choice, and what it comes to.
#[derive(Clone, Copy)]
struct Candidate {
    choice: Choice,
    load: Load,
}

/// The root that is named, with the depth-first visit, or the best choice where none is.
pub(crate) fn choice_of<T: RootWatch>(
    alloc: Global,
    plan: &Plan,
    named: Option<usize>,
    watch: &mut T,
) -> Result<Choice, NoMemory>
    requires some { 0 < length plan.now.switches }
    requires named { IsNamedIn (length plan.now.switches) named }
    ensures { IfOk result (λ choice. IsRootOf plan.now named choice.root) }
{
    match named {
        Some(root) => Ok(Choice {
            root,
            visit: Visit::DepthFirst,
        }),
        None => {
            let best = best_choice(alloc, plan, watch)?;
            Ok(inside(best, plan))
        }
    }
}

/// A choice, or the first switch, where its root is no switch of the plan.
fn inside(choice: Choice, plan: &Plan) -> Choice
    requires { 0 < length plan.now.switches }
    ensures { result.root < length plan.now.switches }
{
    if choice.root < plan.switches().len() {
        choice
    } else {
        Choice {
            root: 0,
            visit: Visit::DepthFirst,
        }
    }
}

/// The best choice, and the first switch where labels can't be made from any.
fn best_choice<T: RootWatch>(
    alloc: Global,
    plan: &Plan,
    watch: &mut T,
) -> Result<Choice, NoMemory> {
    let mut best = None;
    if label_sum(plan) <= most_labels(plan) {
        let fabric = Fabric::new(alloc, plan)?;
        let count = plan.switches().len();
        for root in 0..count {
            watch.roots_tried(root, count);
            try_root(alloc, plan, &fabric, root, &mut best)?;
        }
    }
    let first = Choice {
        root: 0,
        visit: Visit::DepthFirst,
    };
    Ok(chosen(best, first))
}

/// The choice of a candidate, or another where there is none.
fn chosen(best: Option<Candidate>, other: Choice) -> Choice {
    match best {
        Some(candidate) => candidate.choice,
        None => other,
    }
}

/// Tries a switch as the root.
fn try_root(
    alloc: Global,
    plan: &Plan,
    fabric: &Fabric,
    root: usize,
    best: &mut Option<Candidate>,
) -> Result<(), NoMemory>
    requires { root < length plan.now.switches }
{
    match spanning_tree(alloc, plan, root) {
        Ok(forest) => try_visits(alloc, plan, fabric, root, &forest, best),
        Err(LabelFault::NoMemory) => Err(NoMemory),
        Err(_) => Ok(()),
    }
}

/// Tries each visit from a root.
fn try_visits(
    alloc: Global,
    plan: &Plan,
    fabric: &Fabric,
    root: usize,
    forest: &Forest,
    best: &mut Option<Candidate>,
) -> Result<(), NoMemory> {
    for visit in [Visit::DepthFirst, Visit::BreadthFirst] {
        let choice = Choice { root, visit };
        if let Some(load) = choice_load(alloc, plan, fabric, choice, forest)? {
            consider(best, Candidate { choice, load });
        }
    }
    Ok(())
}

/// Takes a candidate, where it is better than the best so far.
fn consider(best: &mut Option<Candidate>, candidate: Candidate) {
    let is_better = match best {
        Some(best) => is_lighter(candidate.load, best.load),
        None => true,
    };
    if is_better {
        *best = Some(candidate);
    }
}

/// Whether over the link over which most packets go fewer go than by other labels, or as many by shorter ways.
fn is_lighter(load: Load, other: Load) -> bool {
    load.most < other.most || (load.most == other.most && load.hops < other.hops)
}

/// What the labels of a choice come to. None where its ways need more rows than a table has.
fn choice_load(
    alloc: Global,
    plan: &Plan,
    fabric: &Fabric,
    choice: Choice,
    forest: &Forest,
) -> Result<Option<Load>, AllocError> {
    let plot = Plot::new(alloc, fabric, choice, forest)?;
    let Some(made) = port_tables(alloc, plan, fabric, &plot)? else {
        return Ok(None);
    };
    let load = load_of(
        alloc,
        Tables {
            fabric,
            order: plot.ways.order(),
            visit: plot.visit.as_slice(),
            tables: made.tables.as_slice(),
            continues: plot.continues.as_slice(),
        },
    )?;
    Ok(Some(load))
}
