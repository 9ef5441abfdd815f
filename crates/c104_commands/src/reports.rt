//! What people are told of labels by which packets go up and then down.

use c104_label::{UpDownReport, UpDownWay, Visit};
use c104_mistakes::{About, Messages};
use c104_plan::Plan;
use c104_setup::Setup;
use std::alloc::{AllocError, Global};

/// Tells people which labels were made, if packets go up and then down by them, where there is memory for it.
pub(crate) fn tell_labels<M: Messages>(alloc: Global, setup: &Setup, messages: &mut M) {
    let Some(report) = setup.report else {
        return;
    };
    if !messages.are_wanted() {
        return;
    }
    if let Ok(text) = ways_text(alloc, &setup.plan, report) {
        messages.tell(About::Description, text.as_str());
    }
    if let Ok(text) = load_text(alloc, report) {
        messages.tell(About::Description, text.as_str());
    }
}

/// From which root labels are made, and over which ways they go.
fn ways_text(alloc: Global, plan: &Plan, report: UpDownReport) -> Result<String, AllocError> {
    let root = plan.switch_name(report.root);
    let visit = match report.visit {
        Visit::DepthFirst => "depth first",
        Visit::BreadthFirst => "breadth first",
    };
    let ways = match report.way {
        UpDownWay::Form => "by the ways of the network's form",
        UpDownWay::Shortest => "up and then down by the shortest ways",
        UpDownWay::Any => "up and then down by ways of which some aren't the shortest",
        UpDownWay::Tree => "up and then down by the wires of the tree alone",
    };
    format!(in alloc; "labelled from {root}, {visit}: packets go {ways}")
}

/// What the labels come to.
fn load_text(alloc: Global, report: UpDownReport) -> Result<String, AllocError> {
    let whole = report.load.hops / 1000;
    let tenths = report.load.hops / 100 % 10;
    let hundredths = report.load.hops / 10 % 10;
    let most = report.load.most;
    let rows = report.load.rows;
    format!(in alloc;
        "on average over {whole}.{tenths}{hundredths} wires; if each terminal sends a packet to each other, at most {most} \
         go over a link; at most {rows} rows"
    )
}
