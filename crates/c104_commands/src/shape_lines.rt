//! The line of a network's shape, which stands before a description by `row` lines.
ghost use Rattle.std.specs.{Prelude.{IfOk, Ok, length, ◌++◌, ◌≡◌, ◌≤◌}, String.string_bytes};
ghost use Rattle.{c104_commands.specs.{LabelRows.IsShapedText, ShapeLines.{IsTaken, shape_line}}, c104_describe.specs.PlanPrint.plan_text};
ghost use Rattle.{c104_describe.specs.PlanText.read_description, c104_plan.specs.{Plans.IsPlan, TextCut.most_bytes}};

use c104_describe::print_plan;
use c104_label::UpDownReport;
use c104_plan::{Plan, Shape};
use c104_token::NoMemory;
use std::alloc::{AllocError, Global};

/// The description of a plan behind the line of the shape of the plan whose labels it has: a comment, so that what is read
/// is the description. Where packets go up and down, the line names the root from which labels were made, if that is told.
/// The only error is out of memory.
pub(crate) fn shaped_text(
    alloc: Global,
    plan: &Plan,
    report: Option<UpDownReport>,
    rows: &Plan,
) -> Result<String, NoMemory>
    ensures { IfOk result (λ text. IsShapedText plan.now rows.now (string_bytes text)) }
{
    text_behind(alloc, plan, taken_shape(plan, report), rows)
}

/// The same behind the line of this shape.
#[tactic(auto, using(crate::proofs::CommentLines::shaped_read))]
fn text_behind(alloc: Global, plan: &Plan, taken: Shape, rows: &Plan) -> Result<String, NoMemory>
    requires taken { IsTaken plan.now.shape taken }
    requires kept { IsPlan plan.now }
    ensures text { IfOk result (λ text. string_bytes text ≡ shape_line plan.now taken ++ plan_text rows.now) }
    ensures read_back { IfOk result (λ text. length (string_bytes text) ≤ most_bytes →
        read_description (string_bytes text) ≡ Ok rows.now) }
{
    let mut text = shape_line(alloc, plan, taken)?;
    let own = print_plan(alloc, rows)?;
    text.push_str(own.as_str())?;
    Ok(text)
}

/// The shape by which a plan's network was labelled, from the root that is told.
fn taken_shape(plan: &Plan, report: Option<UpDownReport>) -> Shape
    ensures taken { IsTaken plan.now.shape result }
    ensures kept { IsPlan plan.now }
{
    match (plan.shape(), report) {
        (Shape::UpDown(_), Some(report)) => Shape::UpDown(Some(report.root)),
        (shape, _) => shape,
    }
}

/// The line of a shape.
fn shape_line(alloc: Global, plan: &Plan, taken: Shape) -> Result<String, AllocError>
    ensures { IfOk result (λ text. string_bytes text ≡ shape_line plan.now taken) }
{
    match taken {
        Shape::Hand => format!(in alloc; "# shape hand\n"),
        Shape::Tree(root) => {
            let name = plan.switch_name(root);
            format!(in alloc; "# shape tree {name}\n")
        }
        Shape::UpDown(None) => format!(in alloc; "# shape up-down\n"),
        Shape::UpDown(Some(root)) => {
            let name = plan.switch_name(root);
            format!(in alloc; "# shape up-down {name}\n")
        }
        Shape::Mesh(width, height, terminals) => {
            let line = format!(in alloc; "# shape mesh {width} {height} {terminals}\n")?;
            Ok(line)
        }
        Shape::Cube(dimensions, terminals) => {
            let line = format!(in alloc; "# shape cube {dimensions} {terminals}\n")?;
            Ok(line)
        }
    }
}
