//! The theorem about packets, cited as a caller of `run` does.
//!
//! Each of its premises comes from a call here: that the labels of a description are accepted, that no link puts random
//! headers before packets, and that no line of a script is a control command or asks the debugger for anything. Then the
//! contract of `run` says of what it has printed which packets of the script these are.
ghost use Rattle.std.specs.Prelude.{IfOk, None, Ok, Some, [], length, map, true, ◌≡◌, ◌≤◌};
ghost use Rattle.c104_check.specs.{ChannelDependencies.IsNeverRandomized, Routes.routes_of};
ghost use Rattle.{c104_describe.specs.PlanText.read_description, c104_label.specs.Images.IsImageOf, c104_plan.specs.PlanImage.Fits};
ghost use Rattle.{c104_plan.specs.{Plans.IsPlan, TextCut.lines}, c104_script.specs.Script.read_script_line};
ghost use Rattle.{c104_session.specs.{PrintedRuns.PrintsPacketsOf, RunCommands.DescriptionEnds}, c104_stream.specs.ScriptLines.most_script};
ghost use Rattle.c104_tests_top.specs.PrintedTexts.{AreCalm, IsCalm, IsPrinted};
ghost use Rattle.c104_plan.specs.declared.plans.Shape.TheVariants as shape;
ghost use Rattle.c104_setup.specs.declared.status.Status.TheVariants as status;

use crate::commands::{ANSWERS, DESCRIPTION, SCRIPT, SUMMARY};
use c104_check::check;
use c104_describe::read_description;
use c104_event::Event;
use c104_label::image_of;
use c104_mistakes::Silent;
use c104_plan::{Image, Plan, Shape, cut_lines};
use c104_script::{Request, read_line};
use c104_session::run;
use c104_setup::Status;
use c104_stream::MAX_SCRIPT;
use c104_token::NoMemory;
use std::alloc::Global;
use std::test::Fail;

/// The network and the script of `examples/first-network.txt`, without its comments: the premises are met, and behind the
/// answers stands the line of the packet that was sent.
#[test]
fn of_the_first_network(rt: HostRuntime) -> Result<(), Fail> {
    let due = format!(in rt.alloc(); "{ANSWERS}{SUMMARY}")?;
    assert!(rt;
        prints(
            rt.alloc(),
            DESCRIPTION.as_bytes(),
            SCRIPT.as_bytes(),
            due.as_bytes(),
        )?
    );
    Ok(())
}

/// Whether a run prints this. The texts are arguments, since the prover would compute with literal ones.
fn prints(alloc: Global, description: &[u8], script: &[u8], due: &[u8]) -> Result<bool, Fail> {
    let text = printed(alloc, description, script)?;
    Ok(text.as_slice() == due)
}

/// What a run prints of a description and a script, by the theorem.
fn printed(alloc: Global, description: &[u8], script: &[u8]) -> Result<Vec<u8>, Fail>
    ensures { IfOk result (λ text. IsPrinted description.now script.now text.items) }
{
    let plan = read_description(alloc, description)?;
    let text = printed_on(alloc, &plan, description, script);
    drop_plan(plan);
    text
}

/// Drops a plan. A function of its own, so that all that a plan owns is dropped in one place.
pub fn drop_plan(_plan: Plan) {}

/// The same, where this plan was described.
fn printed_on(
    alloc: Global,
    plan: &Plan,
    description: &[u8],
    script: &[u8],
) -> Result<Vec<u8>, Fail>
    requires { read_description description.now ≡ Ok plan.now }
    ensures { IfOk result (λ text. IsPrinted description.now script.now text.items) }
{
    if !is_plain(plan) {
        return Err("random headers, or labels by a shape".into());
    }
    let image = image_of(alloc, plan)?;
    if !is_calm(alloc, plan, &image, script)? {
        return Err("a script that isn't calm".into());
    }
    let text = where_calm(alloc, plan, &image, description, script)?;
    Ok(text)
}

/// The same with the plan's own image, if its labels are accepted.
#[tactic(auto, using(crate::proofs::CalmRuns::unchanged_run, crate::proofs::CalmRuns::is_printed))]
fn where_calm(
    alloc: Global,
    plan: &Plan,
    image: &Image,
    description: &[u8],
    script: &[u8],
) -> Result<Vec<u8>, Fail>
    requires described { read_description description.now ≡ Ok plan.now }
    requires kept { IsPlan plan.now }
    requires own { plan.now.shape ≡ shape.Hand }
    requires image { IsImageOf plan.now image.now }
    requires fits { Fits image.now plan.now }
    requires plain { IsNeverRandomized (routes_of plan.now image.now) }
    requires short { length script.now ≤ most_script }
    requires calm { AreCalm plan.now image.now (lines script.now) }
    ensures { IfOk result (λ text. IsPrinted description.now script.now text.items) }
{
    check(alloc, plan, image)?;
    let text = ran(alloc, description, script)?;
    Ok(text)
}

/// What a run prints that ends well.
fn ran(alloc: Global, description: &[u8], script: &[u8]) -> Result<Vec<u8>, Fail>
    ensures ends { IfOk result (λ text. DescriptionEnds (read_description description.now) script.now
        None (Some []) (Some text.items) status.Done) }
    ensures packets { PrintsPacketsOf description.now script.now }
{
    let mut description = description;
    let mut script = script;
    let mut text = Vec::new(alloc);
    match run(alloc, &mut description, &mut script, &mut text, &mut Silent) {
        Status::Done => Ok(text),
        _ => Err("the run was refused, or stopped".into()),
    }
}

/// Whether a plan's own lines set its tables, and none gives random headers.
fn is_plain(plan: &Plan) -> bool
    ensures plain { result ≡ true → plan.now.randoms ≡ [] }
    ensures own { result ≡ true → plan.now.shape ≡ shape.Hand }
    ensures kept { IsPlan plan.now }
{
    plan.randoms().is_empty() && plan.shape() == Shape::Hand
}

/// Whether a script is no longer than it may be, and each of its lines is calm.
fn is_calm(alloc: Global, plan: &Plan, image: &Image, script: &[u8]) -> Result<bool, NoMemory>
    ensures short { IfOk result (λ calm. calm ≡ true → length script.now ≤ most_script) }
    ensures calm { IfOk result (λ calm. calm ≡ true → AreCalm plan.now image.now (lines script.now)) }
{
    if script.len() > MAX_SCRIPT {
        return Ok(false);
    }
    let lines = cut_lines(alloc, script)?;
    Ok(are_calm(alloc, plan, image, lines.as_slice()))
}

/// Whether each of these lines is calm.
fn are_calm(alloc: Global, plan: &Plan, image: &Image, lines: &[&[u8]]) -> bool
    ensures { result ≡ true → AreCalm plan.now image.now (map (λ line. line.now) lines.now) }
{
    for line in lines {
        if !is_calm_line(alloc, plan, image, line) {
            return false;
        }
    }
    true
}

/// Whether a line is no control command, and asks the debugger for nothing.
fn is_calm_line(alloc: Global, plan: &Plan, image: &Image, line: &[u8]) -> bool
    ensures { result ≡ true → IsCalm (read_script_line plan.now image.now line.now) }
{
    match read_line(alloc, plan, image, line) {
        Ok(Some(request)) => is_calm_request(&request),
        Ok(None) => true,
        Err(_) => false,
    }
}

/// The same of what a line asks.
fn is_calm_request(request: &Request) -> bool
    ensures { result ≡ true → IsCalm (Ok (Some request.now)) }
{
    match request {
        Request::Asked(Event::Control { .. }) | Request::Probed(_) => false,
        Request::Asked(_) | Request::Rounds { .. } | Request::Settle | Request::Refused(_) => true,
    }
}
