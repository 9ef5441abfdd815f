//! What a check of labels prints, whatever made them.
ghost use Rattle.std.specs.{Prelude.{IfOk, ◌≡◌}, String.string_bytes};
ghost use Rattle.{c104_check.specs.Routes.{IsAccepted, routes_of}, c104_commands.specs.{CheckTexts.accepted_text, Checks.TellsCheck}};
ghost use Rattle.c104_plan.specs.PlanImage.{Fits};

use crate::advice::{refusal_sentences, waiting_sentences};
use crate::label_rows::Shown;
use crate::texts::check_fault_text;
use c104_check::{CheckFault, check};
use c104_mistakes::{About, Messages, tell_lines};
use c104_plan::{Image, Plan};
use c104_token::NoMemory;
use std::alloc::{AllocError, Global};

/// Checks the labels of an image for a plan, which it fits: the line `accepted`, or that of the first fault, and whether
/// that refuses them. People are told where a header goes wrong, or whether there is a cycle of channel dependencies. The only
/// error is out of memory.
pub fn checked_text<M: Messages>(
    alloc: Global,
    plan: &Plan,
    image: &Image,
    messages: &mut M,
) -> Result<Shown, NoMemory>
    requires { Fits image.now plan.now }
    ensures { IfOk result (λ shown. TellsCheck plan.now image.now (string_bytes shown.text) shown.refused) }
{
    match check(alloc, plan, image) {
        Ok(_) => {
            let text = accepted_text(alloc)?;
            tell_waiting(alloc, plan, image, messages);
            Ok(Shown {
                text,
                refused: false,
            })
        }
        Err(CheckFault::NoMemory) => Err(NoMemory),
        Err(fault) => {
            let text = check_fault_text(alloc, plan, &fault)?;
            tell_refusal(alloc, plan, image, &fault, messages);
            Ok(Shown {
                text,
                refused: true,
            })
        }
    }
}

/// The line of labels that are accepted.
fn accepted_text(alloc: Global) -> Result<String, AllocError>
    ensures { IfOk result (λ text. string_bytes text ≡ accepted_text) }
{
    format!(in alloc; "accepted\n")
}

/// Tells people whether packets can wait for one another forever, where there is memory for it.
fn tell_waiting<M: Messages>(alloc: Global, plan: &Plan, image: &Image, messages: &mut M)
    requires fits { Fits image.now plan.now }
    requires accepted { IsAccepted (routes_of plan.now image.now) }
{
    if !messages.are_wanted() {
        return;
    }
    let Ok(text) = waiting_sentences(alloc, plan, image) else {
        return;
    };
    tell_lines(About::Description, text.as_str(), messages);
}

/// Tells people where a header goes wrong, where there is memory for it.
pub(crate) fn tell_refusal<M: Messages>(
    alloc: Global,
    plan: &Plan,
    image: &Image,
    fault: &CheckFault,
    messages: &mut M,
)
    requires { Fits image.now plan.now }
{
    if !messages.are_wanted() {
        return;
    }
    let Ok(text) = refusal_sentences(alloc, plan, image, fault) else {
        return;
    };
    tell_lines(About::Description, text.as_str(), messages);
}
