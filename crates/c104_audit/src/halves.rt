//! What acts send over a wire, and whether two entries are the halves of one event.
ghost use Rattle.std.specs.Prelude.{IsTrue, Some, ◌↔◌, ◌≡◌};
ghost use Rattle.c104_audit.specs.{Audits.{AreHalves, carried_in, carried_out, is_of_kind}, declared.carried.Carried.Carried as TheCarried};
ghost use Rattle.c104_node.specs.ActLinks.{act_link};

use crate::carried::Carried;
use c104_node::{Act, Entry};
use c104_switch::{ActionOf, Reply};

/// Whether an act is one of a switch, or else of a terminal.
pub fn is_of_kind(on_switch: bool, act: &Act) -> bool
    ensures { result ≡ is_of_kind on_switch act.now }
{
    match act {
        Act::Step(_) => on_switch,
        _ => !on_switch,
    }
}

/// The link that an act goes over, if it goes over one. A terminal's one link is 0.
pub fn link_of(act: &Act) -> Option<usize>
    ensures { result ≡ act_link act.now }
{
    match act {
        Act::Step(ActionOf::Enter(link, _)) => Some(*link),
        Act::Step(ActionOf::Leave(link)) => Some(*link),
        Act::Step(ActionOf::CreditOut(link)) => Some(*link),
        Act::Step(ActionOf::CreditIn(link)) => Some(*link),
        Act::Leave | Act::Enter(_) | Act::CreditOut | Act::CreditIn => Some(0),
        _ => None,
    }
}

/// What an act lets out that was answered so.
fn carried_out(act: &Act, reply: &Reply) -> Option<Carried>
    ensures { result ≡ carried_out act.now reply.now }
{
    match act {
        Act::Step(ActionOf::Leave(_)) | Act::Leave => match reply {
            Reply::Token(token) => Some(Carried::Token(*token)),
            _ => None,
        },
        Act::Step(ActionOf::CreditOut(_)) | Act::CreditOut => Some(Carried::Grant),
        _ => None,
    }
}

/// What an act takes in.
fn carried_in(act: &Act) -> Option<Carried>
    ensures { result ≡ carried_in act.now }
{
    match act {
        Act::Step(ActionOf::Enter(_, token)) => Some(Carried::Token(*token)),
        Act::Enter(token) => Some(Carried::Token(*token)),
        Act::Step(ActionOf::CreditIn(_)) | Act::CreditIn => Some(Carried::Grant),
        _ => None,
    }
}

/// Whether what is let out is what is taken in.
fn is_passed(out: Option<Carried>, taken: Option<Carried>) -> bool
    ensures { IsTrue result ↔ ((c : TheCarried) × (out ≡ Some c) × (taken ≡ Some c)) }
{
    match (out, taken) {
        (Some(Carried::Token(out)), Some(Carried::Token(taken))) => out == taken,
        (Some(Carried::Grant), Some(Carried::Grant)) => true,
        _ => false,
    }
}

/// Whether two entries are the halves of one event.
pub fn are_halves(one: &Entry, other: &Entry) -> bool
    ensures { IsTrue result ↔ AreHalves one.now other.now }
{
    one.ticket == other.ticket
        && (is_passed(carried_out(&one.act, &one.reply), carried_in(&other.act))
            || is_passed(carried_out(&other.act, &other.reply), carried_in(&one.act)))
}
