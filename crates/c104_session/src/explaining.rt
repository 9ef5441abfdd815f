//! Messages about the lines of a script, and answers to what a person asks among them.
//!
//! A question stands in the comment of a line, and is answered behind that line where standard input and standard error are
//! terminals; so it changes no answer. Elsewhere it is a comment as any other.

use crate::refusals::ends_run;
use crate::session::Session;
use crate::tally::Tally;
use crate::telling::Telling;
use c104_event::EventFault;
use c104_explain::{question_in, question_message, reason_message, standstill_message};
use c104_mistakes::{
    About, Messages, command_message, fault_message, is_refusal, owner_message, refusal_message,
    register_message,
};
use c104_script::{Answer, Finding, Request, Settled, read_line};
use c104_switch::Reply;
use std::alloc::Global;

/// What is told about a line that was answered so, or else what answers the question in its comment where a person types it.
/// None where there is nothing to tell, and out of memory. What was done joins the tally.
pub(crate) fn line_message<M: Messages>(
    alloc: Global,
    session: &Session,
    number: usize,
    line: &[u8],
    answer: &Option<Answer>,
    telling: &mut Telling<'_, M>,
) -> Option<(About, String)> {
    let Some(answer) = answer else {
        return message_of_question(alloc, session, line, telling);
    };
    telling.tally.note_line();
    if let Answer::Faulty(fault) = answer {
        let message = fault_message(alloc, line, *fault, telling.messages.are_asked())?;
        return Some((About::FaultyLine(number), message));
    }
    let rounds = telling.rounds();
    match message_of_answer(alloc, session, line, answer, rounds, &mut telling.tally) {
        Some(message) => Some((About::ScriptLine(number), message)),
        None => message_of_question(alloc, session, line, telling),
    }
}

/// What is told about the line that ends a run in this round, by what is full: that is told even where none are wanted. None
/// behind it, and out of memory.
pub(crate) fn end_message<M: Messages>(
    alloc: Global,
    session: &Session,
    number: usize,
    line: &[u8],
    answer: &Option<Answer>,
    round: u32,
    telling: &mut Telling<'_, M>,
) -> Option<(About, String)> {
    let Some(Answer::Refused(fault)) = answer else {
        return None;
    };
    telling.tally.note_line();
    let why = refusal_message(alloc, session.net.plan(), line, *fault)?;
    let message = format!(in alloc; "{why}; so the run ends here, in round {round}").ok()?;
    Some((About::ScriptLine(number), message))
}

/// What is told about a line that isn't faulty and was answered so, of which `rounds` rounds changed something.
fn message_of_answer(
    alloc: Global,
    session: &Session,
    line: &[u8],
    answer: &Answer,
    rounds: u32,
    tally: &mut Tally,
) -> Option<String> {
    match answer {
        Answer::Refused(fault) => refused_message(alloc, session, line, *fault, tally),
        Answer::Found(Finding::Refused(fault)) => register_message(alloc, line, *fault),
        Answer::Found(Finding::Link { owner, .. }) => owner_message(alloc, line, *owner),
        Answer::Replied(Reply::NotReady) => unready_message(alloc, session, line),
        Answer::Replied(Reply::Control(reply)) if is_refusal(reply.as_slice()) => {
            command_message(alloc, line, reply.as_slice())
        }
        Answer::Replied(Reply::Done | Reply::Control(_)) => {
            message_of_done(alloc, session, line, rounds, tally)
        }
        Answer::Settled(Settled::StandsStill(_)) => {
            standstill_message(alloc, &session.net, tally.sent())
        }
        Answer::Settled(Settled::Done(_) | Settled::Moving(_)) => None,
        Answer::Found(_) | Answer::Replied(Reply::Token(_)) | Answer::Faulty(_) => None,
    }
}

/// Why a line was refused. That a trace is full, or an inbox, is told of the first line that is refused for it.
fn refused_message(
    alloc: Global,
    session: &Session,
    line: &[u8],
    fault: EventFault,
    tally: &mut Tally,
) -> Option<String> {
    if ends_run(fault) && !tally.note_full(fault) {
        return None;
    }
    let why = refusal_message(alloc, session.net.plan(), line, fault)?;
    if !ends_run(fault) {
        return Some(why);
    }
    format!(in alloc; "{why}; this is told once").ok()
}

/// Why what a line asks isn't ready. Where that was its answer, the network is as it was when the line came. None
/// where the line asks nothing, or what it asks is ready or refused, and out of memory.
fn unready_message(alloc: Global, session: &Session, line: &[u8]) -> Option<String> {
    let plan = session.net.plan();
    let Ok(Some(Request::Asked(event))) = read_line(alloc, plan, &session.image, line) else {
        return None;
    };
    let reason = session.net.why(&event)?;
    reason_message(alloc, plan, reason)
}

/// What is told about a line that was done, of which `rounds` rounds changed something: that the network stands still,
/// where the line asks for more rounds than these and tokens are left. Else what it did joins the tally.
fn message_of_done(
    alloc: Global,
    session: &Session,
    line: &[u8],
    rounds: u32,
    tally: &mut Tally,
) -> Option<String> {
    match read_line(alloc, session.net.plan(), &session.image, line) {
        Ok(Some(Request::Rounds { count, .. })) if rounds < count && !session.net.quiet() => {
            standstill_message(alloc, &session.net, tally.sent())
        }
        Ok(Some(Request::Asked(event))) => {
            tally.note(&event);
            None
        }
        Ok(_) => None,
        Err(_) => {
            tally.forget();
            None
        }
    }
}

/// What answers a question in the comment of a line, where a person types it.
fn message_of_question<M: Messages>(
    alloc: Global,
    session: &Session,
    line: &[u8],
    telling: &mut Telling<'_, M>,
) -> Option<(About, String)> {
    if !telling.messages.are_asked() {
        return None;
    }
    let question = question_in(line)?;
    telling.tally.note_line();
    let message = question_message(alloc, &session.net, question)?;
    Some((About::Question, message))
}
