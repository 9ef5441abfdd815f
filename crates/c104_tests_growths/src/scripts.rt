//! Scripts: their lines, answers and sessions.
ghost use Rattle.c104_plan.specs.PlanImage.{Fits};

use crate::calls::{PLAN, label_image};
use crate::ground::{Ground, Suite, is_right_on};
use crate::growths::{Growing, Refusal, is_right};
use crate::outcomes::Outcome;
use crate::written::{ANSWERS, Page, SCRIPT, SUMMARY};
use c104_mistakes::Silent;
use c104_plan::{Image, Plan};
use c104_script::{Answer, add_answer, read_line};
use c104_session::{Ended, EndedNet, Session, answer_script, do_script, run_plan, summary_lines};
use c104_stream::{Ahead, Halt};
use c104_switch::Reply;
use c104_token::NoMemory;
use std::alloc::Global;

/// A line that sends a packet, by its bytes.
const SENT: &[u8] = b"send a 01 aa bb cc dd ee ff eop";

/// A line that sends a packet to a terminal.
const TO_B: &[u8] = b"send a to b \"hello to\" length 5 ff eop";

/// A line is read.
#[derive(Drop)]
struct ReadingLine<'a>(&'a Plan, &'a Image, &'static [u8]);

impl Growing for ReadingLine<'_> {
    fn call(&self, alloc: Global, refusal: Refusal) -> Outcome {
        refusal.begin(alloc);
        let result = read_line(alloc, self.0, self.1, self.2);
        refusal.end(alloc);
        match result {
            Ok(_) => Outcome::Done,
            Err(fault) => Outcome::of_fault(&fault),
        }
    }
}

/// An answer joins a text. Out of memory the text is empty.
#[derive(Drop)]
struct Adding;

impl Growing for Adding {
    fn call(&self, alloc: Global, refusal: Refusal) -> Outcome {
        let mut text = Vec::new(alloc);
        if text.extend_from_slice(b"1: done\n").is_err() {
            return Outcome::Wrong;
        }
        refusal.begin(alloc);
        let result = add_answer(2, &Answer::Replied(Reply::Done), &mut text);
        refusal.end(alloc);
        Outcome::of(result).if_kept(text.is_empty())
    }
}

/// A session on the network of a plan.
fn session_of(alloc: Global, plan: &Plan) -> Option<Session> {
    let image = label_image(alloc, plan)?;
    if !image.fits(plan) {
        return None;
    }
    Session::new(alloc, plan, image).ok()
}

/// A session begins.
#[derive(Drop)]
struct Beginning<'a>(&'a Plan);

impl Growing for Beginning<'_> {
    fn call(&self, alloc: Global, refusal: Refusal) -> Outcome {
        let Some(image) = label_image(alloc, self.0) else {
            return Outcome::Wrong;
        };
        if !image.fits(self.0) {
            return Outcome::Wrong;
        }
        refusal.begin(alloc);
        let result = Session::new(alloc, self.0, image);
        refusal.end(alloc);
        match result {
            Ok(session) => {
                session.finish().retire();
                Outcome::Done
            }
            Err(fault) => Outcome::of_fault(&fault),
        }
    }
}

/// A session answers a line. Where it is refused, the same line is answered then.
#[derive(Drop)]
struct Answering<'a>(&'a Plan, &'static [u8]);

impl Growing for Answering<'_> {
    fn call(&self, alloc: Global, refusal: Refusal) -> Outcome {
        let Some(mut session) = session_of(alloc, self.0) else {
            return Outcome::Wrong;
        };
        refusal.begin(alloc);
        let result = session.answer(alloc, self.1);
        refusal.end(alloc);
        let found = match came_to(result) {
            Outcome::NoMemory => {
                let then = came_to(session.answer(alloc, self.1));
                Outcome::NoMemory.if_kept(then == Outcome::Done)
            }
            found => found,
        };
        session.finish().retire();
        found
    }
}

/// What a line came to that is to be done.
fn came_to(answer: Result<Option<Answer>, NoMemory>) -> Outcome {
    match answer {
        Ok(Some(told)) => Outcome::done_if(is_done(&told)),
        Ok(None) => Outcome::Wrong,
        Err(fault) => Outcome::of_fault(&fault),
    }
}

fn is_done(answer: &Answer) -> bool {
    match answer {
        Answer::Replied(reply) => *reply == Reply::Done,
        _ => false,
    }
}

/// A session answers a script. Out of memory the answers to its first lines were written, each of them whole.
#[derive(Drop)]
struct AnsweringScript<'a>(&'a Plan);

impl Growing for AnsweringScript<'_> {
    fn call(&self, alloc: Global, refusal: Refusal) -> Outcome {
        let Some(mut session) = session_of(alloc, self.0) else {
            return Outcome::Wrong;
        };
        let found = script_answered(alloc, refusal, &mut session);
        session.finish().retire();
        found
    }
}

fn script_answered(alloc: Global, refusal: Refusal, session: &mut Session) -> Outcome {
    let Ok(mut ahead) = Ahead::new(alloc) else {
        return Outcome::Wrong;
    };
    let Some(mut page) = Page::new(alloc) else {
        return Outcome::Wrong;
    };
    refusal.begin(alloc);
    let answered = answer_all(alloc, session, &mut ahead, &mut page);
    refusal.end(alloc);
    page.judge(Outcome::of_run(answered), ANSWERS, b"")
}

fn answer_all(
    alloc: Global,
    session: &mut Session,
    ahead: &mut Ahead,
    page: &mut Page,
) -> Result<bool, Halt> {
    let mut script = SCRIPT;
    answer_script(alloc, session, ahead, &mut script, page, &mut Silent)
}

/// A session does a script.
#[derive(Drop)]
struct DoingScript<'a>(&'a Plan);

impl Growing for DoingScript<'_> {
    fn call(&self, alloc: Global, refusal: Refusal) -> Outcome {
        let Some(mut session) = session_of(alloc, self.0) else {
            return Outcome::Wrong;
        };
        let mut script = SCRIPT;
        refusal.begin(alloc);
        let done = do_script(alloc, &mut session, &mut script, &mut Silent);
        refusal.end(alloc);
        session.finish().retire();
        Outcome::of_run(done)
    }
}

/// A script is run on a plan. Out of memory the answers to its first lines were written, or to all, and no summary.
#[derive(Drop)]
struct Running<'a>(&'a Plan);

impl Growing for Running<'_> {
    fn call(&self, alloc: Global, refusal: Refusal) -> Outcome {
        let Some(image) = label_image(alloc, self.0) else {
            return Outcome::Wrong;
        };
        if !image.fits(self.0) {
            return Outcome::Wrong;
        }
        ran(alloc, refusal, self.0, image)
    }
}

fn ran(alloc: Global, refusal: Refusal, plan: &Plan, image: Image) -> Outcome
    requires { Fits image plan.now }
{
    let Ok(mut ahead) = Ahead::new(alloc) else {
        return Outcome::Wrong;
    };
    let Some(mut page) = Page::new(alloc) else {
        return Outcome::Wrong;
    };
    refusal.begin(alloc);
    let ended = run_all(alloc, plan, image, &mut ahead, &mut page);
    refusal.end(alloc);
    page.judge(Outcome::of_run(ended), ANSWERS, SUMMARY)
}

fn run_all(
    alloc: Global,
    plan: &Plan,
    image: Image,
    ahead: &mut Ahead,
    page: &mut Page,
) -> Result<bool, Halt>
    requires { Fits image plan.now }
{
    let mut script = SCRIPT;
    run_plan(alloc, plan, image, ahead, &mut script, page, &mut Silent)
}

/// What is asked of a run that has ended.
#[derive(Clone, Copy)]
enum Question {
    Arrived,
    Origins,
    Summary,
}

/// Something is asked of a run that has ended.
#[derive(Drop)]
struct Asking<'a>(&'a EndedNet, Question);

impl Growing for Asking<'_> {
    fn call(&self, alloc: Global, refusal: Refusal) -> Outcome {
        refusal.begin(alloc);
        let found = match self.1 {
            Question::Arrived => Outcome::of(self.0.arrived(alloc, 1)),
            Question::Origins => Outcome::of(self.0.origins(alloc)),
            Question::Summary => Outcome::of(summary_lines(alloc, self.0)),
        };
        refusal.end(alloc);
        found
    }
}

/// A session in which a packet goes from a to b.
fn ended_session(alloc: Global, plan: &Plan) -> Option<Ended> {
    let mut session = session_of(alloc, plan)?;
    let _sent = session.answer(alloc, b"send a 01 aa eop");
    let _done = session.answer(alloc, b"rounds 12");
    Some(session.finish())
}

fn is_end_right(rt: &HostRuntime, plan: &Plan) -> bool {
    let Some(ended) = ended_session(rt.alloc(), plan) else {
        return false;
    };
    let run = &ended.run;
    let is_right = is_right(rt, "EndedNet::arrived", &Asking(run, Question::Arrived))
        && is_right(rt, "EndedNet::origins", &Asking(run, Question::Origins))
        && is_right(rt, "summary_lines", &Asking(run, Question::Summary));
    ended.retire();
    is_right
}

/// Sessions, line by line.
#[derive(Drop)]
struct SessionCalls;

impl Suite for SessionCalls {
    fn is_right(&self, rt: &HostRuntime, ground: Ground<'_>) -> bool {
        let plan = ground.plan;
        is_right(rt, "read_line", &ReadingLine(plan, ground.image, SENT))
            && is_right(rt, "read_line", &ReadingLine(plan, ground.image, TO_B))
            && is_right(rt, "add_answer", &Adding)
            && is_right(rt, "Session::new", &Beginning(plan))
            && is_right(rt, "Session::answer", &Answering(plan, b"send a 01 aa eop"))
            && is_right(rt, "Session::answer", &Answering(plan, b"rounds 2"))
    }
}

/// Whole scripts.
#[derive(Drop)]
struct ScriptCalls;

impl Suite for ScriptCalls {
    fn is_right(&self, rt: &HostRuntime, ground: Ground<'_>) -> bool {
        is_right(rt, "answer_script", &AnsweringScript(ground.plan))
            && is_right(rt, "do_script", &DoingScript(ground.plan))
            && is_right(rt, "run_plan", &Running(ground.plan))
            && is_end_right(rt, ground.plan)
    }
}

#[test]
fn sessions(rt: HostRuntime) {
    assert!(rt; is_right_on(&rt, PLAN, &SessionCalls));
}

#[test]
fn scripts(rt: HostRuntime) {
    assert!(rt; is_right_on(&rt, PLAN, &ScriptCalls));
}
