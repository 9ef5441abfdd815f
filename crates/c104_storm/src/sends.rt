//! What a line of a storm's script asks, and what a network answers.
ghost use Rattle.std.specs.Prelude.{IfOk, Option, ◌≡◌};
ghost use Rattle.{c104_plan.specs.PlanImage.Fits, c104_run.specs.NetRecords.NetRecord as TheNet};
ghost use Rattle.c104_script.specs.{Script.GivesLineOrNoMemory, declared.answers.Answer.Answer as TheAnswer};
ghost use Rattle.c104_storm.specs.Sends.{begins_otherwise, event_outcome, new_sending, read_send_line, send_answer, tells_fault};

use crate::telling::send_message;
use c104_event::{Event, EventFault};
use c104_mistakes::{About, Messages};
use c104_net::TracedNet;
use c104_plan::{Image, Plan, first_word, uncommented};
use c104_script::{Answer, AnswersLines, LineFault, MAX_LINE, Request, read_line};
use c104_session::start_net;
use c104_token::NoMemory;
use std::alloc::Global;

/// A network into which a script's packets are sent. It can't be dropped: `retire` disposes of it.
pub(crate) struct Sending {
    /// The network.
    pub(crate) net: TracedNet,
    /// What was loaded into its switches.
    pub(crate) image: Image,
    /// Whether a line was faulty so far.
    pub(crate) is_faulty: bool,
}

impl Sending {
    /// The network of a plan with an image that fits it, before the first line. The only error is out of memory.
    pub(crate) fn new(alloc: Global, plan: &Plan, image: Image) -> Result<Self, NoMemory>
        requires { Fits image plan.now }
        ensures { IfOk result (λ sending. sending ≡ new_sending plan.now image) }
    {
        let net = start_net(alloc, plan, &image)?;
        Ok(Sending {
            net,
            image,
            is_faulty: false,
        })
    }

    /// Disposes of the network.
    pub(crate) fn retire(self) {
        let Sending {
            net,
            image: _,
            is_faulty: _,
        } = self;
        net.retire();
    }
}

impl<M: Messages> AnswersLines<M> for Sending {
    ghost use Rattle.c104_storm.specs.Sends.{sending_answer};

    type Message = (About, String);

    ghost answers = { sending_answer };

    /// Sends the packet of a line, and gives what answers the line: as in a script, but any line that doesn't begin with
    /// `send` has an unknown word.
    #[tactic(auto, unfolding(crate::specs::Sends::sending_answer))]
    fn answer(
        &mut self,
        alloc: Global,
        _number: usize,
        line: &[u8],
        _messages: &mut M,
    ) -> Result<Option<Answer>, NoMemory> {
        let answer = answer_send(alloc, &mut self.net, &self.image, line)?;
        let is_faulty = tells_fault(&answer);
        self.is_faulty = is_faulty || self.is_faulty;
        Ok(answer)
    }

    fn message(
        &self,
        alloc: Global,
        number: usize,
        line: &[u8],
        answer: &Option<Answer>,
        messages: &mut M,
    ) -> Option<(About, String)> {
        if !messages.are_wanted() {
            return None;
        }
        send_message(alloc, self.net.plan(), number, line, answer)
    }

    fn tell(message: (About, String), messages: &mut M) {
        messages.tell(message.0, message.1.as_str());
    }
}

/// Whether a line was answered with what is wrong with it.
fn tells_fault(answer: &Option<Answer>) -> bool
    ensures { result ≡ tells_fault answer.now }
{
    match answer {
        Some(Answer::Faulty(_)) => true,
        _ => false,
    }
}

/// Sends the packet of a line, and gives what answers the line. The only error is out of memory.
fn answer_send(
    alloc: Global,
    net: &mut TracedNet,
    image: &Image,
    line: &[u8],
) -> Result<Option<Answer>, NoMemory>
    ensures answered { IfOk result (λ answer. ◌≡◌ {A = Option TheAnswer × TheNet}
        (answer, net.new) (send_answer net.old image.now line.now)) }
{
    let request = match read_send(alloc, net.plan(), image, line) {
        Ok(request) => request,
        Err(LineFault::NoMemory) => return Err(NoMemory),
        Err(fault) => return Ok(Some(Answer::Faulty(fault))),
    };
    match request {
        None => Ok(None),
        Some(Request::Asked(event)) => {
            let answer = answer_event(net, &event)?;
            Ok(Some(answer))
        }
        Some(Request::Refused(fault)) => Ok(Some(Answer::Refused(fault))),
        Some(Request::Rounds { .. }) => Ok(Some(Answer::Faulty(LineFault::UnknownWord))),
        Some(Request::Settle) => Ok(Some(Answer::Faulty(LineFault::UnknownWord))),
        Some(Request::Probed(_)) => Ok(Some(Answer::Faulty(LineFault::UnknownWord))),
    }
}

/// Does an event, and gives what answers it. The only error is out of memory.
fn answer_event(net: &mut TracedNet, event: &Event) -> Result<Answer, NoMemory>
    ensures { IfOk result (λ answer. ◌≡◌ {A = TheAnswer × TheNet}
        (answer, net.new) (event_outcome net.old event.now)) }
{
    match net.apply(event) {
        Ok(reply) => Ok(Answer::Replied(reply)),
        Err(EventFault::NoMemory) => Err(NoMemory),
        Err(fault) => Ok(Answer::Refused(fault)),
    }
}

/// What a line asks of a network of this plan with the labels of an image. A line that begins otherwise than with `send` has an unknown word.
/// NoMemory may come in place of any answer.
fn read_send(
    alloc: Global,
    plan: &Plan,
    image: &Image,
    line: &[u8],
) -> Result<Option<Request>, LineFault>
    ensures { GivesLineOrNoMemory result (read_send_line plan.now image.now line.now) }
{
    if line.len() <= MAX_LINE && begins_otherwise(line) {
        return Err(LineFault::UnknownWord);
    }
    read_line(alloc, plan, image, line)
}

/// Whether a line has words, and begins with another than `send`.
fn begins_otherwise(line: &[u8]) -> bool
    ensures { result ≡ begins_otherwise line.now }
{
    match first_word(uncommented(line)) {
        Some(word) => word != b"send".as_slice(),
        None => false,
    }
}
