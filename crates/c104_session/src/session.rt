//! A run of a network, line by line.
ghost use Rattle.std.specs.Prelude.{Err, IfOk, Ok, OnErr, OnOk, Option, Result, Some, ◌≡◌, ◌⊎◌};
ghost use Rattle.{c104_event.specs.declared.faults.EventFault.EventFault as TheFault, c104_plan.specs.PlanImage.Fits};
ghost use Rattle.c104_run.specs.{FairRounds.{InTurn, in_turn}, FinishedRecords.record_finish, NetRecords.NetRecord as TheNet};
ghost use Rattle.{c104_script.specs.declared.answers.Answer.Answer as TheAnswer, c104_session.specs.Driven.{DoesEvent, line_driven}};
ghost use Rattle.c104_session.specs.{Driven.request_driven, Leavings.{KeepsAllButNet, LeavesFairly, LeavesLine, LeavesNet, LeavesRounds}};
ghost use Rattle.{c104_script.specs.Script.read_script_line, c104_session.specs.{Settling.SettlesTo, SettlingEnds.AlwaysSettles}};
ghost use Rattle.c104_script.specs.declared.places.Request.TheVariants as asked;
ghost use Rattle.c104_session.specs.Shown.{fair_outcome, line_answer, new_session, request_answer, rounds_outcome};
ghost use Rattle.{c104_session.specs.declared.session.Session.Session as TheSession, c104_switch.specs.Actions.Reply as TheReply};
ghost use Rattle.c104_event.specs.declared.faults.EventFault.TheVariants as fault;

use crate::driver::{Driver, Plain};
use crate::ended::EndedNet;
use crate::probing::answer_probe;
use crate::settling::{answer_settle, rounds_end};
use crate::starting::start_net;
use c104_event::{Event, EventFault};
use c104_net::{TracedNet, Turns, Unwatched, Watch, Words};
use c104_plan::{Image, Plan};
use c104_script::{Answer, LineFault, Request, read_line};
use c104_switch::Reply;
use c104_token::NoMemory;
use std::alloc::Global;

/// A network that a script is run on. It can't be dropped: `finish` ends it.
pub struct Session {
    /// The network.
    pub net: TracedNet,
    /// What was loaded into its switches.
    pub image: Image,
    /// Whether a line was faulty so far.
    pub faulty: bool,
    /// Whose turn it is at each switch, of fair rounds.
    pub turns: Turns,
}

/// What a script's run came to. It can't be dropped: `retire` disposes of its network.
pub struct Ended {
    /// The run, at its end.
    pub run: EndedNet,
    /// Whether a line was faulty.
    pub faulty: bool,
}

impl Session {
    /// The network of a plan with an image that fits it, before the first line. The only error is out of memory.
    pub fn new(alloc: Global, plan: &Plan, image: Image) -> Result<Self, NoMemory>
        requires { Fits image plan.now }
        ensures { IfOk result (λ session. session ≡ new_session plan.now image) }
    {
        let net = start_net(alloc, plan, &image)?;
        Ok(Session {
            net,
            image,
            faulty: false,
            turns: Turns::first(),
        })
    }

    /// Ends the run.
    pub fn finish(self) -> Ended
        ensures run { result.run ≡ record_finish self.net }
        ensures faulty { result.faulty ≡ self.faulty }
    {
        let Session {
            net,
            image: _,
            faulty,
            turns: _,
        } = self;
        Ended {
            run: EndedNet::new(net),
            faulty,
        }
    }

    /// Does what a line asks. None where it asks nothing. The only error is out of memory: then
    /// only the network and its turns may have changed; an event isn't done, and rounds may be done in part.
    ///
    /// A `settle` is never answered `moving` where the labels are accepted, nobody changed the network, its channels don't depend
    /// on one another in a cycle and no random headers are put before packets.
    pub fn answer(&mut self, alloc: Global, line: &[u8]) -> Result<Option<Answer>, NoMemory>
        ensures answered { IfOk result (λ answer. ◌≡◌ {A = Option TheAnswer × TheSession}
            (answer, self.new) (line_answer self.old line.now)) }
        ensures left { OnErr result (LeavesLine self.old line.now self.new) }
        ensures settled { IfOk result (λ answer. read_script_line self.old.net.network.plan self.old.image line.now ≡ Ok (Some asked.Settle)
            → SettlesTo self.old.net answer self.new.net) }
        ensures ends { IfOk result (λ answer. read_script_line self.old.net.network.plan self.old.image line.now ≡ Ok (Some asked.Settle)
            → AlwaysSettles self.old.net answer) }
    {
        // The proof reads here what every plan and every such network keeps.
        let plan = self.net.told_plan();
        let _switches = plan.switches();
        rounds_end(&self.net);
        self.answer_driven(alloc, line, &mut Plain, &mut Unwatched)
    }

    /// The same by a driver, and tells of each round that changed something.
    #[inline(always)]
    #[tactic(auto, using(crate::proofs::Leavings::nothing_left, crate::proofs::Leavings::request_left), unfolding(crate::specs::Shown::line_answer, crate::specs::Driven::line_driven))]
    pub(crate) fn answer_driven<D: Driver, W: Watch>(
        &mut self,
        alloc: Global,
        line: &[u8],
        driver: &mut D,
        watch: &mut W,
    ) -> Result<Option<Answer>, NoMemory>
        ensures answered { IfOk result (λ answer. ◌≡◌ {A = Option TheAnswer × TheSession}
            (answer, self.new) (line_answer self.old line.now)) }
        ensures left { OnErr result (LeavesLine self.old line.now self.new) }
        ensures driven { OnOk result (driver.new ≡ line_driven D.drives driver.old self.old line.now) }
    {
        match read_line(alloc, self.net.plan(), &self.image, line) {
            Ok(None) => Ok(None),
            Ok(Some(request)) => {
                let answer = self.answer_request(alloc, &request, driver, watch)?;
                Ok(Some(answer))
            }
            Err(LineFault::NoMemory) => Err(NoMemory),
            Err(fault) => {
                self.faulty = true;
                Ok(Some(Answer::Faulty(fault)))
            }
        }
    }

    /// Does what a request says.
    fn answer_request<D: Driver, W: Watch>(
        &mut self,
        alloc: Global,
        request: &Request,
        driver: &mut D,
        watch: &mut W,
    ) -> Result<Answer, NoMemory>
        ensures answered { IfOk result (λ answer. ◌≡◌ {A = TheAnswer × TheSession}
            (answer, self.new) (request_answer self.old request.now)) }
        ensures kept { OnErr result (KeepsAllButNet self.old self.new) }
        ensures left { OnErr result (LeavesNet self.old.net self.old.turns request.now self.new.net self.new.turns) }
        ensures driven { OnOk result (driver.new ≡ request_driven D.drives driver.old self.old.net self.old.turns request.now) }
    {
        let done = match request {
            Request::Asked(event) => do_event(&mut self.net, event, driver),
            Request::Rounds {
                count,
                is_fair: false,
                seed,
            } => do_rounds(&mut self.net, Words::of(*seed), *count, driver, watch),
            Request::Rounds {
                count,
                is_fair: true,
                seed,
            } => {
                let words = Words::of(*seed);
                do_fair_rounds(&mut self.net, &mut self.turns, words, *count, driver, watch)
            }
            Request::Settle => return answer_settle(&mut self.net, driver, watch),
            Request::Probed(probe) => {
                return answer_probe(alloc, &mut self.net, &self.image, *probe);
            }
            Request::Refused(fault) => Err(*fault),
        };
        match done {
            Ok(reply) => Ok(Answer::Replied(reply)),
            Err(EventFault::NoMemory) => Err(NoMemory),
            Err(fault) => Ok(Answer::Refused(fault)),
        }
    }
}

impl Ended {
    /// Disposes of the network.
    pub fn retire(self) {
        let Ended { run, faulty: _ } = self;
        run.retire();
    }
}

/// Does an event. Where it is refused, and out of memory, the network stays as it was.
fn do_event<D: Driver>(
    net: &mut TracedNet,
    event: &Event,
    driver: &mut D,
) -> Result<Reply, EventFault>
    ensures due { DoesEvent net.old event.now result net.new }
    ensures kept { OnErr result (net.new ≡ net.old) }
    ensures driven { (driver.new ≡ D.drives.event driver.old net.old event.now) ⊎ (result ≡ Err fault.NoMemory) }
{
    driver.event(net, event)
}

/// Does `count` rounds whose inputs are handed words, up to the first event that is refused.
fn do_rounds<D: Driver, W: Watch>(
    net: &mut TracedNet,
    words: Words,
    count: u32,
    driver: &mut D,
    watch: &mut W,
) -> Result<Reply, EventFault>
    ensures due { (◌≡◌ {A = Result TheReply TheFault × TheNet}
        (result, net.new) (rounds_outcome words net.old count)) ⊎ (result ≡ Err fault.NoMemory) }
    ensures left { LeavesRounds words net.old count net.new }
    ensures driven { (driver.new ≡ D.drives.rounds driver.old net.old words count) ⊎ (result ≡ Err fault.NoMemory) }
{
    driver.rounds(net, words, count, watch)?;
    Ok(Reply::Done)
}

/// Does `count` fair rounds whose inputs are handed words, from these turns on, up to the first event that is refused.
fn do_fair_rounds<D: Driver, W: Watch>(
    net: &mut TracedNet,
    turns: &mut Turns,
    words: Words,
    count: u32,
    driver: &mut D,
    watch: &mut W,
) -> Result<Reply, EventFault>
    ensures due { (◌≡◌ {A = Result TheReply TheFault × InTurn TheNet}
        (result, in_turn net.new turns.new) (fair_outcome words net.old turns.old count)) ⊎ (result ≡ Err fault.NoMemory) }
    ensures left { LeavesFairly words net.old turns.old count net.new turns.new }
    ensures driven { (driver.new ≡ D.drives.fair driver.old net.old turns.old words count) ⊎ (result ≡ Err fault.NoMemory) }
{
    driver.fair_rounds(net, turns, words, count, watch)?;
    Ok(Reply::Done)
}
