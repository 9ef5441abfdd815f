//! The acts of a node.
ghost use Rattle.std.specs.Prelude.{IfSome, MatchResult, None, OnErr, Some, false, is_some, true, unwrap_or, ℕ, ◌<◌, ◌≡◌, ◌≤◌};
ghost use Rattle.c104_node.specs.{Acts.{IsWithinLimits, node_act, reply_outcome, wants_memory}, Nodes.node_claim, PortActs.act_limit};
ghost use Rattle.{c104_crossbar.specs.Groups.has_bit, c104_node.specs.{PortParts.may_act, SpareRooms.IsEnough}};
ghost use Rattle.{c104_regs.specs.declared.registers.TheConstants.LINKS, c104_switch.specs.Actions.{done_reply, switch_step, token_reply}};
ghost use Rattle.c104_switch.specs.Claims.{IsNextLink};

use crate::acts::ActOf;
use crate::node::NodeOf;
use crate::port_part::PortPart;
use crate::terminal::SpareOf;
use c104_switch::{ActionOf, LinkSet, ReplyOf, SwitchOf};
use c104_token::{NoMemory, TokenKind};

impl<T: TokenKind> NodeOf<T> {
    /// Does an act, or answers NotReady and changes nothing. The number is the terminal's, if the
    /// node is one. Only Send and Drain may want memory, where the node is ready for them, and then nothing has changed.
    // Inlined: where the act is known, its other cases go. What crosses a wire has arms of its own at a switch, as at a
    // terminal, so that it is a call less.
    #[inline(always)]
    #[tactic(auto, using(crate::proofs::ActionSteps::step_as_node))]
    pub fn act(&mut self, number: usize, act: &ActOf<T>) -> Result<ReplyOf<T>, NoMemory>
        requires { IsWithinLimits act.now }
        ensures acted { MatchResult result
            (λ reply. (reply, self.new) ≡
            reply_outcome (node_act T.kind number act.now self.old) self.old)
            (λ _. self.new ≡ self.old) }
        ensures memory { MatchResult result
            (λ _. Unit {0})
            (λ _. wants_memory act.now ≡ true) }
        ensures refused { OnErr result (is_some (node_act T.kind number act.now self.old) ≡ true) }
    {
        match self {
            NodeOf::Switch(switch) => match act {
                ActOf::Step(ActionOf::Enter(link, token)) => Ok(done(switch.enter(*link, *token))),
                ActOf::Step(ActionOf::Leave(link)) => Ok(gave(switch.leave(*link))),
                ActOf::Step(ActionOf::CreditOut(link)) => Ok(done(switch.credit_out(*link))),
                ActOf::Step(ActionOf::CreditIn(link)) => Ok(done(switch.credit_in(*link))),
                ActOf::Step(action) => Ok(switch.act(action)),
                _ => Ok(ReplyOf::NotReady),
            },
            NodeOf::Terminal(terminal) => match act {
                ActOf::Step(_) => Ok(ReplyOf::NotReady),
                ActOf::Send(packet) => {
                    terminal.send(number, packet.packet())?;
                    Ok(ReplyOf::Done)
                }
                ActOf::Drain => {
                    if !terminal.can_drain() {
                        return Ok(ReplyOf::NotReady);
                    }
                    let token = terminal.drain()?;
                    Ok(gave(token))
                }
                ActOf::Leave => Ok(gave(terminal.leave())),
                ActOf::Enter(token) => Ok(done(terminal.enter(*token))),
                ActOf::CreditOut => Ok(done(terminal.credit_out())),
                ActOf::CreditIn => Ok(done(terminal.credit_in())),
            },
        }
    }

    /// Does an act that wants no memory, as those at the ends of wires do, or answers NotReady and changes nothing.
    // A crossing has this three times, and is inlined no more where it is large: so what isn't at the end of a wire is done
    // by a function of its own.
    #[inline(always)]
    #[tactic(auto, using(crate::proofs::ActionSteps::step_as_node))]
    pub fn act_light(&mut self, act: &ActOf<T>) -> ReplyOf<T>
        requires short { IsWithinLimits act.now }
        requires light { wants_memory act.now ≡ false }
        ensures { (result, self.new) ≡ reply_outcome (node_act T.kind 0 act.now self.old) self.old }
    {
        match act {
            ActOf::Step(action) => match self {
                NodeOf::Switch(switch) => match action {
                    ActionOf::Enter(link, token) => done(switch.enter(*link, *token)),
                    ActionOf::Leave(link) => gave(switch.leave(*link)),
                    ActionOf::CreditOut(link) => done(switch.credit_out(*link)),
                    ActionOf::CreditIn(link) => done(switch.credit_in(*link)),
                    _ => seldom(switch, action),
                },
                NodeOf::Terminal(_) => ReplyOf::NotReady,
            },
            ActOf::Send(_) | ActOf::Drain => unreachable!(),
            ActOf::Leave => match self {
                NodeOf::Switch(_) => ReplyOf::NotReady,
                NodeOf::Terminal(terminal) => gave(terminal.leave()),
            },
            ActOf::Enter(token) => match self {
                NodeOf::Switch(_) => ReplyOf::NotReady,
                NodeOf::Terminal(terminal) => done(terminal.enter(*token)),
            },
            ActOf::CreditOut => match self {
                NodeOf::Switch(_) => ReplyOf::NotReady,
                NodeOf::Terminal(terminal) => done(terminal.credit_out()),
            },
            ActOf::CreditIn => match self {
                NodeOf::Switch(_) => ReplyOf::NotReady,
                NodeOf::Terminal(terminal) => done(terminal.credit_in()),
            },
        }
    }

    /// Does an act, as `act`, but without memory: it was set aside before.
    #[inline(always)]
    pub fn act_reserved(
        &mut self,
        number: usize,
        act: &ActOf<T>,
        spare: &mut SpareOf<T>,
    ) -> ReplyOf<T>
        requires below { act_limit (Some self.old) act.now ≡ None }
        requires enough { IsEnough T.kind spare.old self.old act.now }
        ensures { (result, self.new) ≡ reply_outcome (node_act T.kind number act.now self.old) self.old }
    {
        match act {
            ActOf::Send(_) => match self {
                NodeOf::Switch(_) => ReplyOf::NotReady,
                NodeOf::Terminal(terminal) => {
                    terminal.send_reserved(number, spare);
                    ReplyOf::Done
                }
            },
            ActOf::Drain => match self {
                NodeOf::Switch(_) => ReplyOf::NotReady,
                NodeOf::Terminal(terminal) => gave(terminal.drain_reserved(spare)),
            },
            _ => match self.act(number, act) {
                Ok(reply) => reply,
                Err(_) => unreachable!(),
            },
        }
    }

    /// Whether an act would be done.
    #[tactic(auto, using(crate::proofs::ActionSteps::ready_as_node))]
    #[inline(always)]
    pub fn ready(&self, number: usize, act: &ActOf<T>) -> bool
        ensures { result ≡ is_some (node_act T.kind number act.now self.now) }
    {
        match self {
            NodeOf::Switch(switch) => match act {
                ActOf::Step(action) => switch.ready(action),
                _ => false,
            },
            NodeOf::Terminal(terminal) => match act {
                ActOf::Step(_) => false,
                ActOf::Send(_) => true,
                ActOf::Drain => terminal.can_drain(),
                ActOf::Leave => terminal.can_leave(),
                ActOf::Enter(_) => terminal.can_enter(),
                ActOf::CreditOut => terminal.can_credit_out(),
                ActOf::CreditIn => terminal.can_credit_in(),
            },
        }
    }

    /// The links at which the node may do a switch's act of a part.
    #[inline(always)]
    pub fn ready_links(&self, part: PortPart) -> LinkSet
        ensures { (l : ℕ) → l < LINKS → has_bit result l ≡ may_act T.kind part l self.now }
    {
        match self {
            NodeOf::Switch(switch) => match part {
                PortPart::Credit => switch.granting(),
                PortPart::Cross => switch.leaving(),
                PortPart::Turn => switch.turning(),
            },
            NodeOf::Terminal(_) => LinkSet::new(),
        }
    }

    /// The next input, from that of this link on, that wants an output. None where no further one
    /// does. An input that is passed over claims no output.
    pub fn next_wanting(&self, from: usize) -> Option<usize>
        ensures passed { (input output : ℕ) → from ≤ input → input < unwrap_or result LINKS →
            node_claim input output self.now ≡ None }
        ensures found { IfSome result (λ input. (from ≤ input) × (input < LINKS)) }
    {
        match self {
            NodeOf::Switch(switch) => switch.next_wanting(from),
            NodeOf::Terminal(_) => None,
        }
    }

    /// The next output, from this one on, that an input can claim. None where it can claim no further
    /// one.
    pub fn next_claim(&self, input: usize, from: usize) -> Option<usize>
        ensures { IsNextLink (λ output. is_some (node_claim input output self.now)) from result }
    {
        match self {
            NodeOf::Switch(switch) => switch.next_claim(input, from),
            NodeOf::Terminal(_) => None,
        }
    }
}

/// A switch does an action, as `SwitchOf::act`, by a call.
#[inline(never)]
fn seldom<T: TokenKind>(switch: &mut SwitchOf<T>, action: &ActionOf<T>) -> ReplyOf<T>
    ensures { (result, switch.new) ≡ switch_step T.kind switch.old action.now }
{
    switch.act(action)
}

#[inline(always)]
fn done<T: TokenKind>(made: bool) -> ReplyOf<T>
    ensures { result ≡ done_reply made }
{
    if made {
        ReplyOf::Done
    } else {
        ReplyOf::NotReady
    }
}

#[inline(always)]
fn gave<T: TokenKind>(token: Option<T>) -> ReplyOf<T>
    ensures { result ≡ token_reply token }
{
    match token {
        Some(token) => ReplyOf::Token(token),
        None => ReplyOf::NotReady,
    }
}
