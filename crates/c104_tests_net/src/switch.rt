use c104_control::ControlBytes;
use c104_switch::{Action, LINKS, LinkSet, Phase, Reply, Switch, SwitchOf};
use c104_token::{Token, TokenKind};
use std::test::Fail;

/// The headers 0 and 1 select link 1 at link 0, and the switch is started.
const COMMANDS: [&[u8]; 3] = [
    &[0x05, 0x40, 0x01, 0x02, 0x00, 0x00, 0x00],
    &[0x05, 0x80, 0x01, 0x01, 0x00, 0x00, 0x00],
    &[0x01],
];

// These functions promise nothing: what a contract says of a switch would be a fact of every later goal of a test.

/// Whether an action gets this reply, and its being ready foretells it.
fn answers(switch: &mut Switch, action: Action, reply: Reply) -> bool {
    switch.ready(&action) == (reply != Reply::NotReady) && switch.step(action) == reply
}

/// Whether a switch that is not started takes a command.
fn takes(switch: &mut Switch, command: &[u8]) -> bool {
    if command.len() > 8 || switch.ready(&Action::CreditOut(0)) {
        return false;
    }
    let reply = switch.step(Action::Control(ControlBytes::new(command)));
    matches!(reply, Reply::Control(_))
}

/// Whether a switch takes the commands.
fn starts(switch: &mut Switch) -> bool {
    for command in COMMANDS {
        if !takes(switch, command) {
            return false;
        }
    }
    true
}

/// Whether the header of a packet goes from link 0 to link 1.
fn carries(switch: &mut Switch) -> bool {
    let mut is_due = true;
    for (action, reply) in [
        (Action::CreditOut(32), Reply::NotReady),
        (Action::CreditOut(0), Reply::Done),
        (Action::Enter(0, Token::Byte(1)), Reply::Done),
        (Action::Enter(0, Token::Eop), Reply::Done),
        (Action::Input(0, 0), Reply::Done),
        (Action::Claim(0, 0), Reply::NotReady),
        (Action::Claim(0, 1), Reply::Done),
        (Action::Leave(1), Reply::NotReady),
        (Action::CreditIn(1), Reply::Done),
        (Action::Leave(1), Reply::Token(Token::Byte(1))),
    ] {
        is_due = answers(switch, action, reply) && is_due;
    }
    is_due
}

/// Whether link 0 streams to link 1, and has granted six tokens more than came in.
fn streams(switch: &Switch) -> bool {
    let Some(input) = switch.view(0) else {
        return false;
    };
    matches!(input.phase, Phase::Stream(1)) && input.granted == 6
}

/// Whether a switch is started, and link 0 has its output, link 1.
fn holds(switch: &Switch) -> bool {
    switch.started() && !switch.crossbar().free(1) && switch.claim_held(0).is_some()
}

/// A new switch is configured by commands, and a packet goes from link 0 to link 1, of which the terminator hasn't
/// passed yet. Whether an action is ready foretells its reply.
#[test]
fn one_packet(rt: HostRuntime) -> Result<(), Fail> {
    let mut switch = Switch::new(rt.alloc(), 16)?;
    let is_due = starts(&mut switch) && carries(&mut switch) && streams(&switch) && holds(&switch);
    switch.retire();
    assert!(rt; is_due);
    Ok(())
}

/// All links but one.
fn links_without(link: usize) -> LinkSet {
    let mut links = LinkSet::new();
    for other in 0..LINKS {
        links.set(other, other != link);
    }
    links
}

/// The links that can grant, of which none can turn.
fn granting(switch: &Switch, links: LinkSet) -> bool {
    switch.granting().next(1, links) == Some(1)
        && switch.granting().next(2, links) == Some(3)
        && switch.turning().next(0, links).is_none()
}

/// The link at which a header comes in.
fn turning(switch: &mut Switch, links: LinkSet) -> bool {
    switch.credit_out(0)
        && switch.enter(0, Token::Byte(1))
        && switch.turning().next(0, links) == Some(0)
        && switch.next_wanting(0).is_none()
}

/// The link at which a header was read, and the output that it wants.
fn next_wanting(switch: &mut Switch, links: LinkSet) -> bool {
    switch.input(0, 0)
        && switch.turning().next(0, links).is_none()
        && switch.next_wanting(0) == Some(0)
        && switch.next_claim(0, 0) == Some(1)
}

/// The output at which the header waits, once there is credit for it.
fn leaving(switch: &mut Switch, links: LinkSet) -> bool {
    switch.claim(0, 1)
        && switch.leaving().next(0, links).is_none()
        && switch.credit_in(1)
        && switch.leaving().next(0, links) == Some(1)
        && switch.leaving().both(links).next(2, links).is_none()
}

/// No link that isn't in a set, or is below the first.
#[test]
fn sets(rt: HostRuntime) {
    let links = links_without(2);
    assert!(rt; links.next(2, links) == Some(3) && links.next(LINKS, links).is_none());
}

/// The links that are ready for an action are found in order, among those of a set.
#[test]
fn next_links(rt: HostRuntime) -> Result<(), Fail> {
    let links = links_without(2);
    let mut switch = Switch::new(rt.alloc(), 16)?;
    let is_due = switch.granting().next(0, links).is_none()
        && starts(&mut switch)
        && granting(&switch, links)
        && turning(&mut switch, links)
        && next_wanting(&mut switch, links)
        && leaving(&mut switch, links);
    switch.retire();
    assert!(rt; is_due);
    Ok(())
}

/// A token that tells its place in its packet.
#[derive(Clone, Copy, PartialEq, Eq)]
struct Placed {
    token: Token,
    place: usize,
}

impl TokenKind for Placed {
    ghost use Rattle.std.specs.Prelude.{None};

    ghost kind = { record { plain = λ x. x.token; byte = λ x. None; random = λ place x. record { token = x; place = place }; sent = λ terminal number place x. record { token = x; place = place } } };

    fn plain(&self) -> Token {
        self.token
    }

    fn byte(&self) -> Option<u8> {
        None
    }

    fn random(place: usize, token: Token) -> Self {
        Placed { token, place }
    }

    fn sent(_terminal: usize, _number: usize, place: usize, token: Token) -> Self {
        Placed { token, place }
    }
}

/// A packet of two tokens.
const PACKET: [Token; 2] = [Token::Byte(1), Token::Eop];

/// A started switch of such tokens.
fn start(switch: &mut SwitchOf<Placed>) {
    for command in COMMANDS {
        let _reply = switch.control(command);
    }
}

/// Whether a packet comes in at link 0.
fn enters(switch: &mut SwitchOf<Placed>) -> bool {
    let mut is_due = switch.credit_out(0);
    for (place, token) in PACKET.iter().enumerate() {
        is_due = switch.enter(0, Placed::sent(3, 0, place, *token)) && is_due;
    }
    is_due
}

/// Whether it goes through to link 1.
fn crosses(switch: &mut SwitchOf<Placed>) -> bool {
    switch.input(0, 0) && switch.claim(0, 1) && switch.input(0, 0)
}

/// Whether it goes out there, and each token tells its place.
fn leaves(switch: &mut SwitchOf<Placed>) -> bool {
    let mut is_due = switch.credit_in(1);
    for (place, token) in PACKET.iter().enumerate() {
        let token = *token;
        is_due = switch.leave(1) == Some(Placed { token, place }) && is_due;
    }
    is_due
}

/// The same switch carries tokens that tell more.
#[test]
fn tokens_that_tell_their_place(rt: HostRuntime) -> Result<(), Fail> {
    let mut switch: SwitchOf<Placed> = SwitchOf::new(rt.alloc(), 16)?;
    start(&mut switch);
    let is_due = enters(&mut switch) && crosses(&mut switch) && leaves(&mut switch);
    switch.retire();
    assert!(rt; is_due);
    Ok(())
}
