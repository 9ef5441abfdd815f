//! The packet that a terminal sends: the one in which the token stands that goes out next.
ghost use Rattle.std.specs.Prelude.{◌≡◌};
ghost use Rattle.c104_rows.specs.Senders.{count_from, fit_of, sending_at, sending_before, sending_of, size_at};

use c104_net::TracedNet;

/// The most packets that a terminal can have sent.
pub(crate) const SENT_LIMIT: usize = 1_048_576;

// Contracts name this limit: its value is a part of what they say, so a change of it alone is refused.
const _: () = prove!(SENT_LIMIT == 1_048_576);

/// The packet in which the token stands that goes out of a terminal next.
#[derive(Clone, Copy, Debug, PartialEq, Eq)]
pub(crate) struct Sending {
    /// Its number among those that the terminal sent, from 0.
    pub(crate) number: usize,
    /// How many of its tokens have gone out.
    pub(crate) place: usize,
}

/// Whether the first of the tokens that wait is one of a packet.
#[derive(Clone, Copy, Debug)]
pub(crate) enum Fit {
    /// There is no such packet.
    Nowhere,
    /// It is, and this many of the packet's tokens have gone out.
    Here(usize),
    /// It is one of a packet before, and this many wait of those.
    Before(usize),
}

/// The packet that a terminal sends. None where no token waits to go out, or the plan has no such terminal.
pub(crate) fn sending_at(net: &TracedNet, terminal: usize) -> Option<Sending>
    ensures { result ≡ sending_at net.now terminal }
{
    match net.view_terminal(terminal) {
        Some(view) => sending_of(net, terminal, view.waiting),
        None => None,
    }
}

/// The same where that many tokens wait.
fn sending_of(net: &TracedNet, terminal: usize, waiting: usize) -> Option<Sending>
    ensures { result ≡ sending_of (size_at net.now terminal) waiting }
{
    if waiting == 0 {
        return None;
    }
    let count = count_sent(net, terminal);
    sending_before(net, terminal, count, waiting)
}

/// How many packets a terminal sent.
fn count_sent(net: &TracedNet, terminal: usize) -> usize
    ensures { result ≡ count_from (size_at net.now terminal) SENT_LIMIT 0 }
{
    for number in 0..SENT_LIMIT {
        match size_at(net, terminal, number) {
            Some(_) => {}
            None => return number,
        }
    }
    SENT_LIMIT
}

/// The packet in which the first of the tokens stands that wait of the first packets of a terminal.
fn sending_before(net: &TracedNet, terminal: usize, count: usize, waiting: usize) -> Option<Sending>
    ensures { result ≡ sending_before (size_at net.now terminal) count waiting }
{
    let mut left = waiting;
    for back in 0..count {
        let number = count - (back + 1);
        match fit_at(net, terminal, number, left) {
            Fit::Nowhere => return None,
            Fit::Here(place) => return Some(Sending { number, place }),
            Fit::Before(rest) => left = rest,
        }
    }
    None
}

/// Whether the first of the tokens that wait is one of the packet of this number, if that many wait from it on.
fn fit_at(net: &TracedNet, terminal: usize, number: usize, left: usize) -> Fit
    ensures { result ≡ fit_of (size_at net.now terminal number) left }
{
    fit_of(size_at(net, terminal, number), left)
}

/// The same of a packet of this size.
fn fit_of(size: Option<usize>, left: usize) -> Fit
    ensures { result ≡ fit_of size left }
{
    let Some(size) = size else {
        return Fit::Nowhere;
    };
    if left <= size {
        Fit::Here(size - left)
    } else {
        Fit::Before(left - size)
    }
}

/// How many tokens the packet of this number has that a terminal sent, with its terminator.
fn size_at(net: &TracedNet, terminal: usize, number: usize) -> Option<usize>
    ensures { result ≡ size_at net.now terminal number }
{
    match net.sent_packet(terminal, number) {
        Some(packet) => Some(packet.bytes.as_slice().len() + 1),
        None => None,
    }
}
