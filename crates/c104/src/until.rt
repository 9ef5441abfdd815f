//! How many rounds it takes until a packet has arrived: the lines so far are run once more, and then rounds one by one.
ghost use Rattle.std.specs.Prelude.{None};

use c104_explain::is_under_way;
use c104_mistakes::{About, Messages, Work};
use c104_script::MAX_ROUNDS;
use c104_session::run;
use std::cell::Cell;
use std::io;
use std::io::Read;

/// What was told of the packet, or of a round, since a line was read.
#[derive(Clone, Copy)]
enum Seen {
    Nothing,
    /// The packet is under way.
    UnderWay,
    /// It isn't, or rounds do nothing more.
    Over,
}

/// The lines of a script, and behind them rounds, one by one, as long as a question before each is answered so that a
/// packet is under way.
#[derive(Drop)]
struct Rounds<'a> {
    script: &'a [u8],
    question: &'a [u8],
    seen: &'a Cell<Seen>,
    // Whether the question comes next.
    asks: bool,
    done: u32,
}

impl<'a> Rounds<'a> {
    /// The line that comes next, which is empty at the end.
    fn next_line(&mut self) -> &'a [u8] {
        let (seen, asks) = (self.seen.replace(Seen::Nothing), self.asks);
        self.asks = !asks;
        if asks {
            return match seen {
                Seen::Over if self.done > 0 => b"",
                _ => self.question,
            };
        }
        if !matches!(seen, Seen::UnderWay) || self.done >= MAX_ROUNDS {
            return b"";
        }
        self.done = self.done.saturating_add(1);
        b"rounds 1\n"
    }
}

impl Read for Rounds<'_> {
    // Which lines follow depends on what was answered.
    ghost remaining = { λ _. None };

    fn read(&mut self, buf: &mut [u8]) -> io::Result<usize> {
        let count = self.script.read(buf)?;
        if count > 0 {
            return Ok(count);
        }
        self.next_line().read(buf)
    }
}

/// Takes what is told of the packet and of rounds.
#[derive(Drop)]
struct Watcher<'a> {
    seen: &'a Cell<Seen>,
}

impl Messages for Watcher<'_> {
    fn are_wanted(&self) -> bool {
        true
    }

    fn are_asked(&self) -> bool {
        true
    }

    fn tell(&mut self, about: About, message: &str) {
        match about {
            // The first line of an answer.
            About::Question if matches!(self.seen.get(), Seen::Nothing) => {
                let is_under_way = is_under_way(message);
                self.seen.set(if is_under_way {
                    Seen::UnderWay
                } else {
                    Seen::Over
                });
            }
            // That a round is refused, or that nothing moves.
            About::ScriptLine(_) => self.seen.set(Seen::Over),
            _ => {}
        }
    }

    fn progress(&mut self, _work: Work, _done: u32, _count: u32) {}
}

/// How many rounds are done behind a script, on the network of a description, until the packet of a question has
/// arrived or is gone, or nothing moves. The question is a line that asks where the packet is. It is 0 where the packet
/// isn't under way.
pub fn rounds_until(
    rt: &HostRuntime,
    mut description: &[u8],
    script: &[u8],
    question: &[u8],
) -> u32 {
    let seen = Cell::new(Seen::Nothing);
    let mut rounds = Rounds {
        script,
        question,
        seen: &seen,
        asks: true,
        done: 0,
    };
    let mut watcher = Watcher { seen: &seen };
    let _ = run(
        rt.alloc(),
        &mut description,
        &mut rounds,
        &mut io::sink(),
        &mut watcher,
    );
    rounds.done
}
