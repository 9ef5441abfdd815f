//! Where a terminal starts, as plain data.
ghost use Rattle.std.specs.Prelude.{◌≡◌, IfOk};
ghost use Rattle.c104_link.specs.Buffers.{IsValidCap};
ghost use Rattle.c104_node.specs.TerminalStarts.{IsTerminalStart, new_terminal_start, start_terminal, terminal_start};

use super::{ArrivedOf, TerminalOf};
use c104_link::InBufferOf;
use c104_token::{NoMemory, TokenKind};
use std::alloc::Global;
use std::marker::Model;

/// Where a terminal starts where no token waits, and which has sent and received nothing.
#[derive(Debug, Drop)]
pub struct TerminalStart {
    cap: usize,
    granted: usize,
    credit: usize,
}

impl Model for TerminalStart {
    ghost use Rattle.c104_node.specs.TerminalStarts.{IsTerminalStart, TerminalStart};

    ghost Value = { TerminalStart };

    ghost view = { λ t. record { cap = t.cap; granted = t.granted; credit = t.credit } };

    ghost invariant = { λ t.
        IsTerminalStart (record { cap = t.cap; granted = t.granted; credit = t.credit }) };
}

impl TerminalStart {
    /// The start of a new terminal: nothing is granted, and there is no credit.
    pub fn new(cap: usize) -> Self
        requires { IsValidCap cap }
        ensures { result ≡ new_terminal_start cap }
    {
        TerminalStart {
            cap,
            granted: 0,
            credit: 0,
        }
    }

    /// The same start.
    pub fn same(&self) -> Self
        ensures { result ≡ self.now }
    {
        TerminalStart {
            cap: self.cap,
            granted: self.granted,
            credit: self.credit,
        }
    }

    /// For how many tokens its input buffer has room.
    pub fn cap(&self) -> usize
        ensures cap { result ≡ self.now.cap }
        ensures kept { IsTerminalStart self.now }
    {
        self.cap
    }

    /// How many tokens may go out.
    pub fn credit(&self) -> u32
        ensures { result ≡ self.now.credit }
    {
        self.credit as u32
    }

    /// How many tokens may come in.
    pub fn granted(&self) -> u32
        ensures { result ≡ self.now.granted }
    {
        self.granted as u32
    }
}

impl<T: TokenKind> TerminalOf<T> {
    /// The terminal at a start. The only error is out of memory.
    pub fn from_start(alloc: Global, start: &TerminalStart) -> Result<Self, NoMemory>
        ensures { IfOk result (λ t. t ≡ start_terminal start.now) }
    {
        let input = InBufferOf::granting(alloc, start.cap, start.granted)?;
        Ok(TerminalOf {
            input,
            sent: Vec::new(alloc),
            next: 0,
            place: 0,
            waiting: 0,
            credit: start.credit,
            arrived: ArrivedOf::new(alloc),
        })
    }

    /// Writes where the terminal stands, but for its tokens and for what it sent and received, in place
    /// of another start. It takes no memory.
    pub fn write_start(&self, start: &mut TerminalStart)
        ensures { start.new ≡ terminal_start self.now }
    {
        *start = TerminalStart {
            cap: self.input.cap(),
            granted: self.input.granted(),
            credit: self.credit,
        };
    }
}
