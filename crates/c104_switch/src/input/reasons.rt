//! Why an input isn't ready.
ghost use Rattle.std.specs.Prelude.{◌≡◌, ◌<◌};
ghost use Rattle.c104_regs.specs.declared.registers.TheConstants.{LINKS};
ghost use Rattle.c104_switch.specs.Reasons.{accept_why, grant_why, turn_why, wanted_why, header_why, has_room, put_why};

use super::InputOf;
use super::stage::Stage;
use crate::group::is_in_group;
use crate::outputs::OutputsOf;
use crate::unready::Unready;
use c104_link::{OUTPUT_CAP, OutBufferOf};
use c104_regs::{PackedSettings, Registers};
use c104_token::TokenKind;

impl<T: TokenKind> InputOf<T> {
    /// Why `accept` would take no token in.
    pub fn why_accept(&self) -> Option<Unready>
        ensures { result ≡ accept_why self.now.buffer }
    {
        if self.buffer.granted() > 0 {
            None
        } else {
            Some(Unready::NotGranted)
        }
    }

    /// Why `grant` would grant nothing.
    pub fn why_grant(&self) -> Option<Unready>
        ensures { result ≡ grant_why self.now.buffer }
    {
        if self.buffer.can_grant() {
            None
        } else {
            Some(Unready::NoRoom)
        }
    }

    /// Why `turn` would do nothing.
    pub fn why_turn(&self, outputs: &OutputsOf<T>) -> Option<Unready>
        ensures { result ≡ turn_why outputs.now self.now }
    {
        if self.buffer.len() == 0 {
            return Some(Unready::NoToken);
        }
        match &self.stage {
            Stage::Want(link) => Some(Unready::WantsOutput(usize::from(*link))),
            Stage::Stream(claim) => why_full(outputs, claim.output()),
            Stage::Fresh | Stage::Head | Stage::Sinking => None,
        }
    }

    /// Why this input would not claim this output, which has these settings and this buffer, and
    /// which this input owns, if one does.
    pub fn why_claim(
        &self,
        registers: &Registers,
        output: usize,
        owner: Option<usize>,
        own: &PackedSettings,
        buffer: &OutBufferOf<T>,
    ) -> Option<Unready>
        requires { output < LINKS }
        ensures { result ≡
            wanted_why registers.now.settings output owner own.now buffer.now self.now.phase }
    {
        let Stage::Want(link) = self.stage else {
            return Some(Unready::WantsNothing);
        };
        if !is_in_group(registers, link, output) {
            return Some(Unready::OutsideGroup(usize::from(link)));
        }
        if let Some(owner) = owner {
            return Some(Unready::Owned(owner));
        }
        why_header(own, self.header.as_slice(), buffer)
    }
}

/// Why no token joins the output of this number.
fn why_full<T: TokenKind>(outputs: &OutputsOf<T>, output: usize) -> Option<Unready>
    ensures { result ≡ put_why outputs.now output }
{
    if has_room(outputs, output) {
        None
    } else {
        Some(Unready::OutputFull(output))
    }
}

/// Whether there is an output of this number that holds fewer than eight tokens.
fn has_room<T: TokenKind>(outputs: &OutputsOf<T>, output: usize) -> bool
    ensures { result ≡ has_room outputs.now output }
{
    match outputs.get(output) {
        Some(buffer) => buffer.len() < OUTPUT_CAP,
        None => false,
    }
}

/// Why a header would not join an output, whose link has these settings.
fn why_header<T: TokenKind>(
    own: &PackedSettings,
    header: &[T],
    buffer: &OutBufferOf<T>,
) -> Option<Unready>
    ensures { result ≡ header_why own.now header.now buffer.now }
{
    if own.delete_header() || buffer.can_put_all(header) {
        None
    } else {
        Some(Unready::NoRoomForHeader)
    }
}
