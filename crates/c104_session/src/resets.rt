//! Commands that reset a switch.
ghost use Rattle.std.specs.Prelude.{◌≡◌};
ghost use Rattle.c104_session.specs.Resets.{is_reset};

/// The byte of the command that resets a switch.
const RESET: u8 = 0x02;

/// Whether these bytes are the command that resets a switch.
pub(crate) fn is_reset(bytes: &[u8]) -> bool
    ensures { result ≡ is_reset bytes.now }
{
    match bytes {
        [code] => *code == RESET,
        _ => false,
    }
}
