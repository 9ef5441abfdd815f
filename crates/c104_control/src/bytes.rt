//! A few bytes that are handed over a control link.
ghost use Rattle.std.specs.Prelude.{◌≡◌, ◌<◌, ◌≤◌, length, All};

use arrayvec::ArrayVec;
use std::marker::Model;

/// The most bytes of a command or a reply.
pub const MAX_CONTROL_BYTES: usize = 8;

/// The bytes of a command or a reply: at most eight.
#[derive(Debug, Drop, PartialEq, Eq)]
pub struct ControlBytes {
    bytes: ArrayVec<u8, MAX_CONTROL_BYTES>,
}

impl Model for ControlBytes {
    ghost use Rattle.std.specs.Prelude.{List, ℕ};

    ghost Value = { List ℕ };

    ghost view = { λ control. control.bytes.items };

    ghost inverse = { λ bytes. record { bytes = record { items = bytes } } };
}

impl ControlBytes {
    /// These bytes, at most eight.
    pub fn new(bytes: &[u8]) -> Self
        requires { length bytes.now ≤ MAX_CONTROL_BYTES }
        ensures { result ≡ bytes.now }
    {
        let mut list = ArrayVec::new();
        let Ok(()) = list.try_extend_from_slice(bytes) else {
            unreachable!();
        };
        ControlBytes { bytes: list }
    }

    /// The bytes: at most eight, each of which is below 256.
    pub fn as_slice(&self) -> &[u8]
        ensures value { result.now ≡ self.now }
        ensures few { length self.now ≤ MAX_CONTROL_BYTES }
        ensures range { All (λ byte. byte < 256) self.now }
    {
        // The proof reads the range of the lent slice by this name.
        let slice = self.bytes.as_slice();
        slice
    }
}
