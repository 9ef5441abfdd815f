//! Answers to commands, and their bytes.
ghost use Rattle.std.specs.{Int.{to_le_bytes, w32}, Prelude.{Some, ◌↔◌, ◌∷◌, ◌≡◌}};
ghost use Rattle.c104_control.specs.{Reading.read_reply, Table.{IsAnswer, IsReply, reply_bytes}};

use crate::bytes::ControlBytes;

/// The number by which the device says what it is.
pub const DEVICE_ID: u32 = 0x0000_c104;

/// The number of the refusal of a switch that is to be started and is started already. It is the
/// last of the refusals' numbers.
pub const ALREADY_STARTED: u8 = 7;

/// What a switch answers to a command.
#[derive(Clone, Copy, Debug, PartialEq, Eq)]
pub enum Answer {
    /// It is started now.
    Started,
    /// It is reset now.
    WasReset,
    /// It is a device of this number, which is 0x0000C104.
    Identity(u32),
    /// The register has this value.
    Value(u32),
    /// The register is set now.
    Poked,
    /// Nothing has changed, for the reason of this number: 1 UnknownCode, 2 WrongLength, 3
    /// NoRegister, 4 ReadOnly, 5 OutOfRange, 6 Busy, 7 already started.
    Refused(u8),
}

/// The answer whose bytes these are. None where they are no answer's.
pub fn read_reply(bytes: &[u8]) -> Option<Answer>
    ensures read { result ≡ read_reply bytes.now }

    // Exactly the table's answers are read, each from its bytes.
    ensures table { (a : Answer) → (result ≡ Some a) ↔ (IsAnswer a × (reply_bytes a ≡ bytes.now)) }
{
    read(bytes)
}

fn read(bytes: &[u8]) -> Option<Answer>
    ensures { result ≡ read_reply bytes.now }
{
    match bytes {
        [0x81] => Some(Answer::Started),
        [0x82] => Some(Answer::WasReset),
        [0x83, first, second, third, last] => {
            match u32::from_le_bytes([*first, *second, *third, *last]) {
                DEVICE_ID => Some(Answer::Identity(DEVICE_ID)),
                _ => None,
            }
        }
        [0x84, first, second, third, last] => {
            let value = u32::from_le_bytes([*first, *second, *third, *last]);
            Some(Answer::Value(value))
        }
        [0x85] => Some(Answer::Poked),
        [0xff, number @ 1..=ALREADY_STARTED] => Some(Answer::Refused(*number)),
        _ => None,
    }
}

/// The bytes of an answer. A refusal's number is 1 to 7, and the device's number 0x0000C104.
pub fn write_reply(answer: &Answer) -> ControlBytes
    requires { IsReply answer.now }
    ensures bytes { result ≡ reply_bytes answer.now }
    ensures read_back { read_reply result ≡ Some answer.now }
{
    match *answer {
        Answer::Started => ControlBytes::new(&[0x81]),
        Answer::WasReset => ControlBytes::new(&[0x82]),
        Answer::Identity(id) => tagged(0x83, id),
        Answer::Value(value) => tagged(0x84, value),
        Answer::Poked => ControlBytes::new(&[0x85]),
        Answer::Refused(number) => ControlBytes::new(&[0xff, number]),
    }
}

/// A code, and then a number in four bytes.
fn tagged(code: u8, number: u32) -> ControlBytes
    ensures { result ≡ code ∷ to_le_bytes w32 number }
{
    let [first, second, third, last] = number.to_le_bytes();
    ControlBytes::new(&[code, first, second, third, last])
}
