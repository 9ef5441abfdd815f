//! What answers a line, and how it is printed.
ghost use Rattle.std.specs.Prelude.{OnErr, OnOk, [], decimal, ◌++◌, ◌≡◌};
ghost use Rattle.c104_script.specs.{Findings.{byte_text, fault_words}, Texts.{answer_line, reply_text, settled_text}};
ghost use Rattle.c104_switch.specs.declared.actions.ReplyOf.TheVariants as reply;

use crate::faults::LineFault;
use crate::findings::{Finding, add_finding};
use c104_control::ControlBytes;
use c104_event::EventFault;
use c104_switch::Reply;
use c104_token::{NoMemory, Token, digit_of};
use itoa::Buffer;

/// What answers a line of a script.
#[derive(Debug, Drop)]
pub enum Answer {
    /// What was asked is done or isn't ready, or this is what it gave.
    Replied(Reply),
    /// What was asked is refused.
    Refused(EventFault),
    /// Rounds were done until the network stood still, or as many as there may be.
    Settled(Settled),
    /// This was found at the switches.
    Found(Finding),
    /// The line is faulty, and asks nothing.
    Faulty(LineFault),
}

/// How rounds ended that were to go on until the network stands still, and how many there were.
#[derive(Clone, Copy, Debug)]
pub enum Settled {
    /// The network stands still, with no token anywhere and no packet under way.
    Done(u32),
    /// The network stands still, and some token stands somewhere or some packet is under way.
    StandsStill(u32),
    /// A further round would do something, or be refused.
    Moving(u32),
}

/// Adds the line that answers the line of this number to the text. The only error is out of memory, and then the
/// text is emptied, so that no part of a line is taken for a whole one.
pub fn add_answer(number: usize, answer: &Answer, text: &mut Vec<u8>) -> Result<(), NoMemory>
    ensures joined { OnOk result (text.new.items ≡ text.old.items ++ answer_line number answer.now) }
    ensures emptied { OnErr result (text.new.items ≡ []) }
{
    match add_line(number, answer, text) {
        Ok(()) => Ok(()),
        Err(NoMemory) => {
            text.clear();
            Err(NoMemory)
        }
    }
}

/// The same, but out of memory the text may end in a part of the line.
#[inline(always)]
fn add_line(number: usize, answer: &Answer, text: &mut Vec<u8>) -> Result<(), NoMemory>
    ensures { OnOk result (text.new.items ≡ text.old.items ++ answer_line number answer.now) }
{
    add_number(number, text)?;
    text.extend_from_slice(b": ")?;
    match answer {
        Answer::Replied(reply) => add_reply(reply, text)?,
        Answer::Refused(fault) => {
            text.extend_from_slice(b"refused ")?;
            add_fault(fault.number(), fault.name(), text)?;
        }
        Answer::Settled(settled) => add_settled(*settled, text)?,
        Answer::Found(finding) => add_finding(finding, text)?,
        Answer::Faulty(fault) => {
            text.extend_from_slice(b"fault ")?;
            add_fault(fault.number(), fault.name(), text)?;
        }
    }
    text.push(b'\n')?;
    Ok(())
}

/// A number joins the text, in decimal digits. The only error is out of memory.
pub fn add_number(number: usize, text: &mut Vec<u8>) -> Result<(), NoMemory>
    ensures { OnOk result (text.new.items ≡ text.old.items ++ decimal number) }
{
    let mut digits = Buffer::new();
    text.extend_from_slice(digits.format(number).as_bytes())?;
    Ok(())
}

/// A fault's number and name join the text.
pub(crate) fn add_fault(number: u8, name: &str, text: &mut Vec<u8>) -> Result<(), NoMemory>
    ensures { OnOk result (text.new.items ≡ text.old.items ++ fault_words number name.now) }
{
    add_number(usize::from(number), text)?;
    text.push(b' ')?;
    text.extend_from_slice(name.as_bytes())?;
    Ok(())
}

/// A reply to an event joins the text.
fn add_reply(reply: &Reply, text: &mut Vec<u8>) -> Result<(), NoMemory>
    ensures { OnOk result (text.new.items ≡ text.old.items ++ reply_text reply.now) }
{
    match reply {
        Reply::Done => text.extend_from_slice(b"done")?,
        Reply::NotReady => text.extend_from_slice(b"not ready")?,
        Reply::Token(token) => add_token(*token, text)?,
        Reply::Control(bytes) => add_control(bytes, text)?,
    }
    Ok(())
}

/// How rounds ended joins the text, and how many there were.
fn add_settled(settled: Settled, text: &mut Vec<u8>) -> Result<(), NoMemory>
    ensures { OnOk result (text.new.items ≡ text.old.items ++ settled_text settled) }
{
    match settled {
        Settled::Done(rounds) => add_counted("done ", rounds, text),
        Settled::StandsStill(rounds) => add_counted("stands still ", rounds, text),
        Settled::Moving(rounds) => add_counted("moving ", rounds, text),
    }
}

/// Words and a number behind them join the text.
fn add_counted(words: &str, number: u32, text: &mut Vec<u8>) -> Result<(), NoMemory>
    ensures { OnOk result (text.new.items ≡ text.old.items ++ (words.now ++ decimal number)) }
{
    text.extend_from_slice(words.as_bytes())?;
    add_number(number as usize, text)
}

/// A token that moved joins the text.
fn add_token(token: Token, text: &mut Vec<u8>) -> Result<(), NoMemory>
    ensures { OnOk result (text.new.items ≡ text.old.items ++ reply_text (reply.Token token)) }
{
    text.extend_from_slice(b"token ")?;
    match token {
        Token::Byte(byte) => add_byte(byte, text)?,
        Token::Eop => text.extend_from_slice(b"eop")?,
        Token::Eom => text.extend_from_slice(b"eom")?,
    }
    Ok(())
}

/// The bytes that a switch replied to a command join the text.
fn add_control(bytes: &ControlBytes, text: &mut Vec<u8>) -> Result<(), NoMemory>
    ensures { OnOk result (text.new.items ≡ text.old.items ++ reply_text (reply.Control bytes.now)) }
{
    text.extend_from_slice(b"control")?;
    for byte in bytes.as_slice() {
        text.push(b' ')?;
        add_byte(*byte, text)?;
    }
    Ok(())
}

/// The two hexadecimal digits of a byte join the text.
pub(crate) fn add_byte(byte: u8, text: &mut Vec<u8>) -> Result<(), NoMemory>
    ensures { OnOk result (text.new.items ≡ text.old.items ++ byte_text byte) }
{
    text.push(digit_of(byte / 16) as u8)?;
    text.push(digit_of(byte % 16) as u8)?;
    Ok(())
}
