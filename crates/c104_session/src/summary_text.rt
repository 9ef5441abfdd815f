//! The lines of a summary, and how they are written.
//!
//! A line keeps its packet byte by byte, which is a third of its text: the text is made as it is written. That takes no
//! memory, so none is wanted between one line and the next.
ghost use Rattle.std.specs.Prelude.{OnErr, OnOk, flat_map, option_to_list, ◌++◌, ◌≡◌};
ghost use Rattle.c104_session.specs.{Runs.WritesText, Shown.{byte_word, line_text, lines_text, origin_text, tokens_text}};
ghost use Rattle.{c104_stream.specs.Writing.{AppendsAndKeeps, AppendsPrefix}, c104_token.specs.{Packets.packet_tokens, Text.mark_word}};

use c104_net::Origin;
use c104_plan::Plan;
use c104_stream::{CannotWrite, Halt, Kept};
use c104_token::{Mark, Packet, digit_of};
use itoa::Buffer;
use std::alloc::Global;
use std::io::Write;

/// A line of a summary: a packet, the terminal where it arrived, and which packet it was, where that is known.
#[derive(Drop)]
pub struct SummaryLine {
    pub(crate) terminal: usize,
    pub(crate) packet: Packet,
    pub(crate) origin: Option<Origin>,
}

/// Writes lines. Where the writer fails a prefix of them is written, and out of memory nothing.
pub(crate) fn write_lines<W: Write>(
    alloc: Global,
    plan: &Plan,
    lines: &[SummaryLine],
    writer: &mut W,
) -> Result<(), Halt>
    ensures { WritesText (lines_text plan.now lines.now) (W.contents writer.old) (W.contents writer.new) result }
{
    let mut kept = Kept::new(alloc)?;
    add_lines(plan, lines, &mut kept, writer)?;
    kept.flush(writer)?;
    Ok(())
}

/// Lines join what is kept.
fn add_lines<W: Write>(
    plan: &Plan,
    lines: &[SummaryLine],
    kept: &mut Kept,
    writer: &mut W,
) -> Result<(), CannotWrite>
    ensures kept { OnOk result (AppendsAndKeeps (W.contents writer.old) (W.contents writer.new) kept.new
        (kept.old ++ lines_text plan.now lines.now)) }
    ensures prefix { OnErr result (AppendsPrefix (W.contents writer.old) (W.contents writer.new)
        (kept.old ++ lines_text plan.now lines.now)) }
{
    for line in lines {
        add_line(plan, line, kept, writer)?;
    }
    Ok(())
}

/// A line joins what is kept.
fn add_line<W: Write>(
    plan: &Plan,
    line: &SummaryLine,
    kept: &mut Kept,
    writer: &mut W,
) -> Result<(), CannotWrite>
    ensures kept { OnOk result (AppendsAndKeeps (W.contents writer.old) (W.contents writer.new) kept.new
        (kept.old ++ line_text plan.now line.now)) }
    ensures prefix { OnErr result (AppendsPrefix (W.contents writer.old) (W.contents writer.new)
        (kept.old ++ line_text plan.now line.now)) }
{
    let name = plan.terminal_name(line.terminal);
    kept.add(writer, name.as_bytes())?;
    kept.add(writer, b": ")?;
    add_packet(&line.packet, kept, writer)?;
    add_origin(plan, line.origin, kept, writer)?;
    kept.add(writer, b"\n")?;
    Ok(())
}

/// The tokens of a packet join what is kept.
fn add_packet<W: Write>(packet: &Packet, kept: &mut Kept, writer: &mut W) -> Result<(), CannotWrite>
    ensures kept { OnOk result (AppendsAndKeeps (W.contents writer.old) (W.contents writer.new) kept.new
        (kept.old ++ tokens_text (packet_tokens packet.now))) }
    ensures prefix { OnErr result (AppendsPrefix (W.contents writer.old) (W.contents writer.new)
        (kept.old ++ tokens_text (packet_tokens packet.now))) }
{
    add_bytes(packet.bytes.as_bytes(), kept, writer)?;
    kept.add(writer, mark_word(packet.mark))?;
    Ok(())
}

/// Bytes join what is kept, each with a space behind it.
fn add_bytes<W: Write>(bytes: &[u8], kept: &mut Kept, writer: &mut W) -> Result<(), CannotWrite>
    ensures kept { OnOk result (AppendsAndKeeps (W.contents writer.old) (W.contents writer.new) kept.new
        (kept.old ++ flat_map byte_word bytes.now)) }
    ensures prefix { OnErr result (AppendsPrefix (W.contents writer.old) (W.contents writer.new)
        (kept.old ++ flat_map byte_word bytes.now)) }
{
    for byte in bytes {
        kept.add(writer, &byte_word(*byte))?;
    }
    Ok(())
}

/// The two hexadecimal digits of a byte, and a space.
fn byte_word(byte: u8) -> [u8; 3]
    ensures { result ≡ byte_word byte }
{
    [digit_of(byte / 16) as u8, digit_of(byte % 16) as u8, b' ']
}

/// The word of a packet's mark.
fn mark_word(mark: Mark) -> &'static [u8]
    ensures { result.now ≡ mark_word mark }
{
    match mark {
        Mark::Eop => b"eop",
        Mark::Eom => b"eom",
    }
}

/// Where a packet came from joins what is kept, where that is known.
fn add_origin<W: Write>(
    plan: &Plan,
    origin: Option<Origin>,
    kept: &mut Kept,
    writer: &mut W,
) -> Result<(), CannotWrite>
    ensures kept { OnOk result (AppendsAndKeeps (W.contents writer.old) (W.contents writer.new) kept.new
        (kept.old ++ flat_map (origin_text plan.now) (option_to_list origin))) }
    ensures prefix { OnErr result (AppendsPrefix (W.contents writer.old) (W.contents writer.new)
        (kept.old ++ flat_map (origin_text plan.now) (option_to_list origin))) }
{
    let Some(origin) = origin else {
        return Ok(());
    };
    let mut digits = Buffer::new();
    kept.add(writer, b" from ")?;
    kept.add(writer, plan.terminal_name(origin.terminal).as_bytes())?;
    kept.add(writer, b" ")?;
    kept.add(writer, digits.format(origin.number).as_bytes())?;
    Ok(())
}
