//! The summary of a run: what arrived at each terminal, and where it came from.
ghost use Rattle.std.specs.{Global.Vec as Kept, Prelude.{IfOk, List, OnOk, length, map, option_to_list, ◌++◌, ◌<◌, ◌≡◌}};
ghost use Rattle.{c104_net.specs.{Deliveries.arrived_at, RunOrigins.AreOrigins, TracedEnds.traced_end}, c104_node.specs.Origins.AreSure};
ghost use Rattle.c104_node.specs.{Origins.origins_in, declared.{origins.Origin.Origin as TheOrigin, traced.Traced.Traced as TheTraced}};
ghost use Rattle.{c104_plan.specs.{Plans.Plan as ThePlan, PortTexts.terminal_name}, c104_token.specs.Packets.packet_tokens};
ghost use Rattle.c104_session.specs.Shown.{lines_text, packet_line, packets_text, summary};

use crate::ended::EndedNet;
use crate::summary_text::SummaryLine;
use c104_net::{Origin, Origins};
use c104_token::{NoMemory, Packet, Token, cut_packets};
use std::alloc::Global;

/// A line for each whole packet that arrived, terminal by terminal in the plan's order, and of a terminal in order of
/// arrival: the packet, the terminal that sent it, and its number among those that this terminal sent, from 0. There are
/// all lines before any of them is written, so that none is written where memory runs out. The only error is out of
/// memory.
pub fn summary_lines(alloc: Global, run: &EndedNet) -> Result<Vec<SummaryLine>, NoMemory>
    ensures { IfOk result (λ lines. lines_text run.now.finished.plan lines.items ≡ summary run.now) }
{
    let origins = run.origins(alloc)?;
    let mut lines = Vec::new(alloc);
    add_terminals(alloc, run, origins.as_slice(), &mut lines)?;
    Ok(lines)
}

/// The lines of all terminals join the lines.
#[tactic(auto, unfolding(crate::specs::Shown::summary))]
fn add_terminals(
    alloc: Global,
    run: &EndedNet,
    origins: &[Vec<Origin>],
    lines: &mut Vec<SummaryLine>,
) -> Result<(), NoMemory>
    requires { AreOrigins run.now (map (λ (list : Kept TheOrigin). list.items) origins.now) }
    ensures { OnOk result (lines_text run.now.finished.plan lines.new.items
        ≡ lines_text run.now.finished.plan lines.old.items ++ summary run.now) }
{
    for terminal in 0..run.plan().terminals().len() {
        add_terminal(alloc, run, terminal, origins, lines)?;
    }
    Ok(())
}

/// The lines of the packets that a terminal received join the lines.
fn add_terminal(
    alloc: Global,
    run: &EndedNet,
    terminal: usize,
    origins: &[Vec<Origin>],
    lines: &mut Vec<SummaryLine>,
) -> Result<(), NoMemory>
    requires origins { AreOrigins run.now (map (λ (list : Kept TheOrigin). list.items) origins.now) }
    requires inside { terminal < length run.now.finished.plan.terminals }
    ensures { OnOk result (lines_text run.now.finished.plan lines.new.items
        ≡ lines_text run.now.finished.plan lines.old.items
        ++ packets_text run.now.finished.plan (terminal_name run.now.finished.plan terminal)
        (arrived_at (traced_end run.now) terminal)) }
{
    let (Some(arrived), Some(origins)) = (run.arrived(alloc, terminal)?, origins.get(terminal))
    else {
        unreachable!();
    };
    add_packets(
        alloc,
        terminal,
        arrived.as_slice(),
        origins.as_slice(),
        lines,
    )
}

/// The lines of a terminal's whole packets join the lines. The origins are those of the packets, in order.
fn add_packets(
    alloc: Global,
    terminal: usize,
    arrived: &[Token],
    origins: &[Origin],
    lines: &mut Vec<SummaryLine>,
) -> Result<(), NoMemory>
    ensures { OnOk result ((plan : ThePlan) (tokens : List TheTraced)
        → arrived.now ≡ map (λ (x : TheTraced). x.token) tokens → origins.now ≡ origins_in tokens → AreSure tokens
        → lines_text plan lines.new.items
        ≡ lines_text plan lines.old.items ++ packets_text plan (terminal_name plan terminal) tokens) }
{
    let (packets, _unfinished) = cut_packets(alloc, arrived)?;
    for (place, packet) in packets.as_slice().iter().enumerate() {
        add_packet(terminal, packet, origins.get(place).copied(), lines)?;
    }
    Ok(())
}

/// The line of a packet joins the lines.
// It has a copy, which takes no more room than its bytes: bytes that came one by one have up to as much again.
fn add_packet(
    terminal: usize,
    packet: &Packet,
    origin: Option<Origin>,
    lines: &mut Vec<SummaryLine>,
) -> Result<(), NoMemory>
    ensures { OnOk result ((plan : ThePlan) → lines_text plan lines.new.items ≡ lines_text plan lines.old.items
        ++ packet_line plan (terminal_name plan terminal) (packet_tokens packet.now) (option_to_list origin)) }
{
    let packet = packet.clone()?;
    lines.push(SummaryLine {
        terminal,
        packet,
        origin,
    })?;
    Ok(())
}
