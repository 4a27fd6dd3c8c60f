//! What became of the packets of each flow.
ghost use Rattle.std.specs.Prelude.{◌≡◌, ◌≤◌, ◌++◌, IfOk, length, map, string_bytes};
ghost use Rattle.sw_summary.specs.Counts.{asked_by};
ghost use Rattle.sw_summary.specs.KeyCounts.{IsRising, found, taken_all};
ghost use Rattle.sw_summary.specs.Texts.{flow_text, flow_texts};

use crate::begun::{Begun, count_loaded, forms};
use crate::came_out::PacketKey;
use crate::declared::declared_flow;
use crate::handling::{Handling, handled_as};
use crate::key_counts::{KeyCount, found_packets, found_times, packet_counts, reply_counts};
use std::alloc::{AllocError, Global};
use std::fmt::Write;
use sw_char::{End, Packet};
use sw_config::{Flow, Network};
use sw_load::Load;

/// How many of the replies that these packets of the flow ask for came out.
fn found_replies(replies: &mut [KeyCount<'_>], flow: &Flow, packets: &[Packet]) -> usize
    requires { IsRising replies.old }
    ensures count { result ≡ found replies.old (asked_by flow.now packets.now flow.now.reply) }
    ensures rest { replies.new ≡ taken_all replies.old (asked_by flow.now packets.now flow.now.reply) }
{
    let Some(reply) = flow.reply() else {
        return 0;
    };
    let bytes = [reply.initiator()];
    let key = PacketKey {
        node: flow.from(),
        bytes: &bytes,
        end: End::Eop,
    };
    found_times(replies, &key, handled_as(Handling::Answered, packets))
}

/// Adds the line of the flow, if the load has a packet of it, of which so many came out and so many were answered.
fn add_line(
    load: &Load,
    number: u16,
    flow: &Flow,
    begun: usize,
    delivered: usize,
    answered: usize,
    text: &mut String,
) -> Result<(), AllocError>
    ensures { IfOk result (λ _. string_bytes text.new ≡ string_bytes text.old ++ flow_text load.now number flow.now begun delivered answered) }
{
    let of_them = count_loaded(number, load);
    if of_them == 0 {
        return Ok(());
    }
    let name = flow.name();
    if flow.reply().is_some() {
        return write!(
            text,
            "flow {name} begun {begun} of {of_them} delivered {delivered} answered {answered}\n"
        );
    }
    write!(
        text,
        "flow {name} begun {begun} of {of_them} delivered {delivered}\n"
    )
}

/// Adds a line for each declared flow of which the load has a packet.
pub(crate) fn add_flows(
    alloc: Global,
    network: &Network,
    load: &Load,
    begun: &[Begun<'_>],
    out: &[Vec<Packet>],
    text: &mut String,
) -> Result<(), AllocError>
    requires { length out.now ≤ 1024 }
    ensures { IfOk result (λ _. string_bytes text.new ≡ string_bytes text.old ++ flow_texts network.now load.now begun.now (map (λ packets. packets.items) out.now)) }
{
    let mut packets = packet_counts(alloc, out)?;
    let mut replies = reply_counts(alloc, out)?;
    for i in 0..network.declared_flows() {
        let flow = declared_flow(network, i);
        let all = forms(alloc, flow, i, begun)?;
        let delivered = found_packets(&mut packets, flow.to(), &all);
        let answered = found_replies(&mut replies, flow, &all);
        add_line(load, i, flow, all.len(), delivered, answered, text)?;
    }
    Ok(())
}
