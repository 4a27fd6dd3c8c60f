//! The line of a step.
ghost use Rattle.std.specs.Prelude.{◌≡◌, ◌∷◌, ◌++◌, ◌==◌, [], IfOk, codes, string_bytes};
ghost use Rattle.std.specs.Fmt.{decimal};
ghost use Rattle.std.specs.List.{list_all};
ghost use Rattle.sw_machine.specs.StepValues.{machine_step};
ghost use Rattle.sw_output.specs.ChannelTexts.{node_name};
ghost use Rattle.sw_output.specs.FlowTexts.{flow_name};
ghost use Rattle.sw_output.specs.Lines.{spaced};
ghost use Rattle.sw_output.specs.PacketTexts.{end_text};
ghost use Rattle.sw_schedule.specs.WrittenLines.{cargo_text, step_line};

use hex::encode_upper;
use std::alloc::{AllocError, Global};
use std::fmt::Write;
use sw_char::End;
use sw_config::Network;
use sw_machine::{Move, Step};
use sw_output::{flow_name, node_name, packet_end_text};
use sw_topo::Chan;

fn add_channel(verb: &str, channel: Chan, text: &mut String) -> Result<(), AllocError>
    ensures { IfOk result (λ _. string_bytes text.new ≡ string_bytes text.old ++ spaced (verb.now ∷ decimal channel ∷ [])) }
{
    let number = channel.number();
    write!(text, "{verb} {number}")
}

fn add_grant(output: Chan, input: Chan, text: &mut String) -> Result<(), AllocError>
    ensures { IfOk result (λ _. string_bytes text.new ≡ string_bytes text.old ++ spaced (codes "grant" ∷ decimal output ∷ decimal input ∷ [])) }
{
    let output = output.number();
    let input = input.number();
    write!(text, "grant {output} {input}")
}

fn add_node(network: &Network, verb: &str, node: u16, text: &mut String) -> Result<(), AllocError>
    ensures { IfOk result (λ _. string_bytes text.new ≡ string_bytes text.old ++ spaced (verb.now ∷ node_name network.now node ∷ [])) }
{
    let name = node_name(network, node);
    write!(text, "{verb} {name}")
}

/// Whether all these bytes are that one.
fn are_all(byte: u8, bytes: &[u8]) -> bool
    ensures { result ≡ list_all (λ c. c == byte) bytes.now }
{
    for other in bytes {
        if *other != byte {
            return false;
        }
    }
    true
}

/// All bytes as pairs of hexadecimal digits; where they are alike, one pair and how many they are.
fn cargo_text(alloc: Global, cargo: &[u8]) -> Result<String, AllocError>
    ensures { IfOk result (λ s. string_bytes s ≡ cargo_text cargo.now) }
{
    match cargo {
        [] => Ok(String::new(alloc)),
        [first, rest @ ..] => {
            if are_all(*first, rest) {
                let pair = encode_upper(alloc, &[*first])?;
                let count = cargo.len();
                format!(in alloc; "{pair}*{count}")
            } else {
                encode_upper(alloc, cargo)
            }
        }
    }
}

fn add_beginning(
    alloc: Global,
    network: &Network,
    flow: u16,
    cargo: &[u8],
    end: End,
    text: &mut String,
) -> Result<(), AllocError>
    ensures { IfOk result (λ _. string_bytes text.new ≡ string_bytes text.old ++ spaced (codes "begin" ∷ flow_name network.now flow ∷ end_text end ∷ cargo_text cargo.now ∷ [])) }
{
    let name = flow_name(network, flow);
    let end = packet_end_text(end);
    let cargo = cargo_text(alloc, cargo)?;
    write!(text, "begin {name} {end} {cargo}")
}

/// Adds the line that writes the step once, without its LF.
pub(crate) fn add_step(
    alloc: Global,
    network: &Network,
    step: &Step,
    text: &mut String,
) -> Result<(), AllocError>
    ensures { IfOk result (λ _. string_bytes text.new ≡ string_bytes text.old ++ step_line network.now (machine_step step.now)) }
{
    match step {
        Step::Move(Move::Fct(channel)) => add_channel("fct", *channel, text),
        Step::Move(Move::FctIn(channel)) => add_channel("fctin", *channel, text),
        Step::Move(Move::Arrive(channel)) => add_channel("arrive", *channel, text),
        Step::Move(Move::Grant(output, input)) => add_grant(*output, *input, text),
        Step::Move(Move::Drop(channel)) => add_channel("drop", *channel, text),
        Step::Move(Move::Forward(channel)) => add_channel("forward", *channel, text),
        Step::Move(Move::Spill(channel)) => add_channel("spill", *channel, text),
        Step::Begin { flow, cargo, end } => {
            add_beginning(alloc, network, *flow, cargo, *end, text)
        }
        Step::Move(Move::Emit(node)) => add_node(network, "emit", *node, text),
        Step::Move(Move::Accept(node)) => add_node(network, "accept", *node, text),
        Step::Move(Move::Reply(node)) => add_node(network, "reply", *node, text),
    }
}
