//! The attributes of a channel: what is told of it by its style and its labels.
ghost use Rattle.std.specs.Prelude.{◌≡◌, ◌++◌, IfOk, List, OnOk, ℕ, codes, string_bytes};
ghost use Rattle.sw_explain.specs.Dot.{AttributeText, IsBegun, attributes_text, opening};
ghost use Rattle.sw_explain.specs.DrawTexts.{cycle_attributes, flow_attributes, number_attributes};

use std::alloc::AllocError;
use std::fmt::Write;
use sw_flow::Place;
use sw_topo::Chan;

/// Adds that a channel of the flow is bold, and its number. Gives whether anything is added.
pub(crate) fn add_flow_mark(
    places: &[Place],
    channel: Chan,
    text: &mut String,
) -> Result<bool, AllocError>
    ensures { IfOk result (λ begun. IsBegun (string_bytes text.old) (string_bytes text.new) (flow_attributes places.now channel) begun) }
{
    for place in places {
        if place.channel == channel {
            let number = channel.number();
            write!(text, " [style=\"bold\", xlabel=\"channel {number}\"")?;
            return Ok(true);
        }
    }
    Ok(false)
}

/// What stands before an attribute: the first one opens the brackets.
fn opening(begun: bool) -> &'static str
    ensures { result.now ≡ opening begun }
{
    if begun { ", " } else { " [" }
}

/// Adds that a step of the cycle is red, and its number, behind other attributes if there are any. Gives whether there are any then.
pub(crate) fn add_step_mark(
    cycle: &[Chan],
    channel: Chan,
    begun: bool,
    text: &mut String,
) -> Result<bool, AllocError>
    ensures { IfOk result (λ more. (start : List ℕ) (list : List AttributeText) → IsBegun start (string_bytes text.old) list begun → IsBegun start (string_bytes text.new) (list ++ cycle_attributes cycle.now channel) more) }
{
    for before in 0..cycle.len() {
        if cycle[before] == channel {
            let between = opening(begun);
            let number = before + 1;
            write!(
                text,
                "{between}color=\"red\", fontcolor=\"red\", label=\"{number}\""
            )?;
            return Ok(true);
        }
    }
    Ok(begun)
}

/// Adds the channel's number in the certificate, behind other attributes if there are any, and ends the line.
pub(crate) fn end_marks(
    numbers: &[u16],
    channel: Chan,
    begun: bool,
    text: &mut String,
) -> Result<(), AllocError>
    ensures { OnOk result ((start : List ℕ) (list : List AttributeText) → IsBegun start (string_bytes text.old) list begun → string_bytes text.new ≡ start ++ (attributes_text (list ++ number_attributes numbers.now channel) ++ codes ";\n")) }
{
    match numbers.get(usize::from(channel.number())) {
        Some(number) => {
            let between = opening(begun);
            write!(text, "{between}label=\"{number}\"];\n")
        }
        None => {
            if begun {
                return text.push_str("];\n");
            }
            text.push_str(";\n")
        }
    }
}
