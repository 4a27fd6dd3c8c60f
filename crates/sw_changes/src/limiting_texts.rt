//! The words of what limits on unanswered commands free a network.
ghost use Rattle.std.specs.Prelude.{◌≡◌, ◌++◌, IfOk, OnOk, flat_map, string_bytes};
ghost use Rattle.sw_changes.specs.LimitingTexts.{further_slots_words, limit_and_slots_words, limiting_words, most_words, slots_words, target_slots_words};

use std::alloc::{AllocError, Global};
use std::fmt::Write;
use sw_config::Network;
use sw_explain::ending;
use sw_mend::{Limiting, TargetSlots};
use sw_output::node_name;

/// How many commands of each flow may be unanswered.
fn most_words(alloc: Global, most: u16) -> Result<String, AllocError>
    ensures { IfOk result (λ s. string_bytes s ≡ most_words most) }
{
    let ending = ending(most as usize);
    format!(in alloc; "at most {most} unanswered command{ending} of each flow")
}

/// Adds how many replies the target of a node has to be able to owe, behind what stands before it.
fn add_target_slots(
    network: &Network,
    before: &str,
    more: &TargetSlots,
    text: &mut String,
) -> Result<(), AllocError>
    ensures { OnOk result (string_bytes text.new ≡ string_bytes text.old ++ (before.now ++ target_slots_words network.now more.now)) }
{
    let slots = more.slots;
    let name = node_name(network, more.node);
    write!(text, "{before}{slots} at {name}")
}

/// Adds the same of each of these, behind a comma each.
fn add_further_slots(
    network: &Network,
    slots: &[TargetSlots],
    text: &mut String,
) -> Result<(), AllocError>
    ensures { OnOk result (string_bytes text.new ≡ string_bytes text.old ++ flat_map (further_slots_words network.now) slots.now) }
{
    for more in slots {
        add_target_slots(network, ", ", more, text)?;
    }
    Ok(())
}

/// The same of all of these.
fn slots_words(
    alloc: Global,
    network: &Network,
    slots: &[TargetSlots],
) -> Result<String, AllocError>
    ensures { IfOk result (λ s. string_bytes s ≡ slots_words network.now slots.now) }
{
    let mut text = String::new(alloc);
    let [first, others @ ..] = slots else {
        return Ok(text);
    };
    add_target_slots(network, "slots ", first, &mut text)?;
    add_further_slots(network, others, &mut text)?;
    Ok(text)
}

/// The limit, or the slots, or both.
fn limit_and_slots_words(
    alloc: Global,
    network: &Network,
    most: Option<u16>,
    slots: &[TargetSlots],
) -> Result<String, AllocError>
    ensures { IfOk result (λ s. string_bytes s ≡ limit_and_slots_words network.now most slots.now) }
{
    let Some(most) = most else {
        return slots_words(alloc, network, slots);
    };
    let most = most_words(alloc, most)?;
    if slots.is_empty() {
        return Ok(most);
    }
    let slots = slots_words(alloc, network, slots)?;
    format!(in alloc; "{most}, and {slots}")
}

/// With how many unanswered commands of each flow, and with how many slots, a network is free.
///
/// # Errors
///
/// There is no memory for the text.
pub fn limiting_words(
    alloc: Global,
    network: &Network,
    limiting: &Limiting,
) -> Result<String, AllocError>
    ensures { IfOk result (λ s. string_bytes s ≡ limiting_words network.now limiting.now) }
{
    let words = limit_and_slots_words(alloc, network, limiting.most, &limiting.slots)?;
    format!(in alloc; "with {words}")
}
