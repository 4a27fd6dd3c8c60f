//! What limits on unanswered commands free a network, as values.
ghost use Rattle.std.specs.Prelude.{◌≡◌, ◌++◌, IfOk, OnOk, map, string_bytes};
ghost use Rattle.serde_json.specs.View.{view};
ghost use Rattle.sw_changes.specs.LimitingValues.{limiting_line_words, limiting_values, most_value, most_values, target_slots_value};

use crate::limiting_texts::limiting_words;
use serde_json::Value;
use std::alloc::{AllocError, Global};
use sw_config::Network;
use sw_json::{Member, add_value, object_of};
use sw_mend::{Limiting, TargetSlots};
use sw_output::node_name;

/// How many commands of each flow may be unanswered.
fn most_value(alloc: Global, most: u16) -> Result<Value, AllocError>
    ensures { IfOk result (λ v. view v ≡ most_value most) }
{
    let members = vec![in alloc;
        ("kind", Member::Text("limit")),
        ("outstanding", Member::Number(u64::from(most))),
    ]?;
    object_of(alloc, members)
}

/// The same, if there is such a limit.
fn most_values(alloc: Global, most: Option<u16>) -> Result<Vec<Value>, AllocError>
    ensures { IfOk result (λ v. map view v.items ≡ most_values most) }
{
    let mut values = Vec::new(alloc);
    if let Some(most) = most {
        add_value(most_value(alloc, most), &mut values)?;
    }
    Ok(values)
}

/// How many replies the target of a node has to be able to owe.
fn target_slots_value(
    alloc: Global,
    network: &Network,
    more: &TargetSlots,
) -> Result<Value, AllocError>
    ensures { IfOk result (λ v. view v ≡ target_slots_value network.now more.now) }
{
    let name = node_name(network, more.node);
    let members = vec![in alloc;
        ("kind", Member::Text("slots")),
        ("node", Member::Text(name)),
        ("slots", Member::Number(u64::from(more.slots))),
    ]?;
    object_of(alloc, members)
}

/// Adds the same of each of these.
fn add_slots_values(
    alloc: Global,
    network: &Network,
    slots: &[TargetSlots],
    values: &mut Vec<Value>,
) -> Result<(), AllocError>
    ensures { OnOk result (map view values.new.items ≡ map view values.old.items ++ map (target_slots_value network.now) slots.now) }
{
    for more in slots {
        add_value(target_slots_value(alloc, network, more), values)?;
    }
    Ok(())
}

/// The limit, and the slots of each target.
pub(crate) fn limiting_values(
    alloc: Global,
    network: &Network,
    limiting: &Limiting,
) -> Result<Vec<Value>, AllocError>
    ensures { IfOk result (λ v. map view v.items ≡ limiting_values network.now limiting.now) }
{
    let mut values = most_values(alloc, limiting.most)?;
    add_slots_values(alloc, network, &limiting.slots, &mut values)?;
    Ok(values)
}

/// The line of `mend`, without its LF.
pub(crate) fn limiting_line(
    alloc: Global,
    network: &Network,
    limiting: &Limiting,
) -> Result<String, AllocError>
    ensures { IfOk result (λ s. string_bytes s ≡ limiting_line_words network.now limiting.now) }
{
    let words = limiting_words(alloc, network, limiting)?;
    format!(in alloc; "free {words}")
}
