//! The text of steps.
ghost use Rattle.std.specs.Prelude.{◌≡◌, ◌++◌, ◌&&◌, IfOk, map, nat_lt, option_map, string_bytes};
ghost use Rattle.sw_machine.specs.StepValues.{machine_step};
ghost use Rattle.sw_schedule.specs.Runs.{entry_line, is_same, readable_text};

use crate::names::MAX_COUNT;
use crate::schedule::MAX_STEPS;
use crate::written_line::add_step;
use std::alloc::{AllocError, Global};
use std::fmt::Write;
use sw_config::Network;
use sw_machine::Step;
use sw_text::MAX_TEXT;

/// Adds the line of a step that is made so often, one time after another.
fn add_entry(
    alloc: Global,
    network: &Network,
    step: &Step,
    count: u32,
    text: &mut String,
) -> Result<(), AllocError>
    ensures { IfOk result (λ _. string_bytes text.new ≡ string_bytes text.old ++ entry_line network.now (record { count = count; step = machine_step step.now })) }
{
    if count != 1 {
        write!(text, "{count} ")?;
    }
    add_step(alloc, network, step, text)?;
    text.push_str("\n")
}

/// The line of a step that is made so often, one time after another.
///
/// # Errors
///
/// There is no memory for the text.
pub fn entry_text(
    alloc: Global,
    network: &Network,
    step: &Step,
    count: u32,
) -> Result<String, AllocError>
    ensures { IfOk result (λ text. string_bytes text ≡ entry_line network.now (record { count = count; step = machine_step step.now })) }
{
    let mut text = String::new(alloc);
    add_entry(alloc, network, step, count, &mut text)?;
    Ok(text)
}

/// Whether the two are the same step.
fn is_same(step: &Step, other: &Step) -> bool
    ensures { result ≡ is_same (machine_step step.now) (machine_step other.now) }
{
    match (step, other) {
        (Step::Move(step), Step::Move(other)) => step == other,
        (
            Step::Begin { flow, cargo, end },
            Step::Begin {
                flow: other_flow,
                cargo: other_cargo,
                end: other_end,
            },
        ) => flow == other_flow && end == other_end && cargo.as_slice() == other_cargo.as_slice(),
        _ => false,
    }
}

/// Whether the step is one more of the last one's line, which has it so often.
fn is_one_more(count: u32, step: &Step, last: &Step) -> bool
    ensures { result ≡ (nat_lt count 100000 && is_same (machine_step step.now) (machine_step last.now)) }
{
    count < MAX_COUNT && is_same(step, last)
}

/// The text of a schedule of these steps, equal neighbours as one line with their count. None where it would be longer than a
/// schedule may be.
///
/// # Errors
///
/// There is no memory for the text.
pub fn write_steps(
    alloc: Global,
    network: &Network,
    steps: &[Step],
) -> Result<Option<String>, AllocError>
    ensures { IfOk result (λ o. option_map string_bytes o ≡ readable_text network.now (map machine_step steps.now)) }
{
    if steps.len() > MAX_STEPS as usize {
        return Ok(None);
    }
    let mut text = String::new(alloc);
    let [first, rest @ ..] = steps else {
        return Ok(Some(text));
    };
    let mut last = first;
    let mut count = 1;
    for step in rest {
        if is_one_more(count, step, last) {
            count += 1;
        } else {
            add_entry(alloc, network, last, count, &mut text)?;
            if text.len() > MAX_TEXT {
                return Ok(None);
            }
            last = step;
            count = 1;
        }
    }
    add_entry(alloc, network, last, count, &mut text)?;
    if text.len() > MAX_TEXT {
        Ok(None)
    } else {
        Ok(Some(text))
    }
}
