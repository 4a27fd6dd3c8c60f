//! The hint of a step of a schedule that can't be made.
use crate::teller::{Teller, Text};
use crate::text_lines::nth_line;
use std::alloc::{AllocError, Global};
use sw_config::Network;
use sw_faults::{Hint, found_at};
use sw_output::{flow_name, node_name};
use sw_schedule::{Move, Schedule, ScheduleEntry, ScheduleFault, Step, StepRefusal, read_steps};

/// How many steps a line lists.
fn steps_in(alloc: Global, network: &Network, line: &[u8]) -> Result<u32, AllocError> {
    match read_steps(alloc, network, line) {
        Ok(schedule) => Ok(schedule.total()),
        Err(ScheduleFault::Fault(_)) => Ok(0),
        Err(ScheduleFault::Memory) => Err(AllocError),
    }
}

/// The number of the line in which the step of that number stands, both counted from 1.
fn line_with(
    alloc: Global,
    network: &Network,
    text: &[u8],
    number: u32,
) -> Result<Option<usize>, AllocError> {
    let mut left = number;
    for (before, line) in text.split(|byte| *byte == b'\n').enumerate() {
        let count = steps_in(alloc, network, line)?;
        if left <= count {
            return Ok(Some(before + 1));
        }
        left -= count;
    }
    Ok(None)
}

/// The entry with the step of that number, counted from 1, if there are so many.
fn entry_with(entries: &[ScheduleEntry], number: u32) -> Option<&ScheduleEntry> {
    let mut left = number;
    for entry in entries {
        if left <= entry.count() {
            return Some(entry);
        }
        left -= entry.count();
    }
    None
}

impl Teller<'_> {
    /// What a step needs to be possible.
    fn to_be_possible(self, step: &Step) -> Text {
        let (alloc, network) = (self.alloc, self.network);
        match step {
            Step::Move(Move::Fct(channel)) => format!(in alloc;
                "room for eight more characters at the end of channel {}, and at most 48 that were asked for and have not arrived",
                channel.number()
            ),
            Step::Move(Move::FctIn(channel)) => format!(in alloc;
                "an FCT for channel {} that was sent and has not arrived: fct sends one",
                channel.number()
            ),
            Step::Move(Move::Arrive(channel)) => format!(in alloc;
                "a character on the wire of channel {}: emit or forward sends one",
                channel.number()
            ),
            Step::Move(Move::Grant(output, input)) => format!(in alloc;
                "an input from channel {} that holds nothing, and a header at the front of its buffer that names channel {}, which no input holds",
                input.number(),
                output.number()
            ),
            Step::Move(Move::Drop(channel)) => format!(in alloc;
                "an input from channel {} that holds nothing, and at the front of its buffer a packet's end or a byte that names no output",
                channel.number()
            ),
            Step::Move(Move::Forward(channel)) => format!(in alloc;
                "an input from channel {} that holds an output, credit for that output, and a character in the input's buffer",
                channel.number()
            ),
            Step::Move(Move::Spill(channel)) => format!(in alloc;
                "an input from channel {} that discards a packet, and a character in its buffer",
                channel.number()
            ),
            Step::Begin { flow, .. } => format!(in alloc;
                "no packet being sent, and no reply waiting, at the node where flow {} starts",
                flow_name(network, *flow)
            ),
            Step::Move(Move::Emit(node)) => format!(in alloc;
                "a character that {} still has to send, and credit for it: fctin brings some",
                node_name(network, *node)
            ),
            Step::Move(Move::Accept(node)) => format!(in alloc;
                "a character that came in at {}, which owes fewer replies than it has slots",
                node_name(network, *node)
            ),
            Step::Move(Move::Reply(node)) => format!(in alloc;
                "a reply waiting at {}, which is sending nothing",
                node_name(network, *node)
            ),
        }
    }

    /// What a further command of the flow needs, if the node where it ends has a limit.
    fn within_limit(self, flow: u16) -> Text {
        let Some(flow) = self.flow(flow) else {
            return self.text("");
        };
        let name = node_name(self.network, flow.to());
        match self.network.limit_at(flow.to()) {
            Some(limit) => format!(in self.alloc;
                "a reply that {name} has sent whole: as many commands to it are unanswered as its limit of {limit} allows"
            ),
            None => self.text(""),
        }
    }

    /// What a packet has to be that its flow declares.
    fn to_be_declared(self, flow: u16) -> Text {
        self.text(if self.is_limited(flow) {
            "an RMAP command that the target answers and whose reply goes where the flow's 'reply' says, as the flow is limited: swcheck rmap prints its cargo"
        } else {
            "a packet that the target would not answer, or a command whose reply goes where the flow's 'reply' says"
        })
    }

    /// What the step needs that was refused so.
    fn needs(self, step: &Step, refusal: StepRefusal) -> Text {
        match (refusal, step) {
            (StepRefusal::NotEnabled, step) => self.to_be_possible(step),
            (StepRefusal::NotInFlow, Step::Begin { flow, .. }) => self.to_be_declared(*flow),
            (StepRefusal::OverLimit, Step::Begin { flow, .. }) => self.within_limit(*flow),
            _ => self.text(""),
        }
    }
}

/// The hint of the step of that number, counted from 1, of a schedule with this text: the line in
/// which it stands, and what it needs.
///
/// # Errors
///
/// There is no memory for the hint, or to read a line once more.
pub fn refused_step_hint(
    alloc: Global,
    network: &Network,
    text: &[u8],
    schedule: &Schedule,
    number: u32,
    refusal: StepRefusal,
) -> Result<Hint, AllocError> {
    let teller = Teller { alloc, network };
    let line = line_with(alloc, network, text, number)?;
    let expected = match entry_with(schedule.entries(), number) {
        Some(entry) => teller.needs(&entry.step(alloc)?, refusal),
        None => teller.text(""),
    }?;
    let words = match refusal {
        StepRefusal::NotEnabled => "is not possible after the steps before it",
        StepRefusal::NotInFlow => "begins a packet that its flow does not declare",
        StepRefusal::OverLimit => "begins one more command than may be unanswered",
    };
    let what = format!(in alloc; "step {number} {words}")?;
    Ok(Hint {
        line,
        found: found_at(alloc, nth_line(text, line.unwrap_or(0)), 0)?,
        expected,
        ..Hint::new(alloc, what)
    })
}
